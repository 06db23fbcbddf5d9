//! Members that nothing reads, and those that stand more than once.
use crate::quoted::Quoted;
use crate::site::{Path, Site};
use std::fmt;

/// Why nothing reads a member, or one of its values.
#[derive(Clone, Copy)]
pub enum Unread<'a> {
    /// The format has no such member there.
    Unknown { near: Option<&'static str> },
    /// It is one of form 2.
    OfFormTwo,
    /// Only other operations, or other ends, have it.
    OfAnother { name: &'a str },
    /// The object has it more than once, and the last one counts.
    Repeated,
}

/// A member that nothing reads, or one of whose values nothing reads.
#[derive(Clone, Copy)]
pub struct Warning<'a> {
    pub site: Site<'a>,
    /// The member that it stands in, if it is one of the site's own members that holds it.
    pub within: Option<&'static str>,
    /// The element of that member that it stands in.
    pub index: Option<usize>,
    pub member: &'a str,
    pub why: Unread<'a>,
    /// How many further stages have it too.
    pub more: usize,
}

impl<'a> Warning<'a> {
    /// The warning of one member of what stands at a path.
    pub(crate) fn at(path: Path<'a>, member: &'a str, why: Unread<'a>) -> Warning<'a> {
        Warning {
            site: path.site,
            within: path.member,
            index: path.index,
            member,
            why,
            more: 0,
        }
    }
}

impl fmt::Display for Unread<'_> {
    fn fmt<W: fmt::Write>(&self, f: &mut fmt::Formatter<W>) -> fmt::Result {
        match *self {
            Unread::Unknown { near: None } => f.write_str("; a label of your own begins with x-"),
            Unread::Unknown { near: Some(near) } => {
                let near = Quoted(near);
                write!(f, "; did you mean {near}?")
            }
            Unread::OfFormTwo => {
                f.write_str(" in form 1, which has takes; write \"form\": 2 for queued and runs")
            }
            Unread::OfAnother { name } => {
                let name = Quoted(name);
                write!(f, " beside {name}")
            }
            Unread::Repeated => f.write_str(" stands more than once, and the last one counts"),
        }
    }
}

impl Warning<'_> {
    /// Writes which stages have the member, or what else has it.
    fn write_sites<W: fmt::Write>(&self, f: &mut fmt::Formatter<W>) -> fmt::Result {
        let site = self.site;
        match site.name() {
            Some(name) => {
                let name = Quoted(name);
                write!(f, "stage {name}")?;
            }
            None => write!(f, "{site}")?,
        }
        match self.more {
            0 => Ok(()),
            more => write!(f, " and {more} more"),
        }
    }

    /// Writes the member and the element that it stands in.
    fn write_within<W: fmt::Write>(&self, f: &mut fmt::Formatter<W>) -> fmt::Result {
        if let Some(within) = self.within {
            write!(f, ", {within}")?;
        }
        match self.index {
            Some(index) => write!(f, "[{index}]"),
            None => Ok(()),
        }
    }
}

impl fmt::Display for Warning<'_> {
    fn fmt<W: fmt::Write>(&self, f: &mut fmt::Formatter<W>) -> fmt::Result {
        f.write_str("warning: ")?;
        self.write_sites(f)?;
        self.write_within(f)?;
        let (member, why) = (Quoted(self.member), self.why);
        f.write_str(match why {
            Unread::Repeated => ": ",
            _ => ": nothing reads ",
        })?;
        write!(f, "{member}{why}")
    }
}
