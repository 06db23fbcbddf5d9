//! What is found in a recording or in a step.
use crate::finding::{Finding, Found, ShapeFault, StageFault};
use crate::members::Member;
use crate::site::{Path, Site};
use crate::unread::{Unread, Warning};
use crate::wanted::Wanted;
use json_names::{nearest, unread_members};
use json_trees::Tree;
use std::alloc::{AllocError, Global};

/// The most faults, and the most warnings, that are kept.
const MOST_KEPT: usize = 65_536;

/// What is found, in the order in which it is looked at.
#[derive(Drop)]
pub struct Findings<'a> {
    alloc: Global,
    faults: Vec<Finding<'a>>,
    warnings: Vec<Warning<'a>>,
}

impl<'a> Findings<'a> {
    /// Nothing.
    pub fn new(alloc: Global) -> Findings<'a> {
        Findings {
            alloc,
            faults: Vec::new(alloc),
            warnings: Vec::new(alloc),
        }
    }

    pub fn faults(&self) -> &[Finding<'a>] {
        self.faults.as_slice()
    }

    pub fn warnings(&self) -> &[Warning<'a>] {
        self.warnings.as_slice()
    }

    /// The first fault of a number, and of a place and a member where these are given.
    pub fn explanation(
        &self,
        number: u32,
        place: Option<usize>,
        member: Option<&str>,
    ) -> Option<&Finding<'a>> {
        for fault in self.faults() {
            if fault.number() == number && fault.is_at(place, member) {
                return Some(fault);
            }
        }
        None
    }

    pub(crate) fn alloc(&self) -> Global {
        self.alloc
    }

    /// Keeps a fault, unless too many are kept.
    pub(crate) fn fault(&mut self, fault: Finding<'a>) -> Result<(), AllocError> {
        if self.faults.len() < MOST_KEPT {
            self.faults.push(fault)?;
        }
        Ok(())
    }

    /// Keeps a fault of a stage, if there is one.
    pub(crate) fn stage_fault(
        &mut self,
        site: Site<'a>,
        fault: Option<StageFault<'a>>,
    ) -> Result<(), AllocError> {
        match fault {
            Some(fault) => self.fault(Finding::Stage { site, fault }),
            None => Ok(()),
        }
    }

    /// Keeps that a number is above its limit.
    pub(crate) fn limit(
        &mut self,
        site: Site<'a>,
        what: &'static str,
        number: u64,
        most: u64,
    ) -> Result<(), AllocError> {
        let fault = StageFault::Limit { what, number, most };
        self.fault(Finding::Stage { site, fault })
    }

    /// Keeps that a member is not there.
    pub(crate) fn missing(&mut self, path: Path<'a>, wanted: Wanted) -> Result<(), AllocError> {
        let fault = ShapeFault::Missing(wanted);
        self.fault(Finding::Shape { path, fault })
    }

    /// Keeps that a member is something else than is wanted.
    pub(crate) fn wrong(
        &mut self,
        path: Path<'a>,
        value: &Tree<'_, 'a>,
        wanted: Wanted,
    ) -> Result<(), AllocError> {
        self.wrong_as(path, Found::of(value), wanted)
    }

    /// The same, by what the member is.
    pub(crate) fn wrong_as(
        &mut self,
        path: Path<'a>,
        found: Found<'a>,
        wanted: Wanted,
    ) -> Result<(), AllocError> {
        let near = match found.text() {
            Some(text) => nearest(self.alloc, text, wanted.names())?,
            None => None,
        };
        let fault = ShapeFault::Wrong {
            found,
            wanted,
            near,
        };
        self.fault(Finding::Shape { path, fault })
    }

    /// Keeps a warning, unless too many are kept.
    pub(crate) fn warning(&mut self, warning: Warning<'a>) -> Result<(), AllocError> {
        if self.warnings.len() < MOST_KEPT {
            self.warnings.push(warning)?;
        }
        Ok(())
    }

    /// Keeps a warning of each member of an object that is not among those which are read there, and no label.
    pub(crate) fn unread(
        &mut self,
        path: Path<'a>,
        object: &Tree<'_, 'a>,
        read: &[&'static str],
    ) -> Result<(), AllocError> {
        let members = unread_members(self.alloc, object, read)?;
        for member in members.as_slice() {
            self.unread_member(path, member, read)?;
        }
        Ok(())
    }

    /// Keeps a warning of a member that is not among those which are read.
    fn unread_member(
        &mut self,
        path: Path<'a>,
        member: &'a str,
        read: &[&'static str],
    ) -> Result<(), AllocError> {
        match (nearest(self.alloc, member, read)?, path.site) {
            // (of the recording as a whole what is like none of its members is a label)
            (None, Site::Recording) => Ok(()),
            (near, _) => self.warning(Warning::at(path, member, Unread::Unknown { near })),
        }
    }

    /// The same of a step or an edit, by the members that it has beside `do`.
    pub(crate) fn unread_beside_do(
        &mut self,
        path: Path<'a>,
        object: &Tree<'_, 'a>,
        members: &[Member],
    ) -> Result<(), AllocError> {
        let mut read = Vec::new(self.alloc);
        read.push("do")?;
        for member in members {
            read.push(member.name())?;
        }
        self.unread(path, object, read.as_slice())
    }

    /// Keeps a warning of a member that others have, where it is there.
    pub(crate) fn unread_beside(
        &mut self,
        path: Path<'a>,
        object: &Tree<'_, 'a>,
        member: &'static str,
        name: &'a str,
    ) -> Result<(), AllocError> {
        match object.get(member) {
            Some(_) => self.warning(Warning::at(path, member, Unread::OfAnother { name })),
            None => Ok(()),
        }
    }
}

impl Finding<'_> {
    /// Whether the fault is at the place and of the member, where these are given.
    fn is_at(&self, place: Option<usize>, member: Option<&str>) -> bool {
        match (self, place, member) {
            (Finding::Shape { path, .. }, _, Some(member)) => path.told() == member,
            (Finding::Stage { site, .. }, Some(place), _) => match site.place() {
                Some(own) => own == place,
                None => false,
            },
            _ => true,
        }
    }
}

impl Path<'_> {
    /// The member by which a fault of shape there is refused.
    fn told(&self) -> &'static str {
        match (self.member, self.site) {
            (Some(member), _) => member,
            (None, Site::Recording) => "recording",
            (None, Site::Stage { .. }) => "stages",
            (None, Site::Step { .. }) => "step",
            (None, Site::New { .. } | Site::NewOfEdit { .. }) => "new",
            (None, Site::Edit { .. }) => "edits",
        }
    }
}
