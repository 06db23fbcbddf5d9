//! What is wrong in a recording or in a step.
use crate::exception::{class_meant, is_wrapper};
use crate::quoted::Quoted;
use crate::site::{Path, Site};
use crate::wanted::Wanted;
use json_trees::Tree;
use serde_json::Number;
use std::fmt;

/// What is told of a name that no stage may have.
pub(crate) const BAD_NAME: &str =
    "a name is 1 to 64 of the characters A-Z a-z 0-9 _ - . and begins with no - or .";

/// What stands in a place, in short.
#[derive(Clone, Copy)]
pub enum Found<'a> {
    Null,
    Flag(bool),
    Number(Number),
    Text(&'a str),
    Array,
    Object,
}

/// How a member has another form than the format gives it.
#[derive(Clone, Copy)]
pub enum ShapeFault<'a> {
    /// It is not there.
    Missing(Wanted),
    /// It is something else.
    Wrong {
        found: Found<'a>,
        wanted: Wanted,
        near: Option<&'static str>,
    },
}

/// Which check a stage or an edit fails.
#[derive(Clone, Copy)]
pub enum StageFault<'a> {
    /// No stage has the name.
    NoStage {
        name: &'a str,
        near: Option<&'a str>,
    },
    /// The stage at an earlier place has the name.
    NameTaken {
        place: usize,
    },
    BadName,
    /// The operation takes another number of sources.
    Sources {
        operation: &'a str,
        wanted: usize,
        given: usize,
    },
    /// The operation picks no inner stage.
    Inner {
        operation: &'a str,
        given: usize,
    },
    /// The operation needs an action.
    ActionMissing {
        operation: &'a str,
    },
    /// The operation has no action.
    ActionGiven {
        operation: &'a str,
    },
    /// No stage has the name of a source or of an inner stage.
    NoSource {
        member: &'static str,
        name: &'a str,
        near: Option<&'a str>,
    },
    /// A number is above its limit.
    Limit {
        what: &'static str,
        number: u64,
        most: u64,
    },
    EndBeforeCreated {
        index: usize,
        at: u64,
        created: u64,
    },
    /// The operation has no action that could take time.
    NoAction {
        operation: &'a str,
    },
    /// The action has too many nodes, or is too deep.
    Expression {
        nodes: usize,
        depth: usize,
    },
}

/// A fault of a recording or of a step.
#[derive(Clone, Copy)]
pub enum Finding<'a> {
    Shape {
        path: Path<'a>,
        fault: ShapeFault<'a>,
    },
    Stage {
        site: Site<'a>,
        fault: StageFault<'a>,
    },
    /// A list of edits has none, or more than 64.
    ListSize {
        given: usize,
    },
}

impl StageFault<'_> {
    /// The number by which such a fault is refused.
    pub fn number(&self) -> u32 {
        match self {
            StageFault::NoStage { .. } => 10,
            StageFault::NameTaken { .. } => 11,
            StageFault::BadName => 12,
            StageFault::Sources { .. }
            | StageFault::Inner { .. }
            | StageFault::ActionMissing { .. }
            | StageFault::ActionGiven { .. } => 13,
            StageFault::NoSource { .. } => 14,
            StageFault::Limit { .. } => 15,
            StageFault::EndBeforeCreated { .. } => 16,
            StageFault::NoAction { .. } => 17,
            StageFault::Expression { .. } => 20,
        }
    }
}

impl Finding<'_> {
    /// The number by which such a fault is refused.
    pub fn number(&self) -> u32 {
        match self {
            Finding::Shape { .. } => 71,
            Finding::Stage { fault, .. } => fault.number(),
            Finding::ListSize { .. } => 21,
        }
    }
}

impl<'a> Found<'a> {
    /// What a value is.
    pub(crate) fn of(value: &Tree<'_, 'a>) -> Found<'a> {
        if let Some(text) = value.as_str() {
            return Found::Text(text);
        }
        if let Some(number) = value.as_number() {
            return Found::Number(number);
        }
        if let Some(flag) = value.as_bool() {
            return Found::Flag(flag);
        }
        if value.is_null() {
            Found::Null
        } else if value.is_array() {
            Found::Array
        } else {
            Found::Object
        }
    }

    /// The text, where this is one.
    pub(crate) fn text(self) -> Option<&'a str> {
        match self {
            Found::Text(text) => Some(text),
            _ => None,
        }
    }
}

impl fmt::Display for Found<'_> {
    fn fmt<W: fmt::Write>(&self, f: &mut fmt::Formatter<W>) -> fmt::Result {
        match *self {
            Found::Null => f.write_str("null"),
            Found::Flag(true) => f.write_str("true"),
            Found::Flag(false) => f.write_str("false"),
            Found::Number(number) => write!(f, "{number}"),
            Found::Text(text) => {
                let text = Quoted(text);
                write!(f, "{text}")
            }
            Found::Array => f.write_str("an array"),
            Found::Object => f.write_str("an object"),
        }
    }
}

impl fmt::Display for ShapeFault<'_> {
    fn fmt<W: fmt::Write>(&self, f: &mut fmt::Formatter<W>) -> fmt::Result {
        match *self {
            ShapeFault::Missing(wanted) => write!(f, " is missing: {wanted}"),
            ShapeFault::Wrong {
                wanted: Wanted::NoTakes,
                ..
            } => f.write_str(" is not read in form 2, which has queued and runs in place of takes"),
            ShapeFault::Wrong {
                found,
                wanted,
                near,
            } => {
                write!(f, " is {found}")?;
                write_near(near, f)?;
                if let (Wanted::Exception, Some(text)) = (wanted, found.text()) {
                    write_exception_meant(text, f)?;
                }
                write!(f, " ({wanted})")
            }
        }
    }
}

fn write_near<W: fmt::Write>(near: Option<&str>, f: &mut fmt::Formatter<W>) -> fmt::Result {
    match near {
        Some(near) => {
            let near = Quoted(near);
            write!(f, "; did you mean {near}?")
        }
        None => Ok(()),
    }
}

/// Writes which exception is meant by a text that is not the name of one which a stage may hold.
fn write_exception_meant<W: fmt::Write>(text: &str, f: &mut fmt::Formatter<W>) -> fmt::Result {
    if is_wrapper(text) {
        return f.write_str("; its cause is meant, which a stage holds wrapped");
    }
    match class_meant(text) {
        Some(class) => {
            let class = Quoted(class);
            write!(f, "; the class alone is meant, {class}")
        }
        None => Ok(()),
    }
}

/// Writes that a name is none of a stage, with what stands before and after it.
fn write_unknown<W: fmt::Write>(
    before: &str,
    name: &str,
    after: &str,
    near: Option<&str>,
    f: &mut fmt::Formatter<W>,
) -> fmt::Result {
    let name = Quoted(name);
    write!(f, "{before} {name}{after}")?;
    write_near(near, f)
}

/// Writes `1 source` or `2 sources`.
fn write_sources<W: fmt::Write>(count: usize, f: &mut fmt::Formatter<W>) -> fmt::Result {
    match count {
        0 => f.write_str("no source"),
        1 => f.write_str("1 source"),
        _ => write!(f, "{count} sources"),
    }
}

/// Writes that an operation takes another number of sources.
fn write_arity<W: fmt::Write>(
    operation: &str,
    wanted: usize,
    given: usize,
    f: &mut fmt::Formatter<W>,
) -> fmt::Result {
    let operation = Quoted(operation);
    write!(f, "{operation} takes ")?;
    write_sources(wanted, f)?;
    match given {
        0 => f.write_str(", and none is given"),
        1 => f.write_str(", and 1 is given"),
        _ => write!(f, ", and {given} are given"),
    }
}

/// Writes what is told of an operation.
fn write_told<W: fmt::Write>(
    operation: &str,
    told: &str,
    f: &mut fmt::Formatter<W>,
) -> fmt::Result {
    let operation = Quoted(operation);
    write!(f, "{operation} {told}")
}

impl fmt::Display for StageFault<'_> {
    fn fmt<W: fmt::Write>(&self, f: &mut fmt::Formatter<W>) -> fmt::Result {
        match *self {
            StageFault::NoStage { name, near } => {
                write_unknown("no stage has the name", name, "", near, f)
            }
            StageFault::NameTaken { place } => {
                write!(f, "the stage at place {place} has this name already")
            }
            StageFault::BadName => f.write_str(BAD_NAME),
            StageFault::Sources {
                operation,
                wanted,
                given,
            } => write_arity(operation, wanted, given, f),
            StageFault::Inner { operation, given } => {
                let operation = Quoted(operation);
                write!(
                    f,
                    "{operation} picks no inner stage, and {given} of them are given"
                )
            }
            StageFault::ActionMissing { operation } => {
                write_told(operation, "needs an action, and none is given", f)
            }
            StageFault::ActionGiven { operation } => {
                write_told(operation, "has no action, and one is given", f)
            }
            StageFault::NoSource { member, name, near } => {
                write_unknown(member, name, " is no stage", near, f)
            }
            StageFault::Limit { what, number, most } => {
                write!(f, "{what} is {number}, and at most {most} is allowed")
            }
            StageFault::EndBeforeCreated { index, at, created } => write!(
                f,
                "ends[{index}] is at {at}, before the stage is created at {created}"
            ),
            StageFault::NoAction { operation } => write_told(
                operation,
                "has no action that could take time or be set",
                f,
            ),
            StageFault::Expression { nodes, depth } => write!(
                f,
                "the action has {nodes} nodes and a depth of {depth}, and at most 256 and 32 are allowed"
            ),
        }
    }
}

impl fmt::Display for Finding<'_> {
    fn fmt<W: fmt::Write>(&self, f: &mut fmt::Formatter<W>) -> fmt::Result {
        match self {
            Finding::Shape { path, fault } => write!(f, "{path}{fault}"),
            Finding::Stage { site, fault } => write!(f, "{site}: {fault}"),
            Finding::ListSize { given } => {
                write!(f, "edits has {given} edits, and 1 to 64 are allowed")
            }
        }
    }
}
