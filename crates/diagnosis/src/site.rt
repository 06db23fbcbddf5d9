//! Where something stands in a recording or in a step.
use crate::quoted::Quoted;
use std::fmt;

/// What a member belongs to.
#[derive(Clone, Copy)]
pub enum Site<'a> {
    /// The recording as a whole.
    Recording,
    /// A stage of a recording, by its place, and its name where it has one; where it has none, the one before it tells it.
    Stage {
        place: usize,
        name: Option<&'a str>,
        before: Option<&'a str>,
    },
    /// A step, and the stage that it names.
    Step {
        stage: Option<&'a str>,
    },
    /// The stage that a step adds.
    New {
        name: Option<&'a str>,
    },
    /// An edit of a step's list, by its index from 0, and the stage that it names.
    Edit {
        index: usize,
        stage: Option<&'a str>,
    },
    /// The stage that an edit of a step's list adds.
    NewOfEdit {
        index: usize,
        name: Option<&'a str>,
    },
}

impl<'a> Site<'a> {
    /// The name of the stage, where there is one.
    pub fn name(self) -> Option<&'a str> {
        match self {
            Site::Recording => None,
            Site::Stage { name, .. } => name,
            Site::Step { stage } => stage,
            Site::New { name } => name,
            Site::Edit { stage, .. } => stage,
            Site::NewOfEdit { name, .. } => name,
        }
    }

    /// The place of the stage, where it is one of a recording.
    pub fn place(self) -> Option<usize> {
        match self {
            Site::Stage { place, .. } => Some(place),
            _ => None,
        }
    }

    /// Whether a path in it begins with a member's name, and not with the place of a stage or of an edit.
    fn is_whole(self) -> bool {
        matches!(self, Site::Recording | Site::Step { .. })
    }

    /// Writes the front of a path.
    fn write_front<W: fmt::Write>(self, f: &mut fmt::Formatter<W>) -> fmt::Result {
        match self {
            Site::Recording | Site::Step { .. } => Ok(()),
            Site::Stage { place, .. } => write!(f, "stages[{place}]"),
            Site::New { .. } => f.write_str("new"),
            Site::Edit { index, .. } => write!(f, "edits[{index}]"),
            Site::NewOfEdit { index, .. } => write!(f, "edits[{index}].new"),
        }
    }
}

/// Writes `stage "tax"` behind what stands before it.
fn write_stage<W: fmt::Write>(before: &str, name: &str, f: &mut fmt::Formatter<W>) -> fmt::Result {
    let name = Quoted(name);
    write!(f, "{before}stage {name}")
}

/// `stage "tax" (place 16)`, or what else stands for it.
impl fmt::Display for Site<'_> {
    fn fmt<W: fmt::Write>(&self, f: &mut fmt::Formatter<W>) -> fmt::Result {
        match *self {
            Site::Recording => f.write_str("the recording"),
            Site::Stage {
                place,
                name: Some(name),
                ..
            } => {
                write_stage("", name, f)?;
                write!(f, " (place {place})")
            }
            Site::Stage {
                place,
                name: None,
                before,
            } => {
                write!(f, "the stage at place {place}")?;
                write_before(before, f)
            }
            Site::Step { stage: None } => f.write_str("the step"),
            Site::Step { stage: Some(stage) } => write_stage("", stage, f),
            Site::New { name: None } => f.write_str("the new stage"),
            Site::New { name: Some(name) } => write_stage("new ", name, f),
            Site::Edit { index, stage: None } => write!(f, "edits[{index}]"),
            Site::Edit {
                index,
                stage: Some(stage),
            } => {
                write!(f, "edits[{index}], ")?;
                write_stage("", stage, f)
            }
            Site::NewOfEdit { index, name: None } => write!(f, "edits[{index}], new stage"),
            Site::NewOfEdit {
                index,
                name: Some(name),
            } => {
                write!(f, "edits[{index}], ")?;
                write_stage("new ", name, f)
            }
        }
    }
}

/// Where a value stands: what it belongs to, a member of that, an element of the member, and a member of the element.
#[derive(Clone, Copy)]
pub struct Path<'a> {
    pub site: Site<'a>,
    pub member: Option<&'static str>,
    pub index: Option<usize>,
    pub inner: Option<&'static str>,
}

impl<'a> Path<'a> {
    /// What belongs to nothing else.
    pub(crate) fn of(site: Site<'a>) -> Path<'a> {
        Path {
            site,
            member: None,
            index: None,
            inner: None,
        }
    }

    /// An element of it.
    pub(crate) fn item(self, index: usize) -> Path<'a> {
        Path {
            index: Some(index),
            ..self
        }
    }

    /// A member of it.
    pub(crate) fn to(self, name: &'static str) -> Path<'a> {
        match self.member {
            None => Path {
                member: Some(name),
                ..self
            },
            Some(_) => Path {
                inner: Some(name),
                ..self
            },
        }
    }

    /// Writes the path alone, as `stages[4].ends[0].delay`.
    fn write_path<W: fmt::Write>(&self, f: &mut fmt::Formatter<W>) -> fmt::Result {
        self.site.write_front(f)?;
        match (self.member, self.site) {
            (Some(member), _) => self.write_member(member, f),
            (None, Site::Recording) => f.write_str("the recording"),
            (None, Site::Step { .. }) => f.write_str("the step"),
            (None, _) => Ok(()),
        }
    }

    /// Writes a member, its element and the member of that, behind the front.
    fn write_member<W: fmt::Write>(&self, member: &str, f: &mut fmt::Formatter<W>) -> fmt::Result {
        f.write_str(if self.site.is_whole() { "" } else { "." })?;
        f.write_str(member)?;
        if let Some(index) = self.index {
            write!(f, "[{index}]")?;
        }
        match self.inner {
            Some(inner) => write!(f, ".{inner}"),
            None => Ok(()),
        }
    }
}

/// `stages[4].ends[0].delay ("inventory-1")`.
impl fmt::Display for Path<'_> {
    fn fmt<W: fmt::Write>(&self, f: &mut fmt::Formatter<W>) -> fmt::Result {
        self.write_path(f)?;
        match (self.site.name(), self.site) {
            (Some(name), _) => {
                let name = Quoted(name);
                write!(f, " ({name})")
            }
            (None, Site::Stage { before, .. }) => write_before(before, f),
            (None, _) => Ok(()),
        }
    }
}

/// Writes the name of the stage before one without a name.
fn write_before<W: fmt::Write>(before: Option<&str>, f: &mut fmt::Formatter<W>) -> fmt::Result {
    match before {
        Some(before) => {
            let before = Quoted(before);
            write!(f, " (after {before})")
        }
        None => Ok(()),
    }
}
