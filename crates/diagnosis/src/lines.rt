//! On which lines the faults of a recording stand.
use crate::finding::Finding;
use crate::outline::{Outline, StageTexts};
use crate::site::{Path, Site};
use crate::stage::STAGE_MEMBERS;
use crate::walk::{Turn, Walk};
use std::alloc::{AllocError, Global};
use std::{fmt, slice};

/// A fault, and the line on which it stands, from 1, where that is known.
#[derive(Clone, Copy)]
pub struct Lined<'a> {
    pub line: Option<usize>,
    pub finding: &'a Finding<'a>,
}

impl fmt::Display for Lined<'_> {
    fn fmt<W: fmt::Write>(&self, f: &mut fmt::Formatter<W>) -> fmt::Result {
        if let Some(line) = self.line {
            write!(f, "line {line}: ")?;
        }
        let finding = self.finding;
        write!(f, "{finding}")
    }
}

/// The line of a member, and where those of its elements begin among all elements.
#[derive(Clone, Copy)]
struct MemberLine<'a> {
    name: &'a [u8],
    line: usize,
    elements: usize,
}

/// The lines of a stage: of itself, of the members that are read, and of the elements of these.
#[derive(Drop)]
pub(crate) struct ObjectLines<'a> {
    line: usize,
    members: Vec<MemberLine<'a>>,
    elements: Vec<usize>,
}

/// Whether a text is one of the names.
fn is_one_of(text: &[u8], names: &[&str]) -> bool {
    names.iter().any(|name| name.as_bytes() == text)
}

impl<'a> ObjectLines<'a> {
    /// Those of the stage whose text begins on a line.
    pub(crate) fn of(
        alloc: Global,
        stage: &'a [u8],
        line: usize,
    ) -> Result<ObjectLines<'a>, AllocError> {
        let mut lines = ObjectLines {
            line,
            members: Vec::new(alloc),
            elements: Vec::new(alloc),
        };
        let mut walk = Walk::new(alloc, stage);
        let before = line.saturating_sub(1);
        for _ in 0..stage.len() {
            if !walk.go_on()? {
                break;
            }
            lines.meet(walk.way(), before.saturating_add(walk.line()))?;
        }
        Ok(lines)
    }

    /// Meets what stands at the end of a way, on a line.
    fn meet(&mut self, way: &[Turn<'a>], line: usize) -> Result<(), AllocError> {
        match way {
            [Turn::Member(name)] if is_one_of(name, STAGE_MEMBERS) => self.add_member(name, line),
            [Turn::Member(_), Turn::Element(_)] => {
                self.elements.push(line)?;
                Ok(())
            }
            _ => Ok(()),
        }
    }

    /// Keeps the line of a member, in place of an earlier one of its name.
    fn add_member(&mut self, name: &'a [u8], line: usize) -> Result<(), AllocError> {
        let elements = self.elements.len();
        let added = MemberLine {
            name,
            line,
            elements,
        };
        for member in self.members.iter_mut() {
            if member.name == name {
                *member = added;
                return Ok(());
            }
        }
        self.members.push(added)?;
        Ok(())
    }

    /// The line of the member of a name.
    fn member(&self, name: &str) -> Option<MemberLine<'a>> {
        self.members
            .as_slice()
            .iter()
            .find(|member| member.name == name.as_bytes())
            .copied()
    }

    /// The line of what a path names, or of what it stands in.
    pub(crate) fn line_at(&self, path: Path<'_>) -> usize {
        let Some(member) = path.member.and_then(|name| self.member(name)) else {
            return self.line;
        };
        let element = match path.index {
            Some(index) => self
                .elements
                .as_slice()
                .get(member.elements.saturating_add(index)),
            None => None,
        };
        element.copied().unwrap_or(member.line)
    }
}

impl<'a> Finding<'a> {
    /// Where it stands.
    pub(crate) fn path(&self) -> Path<'a> {
        match *self {
            Finding::Shape { path, .. } => path,
            Finding::Stage { site, .. } => Path::of(site),
            Finding::ListSize { .. } => Path::of(Site::Recording),
        }
    }
}

/// The lines of stages that are asked for in their order.
#[derive(Drop)]
struct Lines<'a> {
    alloc: Global,
    texts: StageTexts<'a>,
    /// The place behind that of the last stage.
    next: usize,
    /// The lines of the last stage.
    last: Option<ObjectLines<'a>>,
}

impl<'a> Lines<'a> {
    /// Goes on to the stage of a place, if there is one.
    fn go_to(&mut self, place: usize) -> Result<(), AllocError> {
        let mut found = None;
        for _ in self.next..=place {
            found = self.texts.next();
            if found.is_none() {
                break;
            }
        }
        self.next = place.saturating_add(1);
        self.last = match found {
            Some(stage) => {
                let line = self.texts.line_of(stage);
                Some(ObjectLines::of(self.alloc, stage.text, line)?)
            }
            None => None,
        };
        Ok(())
    }

    /// The line of what a path names in the stage of a place.
    fn line_at(&mut self, place: usize, path: Path<'_>) -> Result<Option<usize>, AllocError> {
        if place >= self.next {
            self.go_to(place)?;
        }
        match &self.last {
            Some(stage) if self.next.saturating_sub(1) == place => Ok(Some(stage.line_at(path))),
            _ => Ok(None),
        }
    }
}

/// The line of each fault of a recording, from 1, where it is known; the faults are in the order in which
/// `examine_recording` finds them. It takes time by the number of bytes and of faults. Where the stages stand twice, the line of no
/// fault of a stage is known.
pub fn lines_of<'a>(
    alloc: Global,
    recording: &[u8],
    faults: &'a [Finding<'a>],
) -> Result<Vec<Option<usize>>, AllocError> {
    let outline = Outline::of(recording);
    let mut lines = Lines {
        alloc,
        texts: outline.stages(),
        next: 0,
        last: None,
    };
    let mut found = Vec::new(alloc);
    for fault in faults {
        let path = fault.path();
        let line = match (path.site.place(), path.member) {
            (Some(place), _) if outline.has_stages_once() => lines.line_at(place, path)?,
            (None, Some(member)) => outline.line_of(member),
            _ => None,
        };
        found.push(line)?;
    }
    Ok(found)
}

/// The line on which the stage of a place begins, from 1, where it is known.
pub fn line_of_stage(recording: &[u8], place: usize) -> Option<usize> {
    let mut stages = Outline::of(recording).stages();
    for _ in 0..place {
        stages.next()?;
    }
    let stage = stages.next()?;
    Some(stages.line_of(stage))
}

/// A fault of a recording with its line.
pub fn with_line<'a>(
    alloc: Global,
    recording: &[u8],
    finding: &'a Finding<'a>,
) -> Result<Lined<'a>, AllocError> {
    let lines = lines_of(alloc, recording, slice::from_ref(finding))?;
    let line = lines.as_slice().first().copied().flatten();
    Ok(Lined { line, finding })
}
