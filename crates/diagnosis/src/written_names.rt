//! The names of stages, found in their texts without reading these.
use crate::names::Names;
use crate::outline::Outline;
use crate::passing::{Passing, all_pass, split_text};
use crate::scanner::after_blanks;
use std::alloc::{AllocError, Global};

/// What is seen of a stage's name.
#[derive(Clone, Copy)]
struct NameSeen<'a> {
    /// How many arrays and objects are open.
    depth: usize,
    /// The last text.
    last: &'a [u8],
    /// What comes after the colon of the name.
    value: &'a [u8],
    /// Whether a member of the stage has an escape in its name, so that it may be another one than is written.
    has_escape: bool,
}

impl<'a> Passing<'a> for NameSeen<'a> {
    fn take(&mut self, text: &'a [u8]) {
        self.last = text;
    }

    fn enter(&mut self) {
        self.depth = self.depth.saturating_add(1);
    }

    fn leave(&mut self) -> bool {
        self.depth = self.depth.saturating_sub(1);
        true
    }

    fn name(&mut self, value: &'a [u8]) -> bool {
        if self.depth == 1 {
            match self.last {
                b"name" => self.value = value,
                last => self.has_escape |= last.contains(&b'\\'),
            }
        }
        true
    }
}

/// The name of a stage, as its text tells it.
#[derive(Clone, Copy)]
enum NameTold<'a> {
    Name(&'a str),
    /// It has none.
    Nothing,
    /// It has to be read, as there is an escape in it, or in the name of a member.
    Escaped,
}

/// What a text with its escapes tells.
fn told_by(text: &[u8]) -> NameTold<'_> {
    if text.contains(&b'\\') {
        return NameTold::Escaped;
    }
    match str::from_utf8(text) {
        Ok(name) => NameTold::Name(name),
        Err(_) => NameTold::Nothing,
    }
}

/// The name of a stage.
fn name_told<'a>(stage: &'a [u8]) -> NameTold<'a> {
    let mut seen = NameSeen {
        depth: 0,
        last: b"",
        value: b"",
        has_escape: false,
    };
    all_pass(stage, &mut seen);
    if seen.has_escape {
        return NameTold::Escaped;
    }
    match after_blanks(seen.value) {
        [b'"', text @ ..] => match split_text(text) {
            Some((name, _)) => told_by(name),
            None => NameTold::Nothing,
        },
        _ => NameTold::Nothing,
    }
}

/// The names of a recording's stages; nothing where one has to be read.
pub(crate) fn names_in_texts<'a>(
    alloc: Global,
    outline: Outline<'a>,
) -> Result<Option<Names<'a>>, AllocError> {
    let mut names = Names::none(alloc);
    let mut stages = outline.stages();
    for place in 0..usize::MAX {
        let Some(stage) = stages.next() else {
            break;
        };
        match name_told(stage.text) {
            NameTold::Name(name) => names.add(name, place)?,
            NameTold::Nothing => {}
            NameTold::Escaped => return Ok(None),
        }
    }
    Ok(Some(names))
}
