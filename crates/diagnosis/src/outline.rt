//! Where the members and the stages of a recording stand in its text, which is not read.
use crate::passing::{Passing, after_item, all_pass};
use crate::scanner::after_blanks;
use memchr::memchr_iter;

/// How many lines end in these bytes.
pub(crate) fn lines_in(bytes: &[u8]) -> usize {
    memchr_iter(b'\n', bytes).count()
}

/// Where the members of a recording stand, by their names as they are written. Of those of one name it is the last.
#[derive(Clone, Copy)]
pub(crate) struct Outline<'a> {
    text: &'a [u8],
    /// How many arrays and objects are open.
    depth: usize,
    /// The last text.
    last: &'a [u8],
    /// What comes after the colon of each member.
    form: Option<&'a [u8]>,
    wrap: Option<&'a [u8]>,
    stages: Option<&'a [u8]>,
    /// Whether there are several arrays of stages.
    has_further_stages: bool,
    /// Whether the name of a member has an escape, so that it may be another one than is written.
    has_escape: bool,
}

impl<'a> Passing<'a> for Outline<'a> {
    fn take(&mut self, text: &'a [u8]) {
        self.last = text;
    }

    fn enter(&mut self) {
        self.depth = self.depth.saturating_add(1);
    }

    fn leave(&mut self) -> bool {
        self.depth = self.depth.saturating_sub(1);
        true
    }

    fn name(&mut self, value: &'a [u8]) -> bool {
        if self.depth == 1 {
            let name = self.last;
            self.meet(name, value);
        }
        true
    }
}

impl<'a> Outline<'a> {
    /// The outline of a recording's text.
    pub(crate) fn of(text: &'a [u8]) -> Outline<'a> {
        let mut outline = Outline {
            text,
            depth: 0,
            last: b"",
            form: None,
            wrap: None,
            stages: None,
            has_further_stages: false,
            has_escape: false,
        };
        all_pass(text, &mut outline);
        outline
    }

    /// Meets a member of the recording.
    fn meet(&mut self, name: &[u8], value: &'a [u8]) {
        match name {
            b"form" => self.form = Some(value),
            b"wrap" => self.wrap = Some(value),
            b"stages" => {
                self.has_further_stages |= self.stages.is_some();
                self.stages = Some(value);
            }
            _ => self.has_escape |= name.contains(&b'\\'),
        }
    }

    /// Whether each member of the recording is the one that its name is written as.
    pub(crate) fn is_plain(self) -> bool {
        !self.has_escape
    }

    /// Whether the stages stand once, so that the lines of theirs are known.
    pub(crate) fn has_stages_once(self) -> bool {
        self.stages.is_some() && !self.has_further_stages
    }

    /// Whether the recording has an array of stages.
    pub(crate) fn has_array_of_stages(self) -> bool {
        match self.stages {
            Some(value) => after_blanks(value).starts_with(b"["),
            None => false,
        }
    }

    /// The text of the form.
    pub(crate) fn form(self) -> Option<&'a [u8]> {
        let value = after_blanks(self.form?);
        let length = value.len().saturating_sub(after_item(value).len());
        value.get(..length)
    }

    /// The texts of the stages, one after the other.
    pub(crate) fn stages(self) -> StageTexts<'a> {
        let rest = match self.stages {
            Some(value) => match after_blanks(value) {
                [b'[', rest @ ..] => rest,
                _ => &[],
            },
            None => &[],
        };
        StageTexts {
            text: self.text,
            rest,
            line: 1,
            counted: 0,
        }
    }

    /// The line, from 1, of the member of a name, where the recording has one.
    pub(crate) fn line_of(self, name: &str) -> Option<usize> {
        let value = match name {
            "form" => self.form?,
            "wrap" => self.wrap?,
            "stages" => self.stages?,
            _ => return None,
        };
        let before = self
            .text
            .get(..self.text.len().saturating_sub(value.len()))?;
        // (the name stands before the colon and the blanks at it)
        let is_of_name = |byte: &u8| !matches!(*byte, b' ' | b'\t' | b'\n' | b'\r' | b':');
        let behind = before.iter().rev().position(is_of_name)?;
        let name = before.get(..before.len().saturating_sub(behind))?;
        Some(lines_in(name).saturating_add(1))
    }
}

/// The text of a stage.
#[derive(Clone, Copy)]
pub(crate) struct StageText<'a> {
    pub text: &'a [u8],
    /// How many bytes of the recording stand before it.
    pub offset: usize,
}

/// The texts of stages, one after the other.
#[derive(Clone, Copy)]
pub(crate) struct StageTexts<'a> {
    /// The text of the recording.
    text: &'a [u8],
    /// What is still to be gone past.
    rest: &'a [u8],
    /// The line at which the bytes that were counted end.
    line: usize,
    /// In how many bytes the lines were counted.
    counted: usize,
}

impl<'a> StageTexts<'a> {
    /// The next one.
    pub(crate) fn next(&mut self) -> Option<StageText<'a>> {
        let item = after_blanks(self.rest);
        if let [] | [b']', ..] = item {
            self.rest = &[];
            return None;
        }
        let behind = after_item(item);
        self.rest = match after_blanks(behind) {
            [b',', rest @ ..] => rest,
            _ => &[],
        };
        Some(StageText {
            text: item.get(..item.len().saturating_sub(behind.len()))?,
            offset: self.text.len().saturating_sub(item.len()),
        })
    }

    /// The line, from 1, on which the text of a stage begins that is not before those which were asked for earlier.
    pub(crate) fn line_of(&mut self, stage: StageText<'a>) -> usize {
        let passed = self.text.get(self.counted..stage.offset).unwrap_or(&[]);
        self.line = self.line.saturating_add(lines_in(passed));
        self.counted = stage.offset;
        self.line
    }
}
