//! A glance at a recording: whether any of its members could be one that nothing reads, or one that stands more than once.
//!
//! It reads no JSON, and goes over the bytes once. Where it sees nothing, nothing is told of a recording that is taken; where it
//! sees something, the recording is read to find what: in the stages in which it saw something, or in all.
use crate::findings::Findings;
use crate::members::{KINDS_WITH_DELAY, KINDS_WITH_EXCEPTION, KINDS_WITH_VALUE};
use crate::met::{EndMet, OutcomeMet, StageMet, meet};
use crate::passing::{Passing, after_unread, split_text};
use crate::recording::{examine_recording, examine_stages};
use json_names::{is_among, is_label};
use json_trees::Tree;
use std::alloc::{AllocError, Global};

/// The depth of the members of the recording, of what stands in its stages, of a stage, of an outcome and of an end.
const OF_RECORDING: usize = 1;

const OF_STAGES: usize = 2;

const OF_STAGE: usize = 3;

const OF_OUTCOME: usize = 4;

const OF_END: usize = 5;

/// Whether a byte begins or ends a text, an array or an object, or ends the name of a member.
fn is_mark(byte: u8) -> bool {
    matches!(byte, b'"' | b':' | b'{' | b'[' | b'}' | b']')
}

/// What comes after the quote that opens the next text, if no colon and no bracket stands before it.
fn next_text(bytes: &[u8]) -> Option<&[u8]> {
    let place = bytes.iter().position(|byte| is_mark(*byte))?;
    match bytes.get(place..)? {
        [b'"', text @ ..] => Some(text),
        _ => None,
    }
}

/// The next digit, if no text, colon and bracket stands before it.
fn next_digit(bytes: &[u8]) -> Option<u8> {
    let is_last = |byte: &&u8| byte.is_ascii_digit() || is_mark(**byte);
    let byte = *bytes.iter().find(is_last)?;
    byte.is_ascii_digit().then_some(byte)
}

/// The text whose opening quote stands before these bytes.
fn text_of(from_text: &[u8]) -> &[u8] {
    match split_text(from_text) {
        Some((text, _)) => text,
        None => b"",
    }
}

/// What is seen of the members of a stage.
#[derive(Clone, Copy)]
struct SeenStage<'a> {
    /// What comes after the quote that opens the text of the operation.
    from_operation: &'a [u8],
    met: StageMet,
}

impl<'a> SeenStage<'a> {
    /// Nothing.
    fn new() -> SeenStage<'a> {
        SeenStage {
            from_operation: b"",
            met: StageMet::none(),
        }
    }

    /// Whether a stage of the operation reads all of them.
    fn is_read(self) -> bool {
        let (operation, met) = (text_of(self.from_operation), self.met);
        (!met.value || matches!(operation, b"completed"))
            && (!met.throws || matches!(operation, b"failed"))
    }

    /// Takes the name of a member, whose value comes next. The answer is whether it is read, and was not met before.
    #[inline(always)]
    fn name(&mut self, name: &[u8], value: &'a [u8]) -> bool {
        match name {
            b"name" => meet(&mut self.met.name),
            b"op" => {
                self.from_operation = next_text(value).unwrap_or(self.from_operation);
                meet(&mut self.met.op)
            }
            b"value" => meet(&mut self.met.value),
            b"throws" => meet(&mut self.met.throws),
            b"sources" => meet(&mut self.met.sources),
            b"inner" => meet(&mut self.met.inner),
            b"created" => meet(&mut self.met.created),
            b"takes" => meet(&mut self.met.takes),
            b"queued" => meet(&mut self.met.queued),
            b"runs" => meet(&mut self.met.runs),
            b"action" => meet(&mut self.met.action),
            b"pinResult" => meet(&mut self.met.pin_result),
            b"pinMoment" => meet(&mut self.met.pin_moment),
            b"ends" => meet(&mut self.met.ends),
            b"span" => true,
            _ => is_label(name),
        }
    }
}

/// What is seen of the members of an end.
#[derive(Clone, Copy)]
struct SeenEnd<'a> {
    /// What comes after the quote that opens the text of what it does.
    from_kind: &'a [u8],
    met: EndMet,
}

impl<'a> SeenEnd<'a> {
    /// Nothing.
    fn new() -> SeenEnd<'a> {
        SeenEnd {
            from_kind: b"",
            met: EndMet::none(),
        }
    }

    /// Whether an end of the kind reads all of them.
    fn is_read(self) -> bool {
        let met = self.met;
        if !met.value && !met.throws && !met.delay {
            return true;
        }
        let kind = str::from_utf8(text_of(self.from_kind)).unwrap_or("");
        (!met.value || is_among(kind, KINDS_WITH_VALUE))
            && (!met.throws || is_among(kind, KINDS_WITH_EXCEPTION))
            && (!met.delay || is_among(kind, KINDS_WITH_DELAY))
    }

    /// Takes the name of a member, as that of a stage.
    #[inline(always)]
    fn name(&mut self, name: &[u8], value: &'a [u8]) -> bool {
        match name {
            b"at" => meet(&mut self.met.at),
            b"do" => {
                self.from_kind = next_text(value).unwrap_or(self.from_kind);
                meet(&mut self.met.kind)
            }
            b"delay" => meet(&mut self.met.delay),
            b"value" => meet(&mut self.met.value),
            b"throws" => meet(&mut self.met.throws),
            _ => is_label(name),
        }
    }
}

/// What is seen of the members of the recording.
#[derive(Clone, Copy)]
struct SeenRecording {
    has_form: bool,
    has_wrap: bool,
    has_stages: bool,
    is_form_two: bool,
}

impl SeenRecording {
    /// Takes the name of a member, as that of a stage.
    fn name(&mut self, name: &[u8], value: &[u8]) -> bool {
        match name {
            b"form" => {
                if let Some(digit) = next_digit(value) {
                    self.is_form_two = digit == b'2';
                }
                meet(&mut self.has_form)
            }
            b"wrap" => meet(&mut self.has_wrap),
            b"stages" => meet(&mut self.has_stages),
            // (these are labels, which an imported recording has)
            b"trace" | b"unit" | b"start" => true,
            _ => is_label(name),
        }
    }
}

/// Where a glance is.
#[derive(Clone, Copy)]
struct Glance<'a> {
    /// How many arrays and objects are open.
    depth: usize,
    /// The last text.
    text: &'a [u8],
    recording: SeenRecording,
    stage: SeenStage<'a>,
    outcome: OutcomeMet,
    end: SeenEnd<'a>,
    /// Whether a stage has times of form 2.
    has_times_of_form_two: bool,
    /// Whether it is in the recording's stages.
    is_in_stages: bool,
    /// How many arrays and objects stood among these so far, with the one in which it is.
    count: usize,
    /// Whether what it saw last is of a stage, and not of the recording as a whole.
    is_of_stage: bool,
}

impl Glance<'_> {
    /// Whether something is read, or stands where nothing is told of it: in a member of the recording that has no stages.
    #[inline(always)]
    fn passes(&mut self, is_read: bool) -> bool {
        self.is_of_stage = self.is_in_stages;
        is_read || !self.is_in_stages
    }
}

impl<'a> Passing<'a> for Glance<'a> {
    fn take(&mut self, text: &'a [u8]) {
        self.text = text;
    }

    fn enter(&mut self) {
        self.depth = self.depth.saturating_add(1);
        if self.depth == OF_STAGE && self.is_in_stages {
            self.count = self.count.saturating_add(1);
        }
    }

    fn leave(&mut self) -> bool {
        let depth = self.depth;
        self.depth = depth.saturating_sub(1);
        match depth {
            OF_STAGE => {
                let stage = self.stage;
                self.has_times_of_form_two |= stage.met.queued || stage.met.runs;
                self.stage = SeenStage::new();
                self.passes(stage.is_read())
            }
            OF_OUTCOME => {
                self.outcome = OutcomeMet::none();
                true
            }
            OF_END => {
                let end = self.end;
                self.end = SeenEnd::new();
                self.passes(end.is_read())
            }
            _ => true,
        }
    }

    fn name(&mut self, value: &'a [u8]) -> bool {
        let is_read = match self.depth {
            OF_RECORDING => {
                self.is_in_stages = matches!(self.text, b"stages");
                self.is_of_stage = false;
                return self.recording.name(self.text, value);
            }
            OF_STAGE => self.stage.name(self.text, value),
            OF_OUTCOME => self.outcome.name(self.text),
            OF_END => self.end.name(self.text, value),
            // (the members of what stands in place of the array of stages)
            0 | OF_STAGES => {
                self.is_of_stage = false;
                return !self.is_in_stages;
            }
            _ => false,
        };
        let passes = self.passes(is_read);
        // (with an escape it may be a time of form 2, of which the whole recording is told)
        if !passes && self.text.contains(&b'\\') {
            self.is_of_stage = false;
        }
        passes
    }
}

/// What a glance at a recording saw.
#[derive(Drop)]
pub enum Glimpse {
    /// Nothing.
    Nothing,
    /// Something in some of its stages alone: in those that are objects or arrays and have these numbers among these, from 0.
    InStages(Vec<usize>),
    /// Something of the recording as a whole.
    InAll,
}

/// Keeps the number of the stage in which something was seen, if it is not the last one.
fn keep(numbers: &mut Vec<usize>, number: usize) -> Result<(), AllocError> {
    if numbers.as_slice().last() != Some(&number) {
        numbers.push(number)?;
    }
    Ok(())
}

/// A look for members of a recording that nothing reads, and for those that stand more than once.
#[inline(never)]
pub fn glance_at(alloc: Global, recording: &[u8]) -> Result<Glimpse, AllocError> {
    let mut glance = Glance {
        depth: 0,
        text: b"",
        recording: SeenRecording {
            has_form: false,
            has_wrap: false,
            has_stages: false,
            is_form_two: false,
        },
        stage: SeenStage::new(),
        outcome: OutcomeMet::none(),
        end: SeenEnd::new(),
        has_times_of_form_two: false,
        is_in_stages: false,
        count: 0,
        is_of_stage: false,
    };
    let mut numbers = Vec::new(alloc);
    let mut rest = recording;
    for _ in 0..recording.len() {
        let Some(behind) = after_unread(rest, &mut glance) else {
            break;
        };
        if !glance.is_of_stage {
            return Ok(Glimpse::InAll);
        }
        keep(&mut numbers, glance.count.saturating_sub(1))?;
        rest = behind;
    }
    if glance.has_times_of_form_two && !glance.recording.is_form_two {
        return Ok(Glimpse::InAll);
    }
    Ok(if numbers.is_empty() {
        Glimpse::Nothing
    } else {
        Glimpse::InStages(numbers)
    })
}

/// What is found of a recording, as far as a glance at its text saw something: its members that nothing reads, those that stand
/// more than once, and what else is found where these stand.
pub fn examine_glimpse<'a>(
    alloc: Global,
    recording: &Tree<'_, 'a>,
    glimpse: &Glimpse,
) -> Result<Findings<'a>, AllocError> {
    match glimpse {
        Glimpse::Nothing => Ok(Findings::new(alloc)),
        Glimpse::InStages(numbers) => examine_stages(alloc, recording, numbers.as_slice()),
        Glimpse::InAll => examine_recording(alloc, recording),
    }
}
