//! Why a recording is refused, and what nothing reads in it.
use crate::fault::Fault;
use crate::voice::Voice;
use diagnosis::{
    Glimpse, Lined, StageAt, StageFault, TraceLike, beginning_of, examine_glimpse,
    examine_recording, first_wrong_stage, glance_at, json_fault, line_of_stage, nearest_stage,
    read_again, stage_at, trace_like, with_line,
};
use json::Scratch;
use json_names::circle_of;
use json_trees::Tree;
use recording::Fault as ReadingFault;
use std::alloc::{AllocError, Global};
use std::fmt::Display;
use std::str;

/// How many warnings are told of one recording; `check` tells all.
const MOST_WARNINGS: usize = 20;

/// The number by which a wrong form is refused.
const WRONG_FORM: u32 = 71;

/// The most bytes of a recording.
const LONGEST: usize = 67_108_864;

/// Tells of members that nothing reads. Where that is to end the program it does, and where memory is out so that this
/// can't be known.
pub fn warn(alloc: Global, voice: Voice<'_>, recording: &[u8]) -> Result<(), Fault> {
    let is_asked = !voice.is_quiet() || voice.is_strict();
    if !is_asked || recording.len() > LONGEST {
        return Ok(());
    }
    match warnings_told(alloc, voice, recording) {
        Ok(warned) if warned > 0 && voice.is_strict() => Err(Fault::Strict),
        Err(_) if voice.is_strict() => Err(Fault::Memory),
        _ => Ok(()),
    }
}

/// Tells the warnings, and answers how many there are. Of most recordings there is nothing to tell, and a glance shows it.
fn warnings_told(alloc: Global, voice: Voice<'_>, recording: &[u8]) -> Result<usize, AllocError> {
    let glimpse = glance_at(alloc, recording)?;
    if let Glimpse::Nothing = glimpse {
        return Ok(0);
    }
    let mut room = Scratch::new(alloc);
    let Some(document) = read_again(alloc, recording, &mut room)? else {
        return Ok(0);
    };
    let findings = examine_glimpse(alloc, &document.root(), &glimpse)?;
    let warnings = findings.warnings();
    for warning in warnings.iter().take(MOST_WARNINGS) {
        voice.say_of_file(*warning);
    }
    let more = warnings.len().saturating_sub(MOST_WARNINGS);
    if more > 0 {
        voice.say_of_file(format_args!("warning: and {more} more, which whatif check tells"));
    }
    Ok(warnings.len())
}

/// Why a recording is refused; nothing where no more can be told, or nothing is to be.
pub(crate) fn why_refused(
    alloc: Global,
    voice: Voice<'_>,
    recording: &[u8],
    fault: &ReadingFault,
) -> Result<Option<String>, AllocError> {
    if voice.is_quiet() {
        return Ok(None);
    }
    match fault {
        ReadingFault::TooLong => told(voice, "it has more than 67108864 bytes"),
        ReadingFault::Json => why_no_json(alloc, voice, recording),
        ReadingFault::Shape(member) => why_shape(alloc, voice, recording, member.text()),
        ReadingFault::Refused(refused) => {
            let number = refused.refusal.number();
            why_at(alloc, voice, recording, number, refused.at)
        }
        ReadingFault::Cycle(places) => why_circle(alloc, voice, recording, places.as_slice()),
        ReadingFault::Memory | ReadingFault::ListSize => Ok(None),
    }
}

/// The text of what is told.
pub(crate) fn told<T: Display + Drop>(
    voice: Voice<'_>,
    what: T,
) -> Result<Option<String>, AllocError> {
    match voice.text(what) {
        Some(text) => Ok(Some(text)),
        None => Err(AllocError),
    }
}

/// Which trace a text is, if it is one.
fn trace_in(alloc: Global, text: &[u8]) -> Result<Option<TraceLike>, AllocError> {
    let mut room = Scratch::new(alloc);
    match read_again(alloc, text, &mut room)? {
        Some(document) => Ok(trace_like(&document.root())),
        None => Ok(None),
    }
}

/// Which trace bytes are, of which each line is a JSON text, if they are one.
fn trace_by_lines(alloc: Global, recording: &[u8]) -> Result<Option<TraceLike>, AllocError> {
    let Ok(text) = str::from_utf8(recording) else {
        return Ok(None);
    };
    for line in text.split('\n') {
        let bytes = line.trim().as_bytes();
        if !bytes.is_empty() {
            return trace_in(alloc, bytes);
        }
    }
    Ok(None)
}

/// Why bytes are no JSON.
fn why_no_json(
    alloc: Global,
    voice: Voice<'_>,
    recording: &[u8],
) -> Result<Option<String>, AllocError> {
    if let Some(beginning) = beginning_of(recording) {
        return told(voice, beginning);
    }
    match trace_by_lines(alloc, recording)? {
        Some(kind) => told(voice, kind),
        None => told(voice, json_fault(alloc, recording)?),
    }
}

/// Why a member has a wrong form.
fn why_shape(
    alloc: Global,
    voice: Voice<'_>,
    recording: &[u8],
    member: &str,
) -> Result<Option<String>, AllocError> {
    if let Some(stage) = first_wrong_stage(alloc, recording, member)? {
        let fault = FaultOf {
            number: WRONG_FORM,
            place: None,
            member: Some(member),
        };
        return why_stage(alloc, voice, recording, stage, fault);
    }
    let mut room = Scratch::new(alloc);
    let Some(document) = read_again(alloc, recording, &mut room)? else {
        return Ok(None);
    };
    let root = document.root();
    match trace_like(&root) {
        Some(kind) => told(voice, kind),
        None => why_in(
            alloc,
            voice,
            recording,
            &root,
            FaultOf {
                number: WRONG_FORM,
                place: None,
                member: Some(member),
            },
        ),
    }
}

/// The fault of a number, at a place.
fn why_at(
    alloc: Global,
    voice: Voice<'_>,
    recording: &[u8],
    number: u32,
    place: usize,
) -> Result<Option<String>, AllocError> {
    let fault = FaultOf {
        number,
        place: Some(place),
        member: None,
    };
    match stage_at(recording, place) {
        Some(stage) => why_stage(alloc, voice, recording, stage, fault),
        None => why_by_all(alloc, voice, recording, fault),
    }
}

/// Which fault of a recording is told: by its number, and by the place of its stage or by its member.
#[derive(Clone, Copy)]
struct FaultOf<'a> {
    number: u32,
    place: Option<usize>,
    member: Option<&'a str>,
}

/// The fault at a stage, which is read by itself where that is enough.
fn why_stage(
    alloc: Global,
    voice: Voice<'_>,
    recording: &[u8],
    stage: StageAt<'_>,
    fault: FaultOf<'_>,
) -> Result<Option<String>, AllocError> {
    let mut room = Scratch::new(alloc);
    let mut room_before = Scratch::new(alloc);
    let Some(findings) = stage.examine(alloc, fault.number, &mut room, &mut room_before)? else {
        return why_by_all(alloc, voice, recording, fault);
    };
    let Some(finding) = findings.explanation(fault.number, fault.place, fault.member) else {
        return Ok(None);
    };
    let line = stage.line_of(alloc, finding)?;
    told(voice, Lined { line, finding })
}

/// The same, for which all stages are read.
fn why_by_all(
    alloc: Global,
    voice: Voice<'_>,
    recording: &[u8],
    fault: FaultOf<'_>,
) -> Result<Option<String>, AllocError> {
    let mut room = Scratch::new(alloc);
    match read_again(alloc, recording, &mut room)? {
        Some(document) => why_in(alloc, voice, recording, &document.root(), fault),
        None => Ok(None),
    }
}

/// A fault of a recording.
fn why_in(
    alloc: Global,
    voice: Voice<'_>,
    recording: &[u8],
    value: &Tree<'_, '_>,
    fault: FaultOf<'_>,
) -> Result<Option<String>, AllocError> {
    let findings = examine_recording(alloc, value)?;
    match findings.explanation(fault.number, fault.place, fault.member) {
        Some(finding) => told(voice, with_line(alloc, recording, finding)?),
        None => Ok(None),
    }
}

/// The line of the first of several stages, where it is known.
fn line_of_first(recording: &[u8], places: &[u32]) -> Option<usize> {
    line_of_stage(recording, *places.first()? as usize)
}

/// The names of stages that wait for each other, and the line of the first of them.
fn why_circle(
    alloc: Global,
    voice: Voice<'_>,
    recording: &[u8],
    places: &[u32],
) -> Result<Option<String>, AllocError> {
    let mut room = Scratch::new(alloc);
    let Some(document) = read_again(alloc, recording, &mut room)? else {
        return Ok(None);
    };
    let Some(circle) = circle_of(alloc, &document.root(), places)? else {
        return Ok(None);
    };
    match line_of_first(recording, places) {
        Some(line) => told(voice, format_args!("line {line}: {circle}")),
        None => told(voice, circle),
    }
}

/// That no stage of a recording has the name, and which one is like it.
pub fn why_no_stage(
    alloc: Global,
    voice: Voice<'_>,
    recording: &[u8],
    name: &str,
) -> Option<String> {
    if voice.is_quiet() {
        return None;
    }
    let mut room = Scratch::new(alloc);
    let document = read_again(alloc, recording, &mut room).ok()??;
    why_no_stage_in(alloc, voice, &document.root(), name)
}

/// The same of a recording that is read.
fn why_no_stage_in(
    alloc: Global,
    voice: Voice<'_>,
    recording: &Tree<'_, '_>,
    name: &str,
) -> Option<String> {
    let near = nearest_stage(alloc, recording, name).ok()?;
    voice.text(StageFault::NoStage { name, near })
}

/// The end, with the explanation of a recording that is refused.
pub fn with_explanation(
    alloc: Global,
    voice: Voice<'_>,
    recording: &[u8],
    end: Result<(), Fault>,
) -> Result<(), Fault> {
    match end {
        Err(Fault::Refused(fault, None)) => {
            // (where memory is out nothing is told)
            let why = why_refused(alloc, voice, recording, &fault).unwrap_or(None);
            Err(Fault::Refused(fault, why))
        }
        end => end,
    }
}
