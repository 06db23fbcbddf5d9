//! What a trace or a recording came to, counted or told.
use crate::fleet_joining::bad_summary;
use crate::fleet_night::Night;
use command_line::Fleet;
use console::{
    Fault, TraceAt, Voice, left_out, left_out_recording, left_out_without_reply, not_tried,
};
use diagnosis::Quoted;
use fleet_replies::{Found, NotTried, Question, RecordedReply, Reply, TraceReply};
use std::alloc::{AllocError, Global};
use trace_import::ImportFault;

/// How many traces or recordings are counted at once, so that what they came to is not all held.
pub(crate) const MOST_COUNTED: usize = 1_024;

/// What counts the traces of a fleet: where it is told of, what is asked of replies, with what threads are started, and what the command
/// line says of the fleet.
#[derive(Clone, Copy)]
pub(crate) struct Counter<'a, H> {
    pub(crate) voice: Voice<'a>,
    pub(crate) question: Question<'a>,
    pub(crate) threads: &'a H,
    pub(crate) fleet: &'a Fleet<'a>,
}

impl<'a, H: Copy> Counter<'a, H> {
    /// That a change is not made to the spans of a trace.
    fn refused(self, at: TraceAt<'_>, not_made: NotTried) -> Fault {
        let NotTried { number, fault } = not_made;
        let word = match self.fleet.tries.get(number) {
            Some(word) => *word,
            None => "",
        };
        not_tried(self.voice, at, word, fault)
    }
}

/// That a trace has ticks of another unit than those that were counted before it.
fn of_other_unit(
    alloc: Global,
    voice: Voice<'_>,
    at: TraceAt<'_>,
    unit: &str,
) -> Result<Fault, AllocError> {
    if unit.is_empty() {
        let why = "its ticks have no unit, and those that were counted before them have one";
        return bad_summary(alloc, voice, at, why);
    }
    let unit = Quoted(unit);
    let why = "those that were counted before them";
    bad_summary(
        alloc,
        voice,
        at,
        format_args!("its ticks have the unit {unit}, and {why} have not"),
    )
}

/// Counts what a trace came to in ticks of a unit.
fn count(
    alloc: Global,
    voice: Voice<'_>,
    at: TraceAt<'_>,
    unit: &str,
    found: &Found,
    night: &mut Night,
) -> Result<(), Fault> {
    if !night.takes(alloc, unit)? {
        return Err(of_other_unit(alloc, voice, at, unit)?);
    }
    night.add(alloc, found)?;
    Ok(())
}

/// Leaves a trace out that has no reply, which is told.
fn leave_out_without_reply<H: Copy>(
    counter: Counter<'_, H>,
    at: TraceAt<'_>,
    night: &mut Night,
) -> Result<(), Fault> {
    night.leave_out();
    left_out_without_reply(counter.voice, at, counter.question.reply)
}

/// Counts what came of a reply in ticks of a unit, or tells why it is not counted.
fn count_reply<H: Copy>(
    alloc: Global,
    counter: Counter<'_, H>,
    at: TraceAt<'_>,
    unit: &str,
    reply: Reply,
    night: &mut Night,
) -> Result<(), Fault> {
    match reply {
        Reply::Found(found) => count(alloc, counter.voice, at, unit, &found, night),
        Reply::NotTried(not_made) => Err(counter.refused(at, not_made)),
        Reply::Missing => leave_out_without_reply(counter, at, night),
    }
}

/// Leaves a trace out that makes no recording, which is told.
fn leave_out_not_imported<H: Copy>(
    counter: Counter<'_, H>,
    at: TraceAt<'_>,
    fault: ImportFault,
    night: &mut Night,
) -> Result<(), Fault> {
    night.leave_out();
    left_out(counter.voice, counter.question.mapping.unit, at, fault)
}

/// Counts what a trace came to, or tells why it is not counted.
pub(crate) fn count_trace<H: Copy>(
    alloc: Global,
    counter: Counter<'_, H>,
    at: TraceAt<'_>,
    reply: TraceReply,
    night: &mut Night,
) -> Result<(), Fault> {
    let unit = counter.question.mapping.unit;
    match reply {
        TraceReply::Replied(reply) => count_reply(alloc, counter, at, unit.text(), reply, night),
        TraceReply::NoSpan => leave_out_without_reply(counter, at, night),
        TraceReply::NotImported(fault) => leave_out_not_imported(counter, at, fault, night),
        // (no recording of a trace is refused but for its length)
        TraceReply::Refused(_) => leave_out_not_imported(counter, at, ImportFault::TooLong, night),
    }
}

/// Counts what a recording came to, or tells why it is not counted.
pub(crate) fn count_recording<H: Copy>(
    alloc: Global,
    counter: Counter<'_, H>,
    at: TraceAt<'_>,
    recording: &[u8],
    reply: RecordedReply,
    night: &mut Night,
) -> Result<(), Fault> {
    match reply {
        RecordedReply::Replied(reply, unit) => {
            count_reply(alloc, counter, at, unit.as_str(), reply, night)
        }
        RecordedReply::NoStage => leave_out_without_reply(counter, at, night),
        RecordedReply::Refused(fault) => {
            night.leave_out();
            left_out_recording(alloc, counter.voice, at, recording, fault)
        }
    }
}
