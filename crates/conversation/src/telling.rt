//! How an answer is written.
ghost use Rattle.std.specs.Prelude.{◌≡◌};

use crate::answer::Answer;
use crate::served::Served;
use crate::setting::Setting;
use crate::versions::Versions;
use change_words::{Change, MakingFault};
use console::{Fault, flushed, why_not_made};
use level_pool::Runner;
use recording::Step;
use recording_text::{TextFault, write_recording};
use report_form::{Form, tell_report};
use report_rows::{Arisen, ReportFault, What};
use std::alloc::Global;
use std::slice;
use step_words::cut;
use text_io::{Sink, WriteFault};
use tried_changes::{last_stage, tell_trial, tried};
use version_store::{StateRepresentation, Version};

/// The end of what was written of a version.
fn told(end: Result<(), ReportFault>) -> Result<(), Fault> {
    match end {
        Ok(()) => Ok(()),
        Err(ReportFault::NoStage) => Err(Fault::NoStage(None)),
        Err(ReportFault::Write) => Err(Fault::Write(None)),
        Err(ReportFault::Memory) => Err(Fault::Memory),
    }
}

/// The end of a version that is written as a recording.
fn written(end: Result<(), TextFault>) -> Result<(), Fault> {
    match end {
        Ok(()) => Ok(()),
        Err(TextFault::Write) => Err(Fault::Write(None)),
        Err(TextFault::Memory) => Err(Fault::Memory),
    }
}

/// The end of lines.
fn put(end: Result<(), WriteFault>) -> Result<(), Fault> {
    match end {
        Ok(()) => Ok(()),
        Err(WriteFault) => Err(Fault::Write(None)),
    }
}

/// Answers a step; `text` are the words that it was said by.
fn write_step<K: StateRepresentation, W: Runner, S: Sink>(
    served: &mut Served<'_, K, W>,
    versions: &mut Versions,
    text: &str,
    step: Step,
    sink: &mut S,
) -> Result<(), Fault>
    requires { S.failures sink.old ≡ 0 }
{
    served.answer(step, sink)?;
    versions.made_by(served.last().number(), text)
}

/// Writes a report of a version.
fn write_report<K: StateRepresentation, S: Sink>(
    alloc: Global,
    version: &Version<K>,
    what: What,
    sink: &mut S,
) -> Result<(), Fault>
    requires { S.failures sink.old ≡ 0 }
{
    let end = tell_report(alloc, version, what, Form::Text, sink);
    flushed(sink, told(end))
}

/// Writes a version as a recording.
fn write_version<K: StateRepresentation, S: Sink>(
    alloc: Global,
    version: &Version<K>,
    sink: &mut S,
) -> Result<(), Fault>
    requires { S.failures sink.old ≡ 0 }
{
    let end = write_recording(alloc, version.graph(), sink);
    flushed(sink, written(end))
}

/// Writes lines.
fn write_lines<S: Sink>(lines: &str, sink: &mut S) -> Result<(), Fault>
    requires { S.failures sink.old ≡ 0 }
{
    let end = sink.write(lines.as_bytes());
    flushed(sink, put(end))
}

/// The place of the stage of which a trial tells: the one that completes last, or else the one that is changed.
fn place_of_trial<K: StateRepresentation>(version: &Version<K>, change: &Change) -> Option<u32> {
    match last_stage(version) {
        Some(place) => Some(place),
        None => version.id_of(change.name.as_str()).ok(),
    }
}

/// Writes what came of a change.
fn write_outcome<K: StateRepresentation, S: Sink>(
    alloc: Global,
    version: &Version<K>,
    before: &Version<K>,
    change: &Change,
    sink: &mut S,
) -> Result<(), Fault>
    requires { S.failures sink.old ≡ 0 }
{
    let Some(place) = place_of_trial(before, change) else {
        return Err(Fault::NoStage(None));
    };
    // (no change removes a stage)
    let Some(_) = version.stage(place) else {
        return Err(Fault::NoStage(None));
    };
    let end = tell_trial(alloc, version, before, place, Form::Text, sink);
    flushed(sink, told(end))
}

/// Tells why a change can't be made.
fn tell_not_made<W>(setting: &Setting<'_, W>, text: &str, changes: &[Change], fault: &MakingFault) {
    let (_, words) = cut(text);
    setting.voice.tell(format_args!("{fault}"));
    let why = why_not_made(
        setting.alloc,
        setting.voice,
        setting.recording,
        &[words],
        changes,
        fault,
    );
    if let Some(why) = why {
        setting.voice.say(why);
    }
}

/// Writes what would come of a change of a version, or tells why it can't be made.
fn write_trial<K: StateRepresentation, W: Runner, S: Sink>(
    setting: &Setting<'_, W>,
    before: &Version<K>,
    text: &str,
    change: Change,
    sink: &mut S,
) -> Result<(), Fault>
    requires { S.failures sink.old ≡ 0 }
{
    let changes = slice::from_ref(&change);
    match tried(setting.alloc, before, changes, setting.runner) {
        Ok(version) => write_outcome(setting.alloc, &version, before, &change, sink),
        Err(MakingFault::Memory) => Err(Fault::Memory),
        Err(fault) => {
            tell_not_made(setting, text, changes, &fault);
            Ok(())
        }
    }
}

/// Writes an answer to a text.
pub(crate) fn write_answer<K: StateRepresentation, W: Runner, S: Sink>(
    setting: &Setting<'_, W>,
    served: &mut Served<'_, K, W>,
    versions: &mut Versions,
    text: &str,
    answer: Answer,
    sink: &mut S,
) -> Result<(), Fault>
    requires { S.failures sink.old ≡ 0 }
{
    match answer {
        Answer::Step(step) => write_step(served, versions, text, step, sink),
        Answer::Trial { number, change } => {
            let before = served.version_or_last(number);
            write_trial(setting, before, text, change, sink)
        }
        Answer::Ends(number) => {
            let version = served.version_or_last(number);
            write_report(setting.alloc, version, What::Ends, sink)
        }
        Answer::Failures(number) => {
            let version = served.version_or_last(number);
            let what = What::Failures(Arisen::Anywhere);
            write_report(setting.alloc, version, what, sink)
        }
        Answer::Recording(number) => {
            let version = served.version_or_last(number);
            write_version(setting.alloc, version, sink)
        }
        Answer::Versions(standing) => {
            let lines = versions.text(setting.alloc, served, standing)?;
            write_lines(lines.as_str(), sink)
        }
    }
}
