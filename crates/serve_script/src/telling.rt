//! What is told of an event or of a line, in the form that is asked for.
ghost use Rattle.std.specs.Prelude.{◌≡◌, ◌≤◌, ◌+◌, ◌-◌, ◌^◌, ◌<◌, false, option_copied, OnOk, OnErr};
ghost use Rattle.std.specs.Io.KnownBytes.{Appends};
ghost use Rattle.serde_json.specs.Data.{depth};
ghost use Rattle.serde_json.specs.Read.{max_depth};
ghost use Rattle.serde_json.specs.View.{view};
ghost use Rattle.serde_json.specs.Written.{has_float};
ghost use Rattle.text_io.specs.Sink.{AppendsPrefix};
ghost use Rattle.report_json.specs.Json.{answer_text};
ghost use Rattle.report_json.specs.Versions.{at_version_json};
ghost use Rattle.serve_script.specs.Faults.{failed_writes};
ghost use Rattle.serve_script.specs.Told.{fault_told, no_stage_told, no_version_told, reply_told};
ghost use Rattle.serve_script.specs.Values.{reply_json};

use crate::fault::AnswerFault;
use crate::reply::{fault_line, reply_line};
use crate::values::{closed_value, fault_value, opened_value, plain_refusal, refusal_value};
use recording::Fault;
use report_form::Form;
use report_json::{write_answer, write_at_version};
use report_rows::ReportFault;
use serde_json::Value;
use session_core::{Event, Reply};
use std::alloc::Global;
use text_io::Sink;
use version_store::{StateRepresentation, Version};

/// Writes the reply to an event. `listed` says whether the edits of the event came as a list, so that a refusal tells the
/// index of its edit; `base` is the version that a commit edits.
pub fn tell_reply<R: StateRepresentation, S: Sink>(
    alloc: Global,
    base: Option<&Version<R>>,
    event: &Event,
    listed: bool,
    reply: Reply,
    form: Form,
    sink: &mut S,
) -> Result<(), AnswerFault>
    requires { S.failures sink.old < 2 ^ 64 - 1 }
    ensures ok { OnOk result (Appends (S.held sink.old) (S.held sink.new) (reply_told form (option_copied base.entry) event.now listed reply)) }
    ensures err { OnErr result (AppendsPrefix (S.held sink.old) (S.held sink.new) (reply_told form (option_copied base.entry) event.now listed reply)) }
    ensures failures { S.failures sink.new ≡ S.failures sink.old + failed_writes result }
{
    match form {
        Form::Text => {
            let line = reply_line(alloc, base, event, listed, reply)?;
            write_text(line.as_bytes(), sink)
        }
        Form::Json { line } => write_reply(alloc, base, event, listed, reply, line, sink),
    }
}

/// Writes why a line names no step.
pub fn tell_fault<S: Sink>(
    alloc: Global,
    fault: &Fault,
    form: Form,
    sink: &mut S,
) -> Result<(), AnswerFault>
    requires { S.failures sink.old < 2 ^ 64 - 1 }
    ensures ok { OnOk result (Appends (S.held sink.old) (S.held sink.new) (fault_told form fault.now)) }
    ensures err { OnErr result (AppendsPrefix (S.held sink.old) (S.held sink.new) (fault_told form fault.now)) }
    ensures failures { S.failures sink.new ≡ S.failures sink.old + failed_writes result }
{
    match form {
        Form::Text => {
            let line = fault_line(alloc, fault)?;
            write_text(line.as_bytes(), sink)
        }
        Form::Json { line } => {
            let answer = fault_value(alloc, fault)?;
            write_value(alloc, answer, line, sink)
        }
    }
}

/// Writes that there is no version of a number.
pub fn tell_no_version<S: Sink>(alloc: Global, form: Form, sink: &mut S) -> Result<(), AnswerFault>
    requires { S.failures sink.old < 2 ^ 64 - 1 }
    ensures ok { OnOk result (Appends (S.held sink.old) (S.held sink.new) (no_version_told form)) }
    ensures err { OnErr result (AppendsPrefix (S.held sink.old) (S.held sink.new) (no_version_told form)) }
    ensures failures { S.failures sink.new ≡ S.failures sink.old + failed_writes result }
{
    match form {
        Form::Text => write_text(b"refused 52 NoVersion\n", sink),
        Form::Json { line } => {
            let answer = plain_refusal(alloc, 52, "NoVersion")?;
            write_value(alloc, answer, line, sink)
        }
    }
}

/// Writes that there is no stage of a name.
pub(crate) fn tell_no_stage<S: Sink>(
    alloc: Global,
    form: Form,
    sink: &mut S,
) -> Result<(), AnswerFault>
    requires { S.failures sink.old < 2 ^ 64 - 1 }
    ensures ok { OnOk result (Appends (S.held sink.old) (S.held sink.new) (no_stage_told form)) }
    ensures err { OnErr result (AppendsPrefix (S.held sink.old) (S.held sink.new) (no_stage_told form)) }
    ensures failures { S.failures sink.new ≡ S.failures sink.old + failed_writes result }
{
    match form {
        Form::Text => write_text(b"refused 10 NoStage\n", sink),
        Form::Json { line } => {
            let answer = plain_refusal(alloc, 10, "NoStage")?;
            write_value(alloc, answer, line, sink)
        }
    }
}

/// Writes a text.
fn write_text<S: Sink>(text: &[u8], sink: &mut S) -> Result<(), AnswerFault>
    requires { S.failures sink.old < 2 ^ 64 - 1 }
    ensures ok { OnOk result (Appends (S.held sink.old) (S.held sink.new) text.now) }
    ensures err { OnErr result (AppendsPrefix (S.held sink.old) (S.held sink.new) text.now) }
    ensures failures { S.failures sink.new ≡ S.failures sink.old + failed_writes result }
{
    sink.write(text)?;
    Ok(())
}

/// Writes a reply that tells a version as what answers the script's line of this number. Most replies tell one, so the line is
/// put together without a value of it.
fn write_version<S: Sink>(
    alloc: Global,
    reply: &str,
    version: u32,
    line: Option<u64>,
    sink: &mut S,
) -> Result<(), AnswerFault>
    requires { S.failures sink.old < 2 ^ 64 - 1 }
    ensures ok { OnOk result (Appends (S.held sink.old) (S.held sink.new) (answer_text line (at_version_json reply.now version))) }
    ensures err { OnErr result (AppendsPrefix (S.held sink.old) (S.held sink.new) (answer_text line (at_version_json reply.now version))) }
    ensures failures { S.failures sink.new ≡ S.failures sink.old + failed_writes result }
{
    match write_at_version(alloc, reply, version, line, sink) {
        Ok(()) => Ok(()),
        Err(ReportFault::NoStage) => unreachable!(),
        Err(ReportFault::Write) => Err(AnswerFault::Write),
        Err(ReportFault::Memory) => Err(AnswerFault::Memory),
    }
}

/// Writes the reply to an event as what answers the script's line of this number.
fn write_reply<R: StateRepresentation, S: Sink>(
    alloc: Global,
    base: Option<&Version<R>>,
    event: &Event,
    listed: bool,
    reply: Reply,
    line: Option<u64>,
    sink: &mut S,
) -> Result<(), AnswerFault>
    requires { S.failures sink.old < 2 ^ 64 - 1 }
    ensures ok { OnOk result (Appends (S.held sink.old) (S.held sink.new) (answer_text line (reply_json (option_copied base.entry) event.now listed reply))) }
    ensures err { OnErr result (AppendsPrefix (S.held sink.old) (S.held sink.new) (answer_text line (reply_json (option_copied base.entry) event.now listed reply))) }
    ensures failures { S.failures sink.new ≡ S.failures sink.old + failed_writes result }
{
    match reply {
        Reply::Opened(version) => {
            let answer = opened_value(alloc, event.session(), version)?;
            write_value(alloc, answer, line, sink)
        }
        Reply::At(version) => write_version(alloc, "head", version, line, sink),
        Reply::Committed(version) => write_version(alloc, "committed", version, line, sink),
        Reply::Undone(version) => write_version(alloc, "undone", version, line, sink),
        Reply::Closed => {
            let answer = closed_value(alloc, event.session())?;
            write_value(alloc, answer, line, sink)
        }
        Reply::Refused(refusal) => {
            let answer = refusal_value(alloc, base, event, listed, refusal)?;
            write_value(alloc, answer, line, sink)
        }
        Reply::Memory => {
            let answer = plain_refusal(alloc, 90, "Memory")?;
            write_value(alloc, answer, line, sink)
        }
    }
}

/// Writes a JSON value as what answers the script's line of this number.
fn write_value<S: Sink>(
    alloc: Global,
    answer: Value,
    line: Option<u64>,
    sink: &mut S,
) -> Result<(), AnswerFault>
    requires room { S.failures sink.old < 2 ^ 64 - 1 }
    requires exact { has_float (view answer) ≡ false }
    requires shallow { depth (view answer) ≤ max_depth }
    ensures ok { OnOk result (Appends (S.held sink.old) (S.held sink.new) (answer_text line (view answer))) }
    ensures err { OnErr result (AppendsPrefix (S.held sink.old) (S.held sink.new) (answer_text line (view answer))) }
    ensures failures { S.failures sink.new ≡ S.failures sink.old + failed_writes result }
{
    match write_answer(alloc, answer, line, sink) {
        Ok(()) => Ok(()),
        Err(ReportFault::NoStage) => unreachable!(),
        Err(ReportFault::Write) => Err(AnswerFault::Write),
        Err(ReportFault::Memory) => Err(AnswerFault::Memory),
    }
}
