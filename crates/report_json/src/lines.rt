//! Values, each written as one line.
ghost use Rattle.std.specs.Prelude.{◌≡◌, ◌≢◌, ◌≤◌, ◌+◌, ◌-◌, ◌^◌, ◌<◌, IfOk, OnErr, OnOk, Some, false, string_bytes};
ghost use Rattle.std.specs.Io.KnownBytes.{Appends};
ghost use Rattle.text_io.specs.Sink.{AppendsPrefix};
ghost use Rattle.serde_json.specs.Data.{depth};
ghost use Rattle.serde_json.specs.Read.{max_depth, read};
ghost use Rattle.serde_json.specs.View.{view};
ghost use Rattle.serde_json.specs.Written.{compact_text, has_float};
ghost use Rattle.report_rows.specs.Faults.{failed_writes};
ghost use Rattle.report_json.specs.Json.{at_line, line_text};

use crate::object::Object;
use report_rows::ReportFault;
use serde_json::Value;
use std::alloc::{AllocError, Global};
use text_io::Sink;

// The answer, with the number of the line that it answers as a member, if it is an object.
fn numbered(alloc: Global, answer: Value, line: u64) -> Result<Value, AllocError>
    ensures { IfOk result (λ numbered. view numbered ≡ at_line (Some line) (view answer)) }
{
    match answer {
        Value::Object(members) => {
            let mut object = Object::of(alloc, members);
            object.count("line", line)?;
            Ok(object.into_value())
        }
        answer => Ok(answer),
    }
}

// The same, where it answers a line.
fn at_line(alloc: Global, answer: Value, line: Option<u64>) -> Result<Value, AllocError>
    ensures { IfOk result (λ numbered. view numbered ≡ at_line line (view answer)) }
{
    match line {
        Some(line) => numbered(alloc, answer, line),
        None => Ok(answer),
    }
}

// The line of a value.
fn line_of(alloc: Global, value: &Value) -> Result<String, AllocError>
    requires exact { has_float (view value.now) ≡ false }
    requires shallow { depth (view value.now) ≤ max_depth }
    ensures line { IfOk result (λ text. string_bytes text ≡ line_text (view value.now)) }
    ensures reads_back { OnOk result (read (compact_text (view value.now)) ≡ Some (view value.now)) }
{
    let mut text = value.to_string(alloc)?;
    text.push_str("\n")?;
    Ok(text)
}

/// Writes a JSON object as one line, with no space in it, and the end of the line. `line` is the number of the script's line
/// that it answers, which becomes a member of it; None where there is no script. What was written reads back as the object.
///
/// Errors: `Write` where a write failed or took nothing; `Memory`, and then nothing is written.
pub fn write_answer<S: Sink>(
    alloc: Global,
    answer: Value,
    line: Option<u64>,
    sink: &mut S,
) -> Result<(), ReportFault>
    requires room { S.failures sink.old < 2 ^ 64 - 1 }
    requires exact { has_float (view answer) ≡ false }
    requires shallow { depth (view answer) ≤ max_depth }
    ensures ok { OnOk result (Appends (S.held sink.old) (S.held sink.new) (line_text (at_line line (view answer)))) }
    ensures err { OnErr result (AppendsPrefix (S.held sink.old) (S.held sink.new) (line_text (at_line line (view answer)))) }
    ensures found { result ≢ Err ReportFault.NoStage }
    ensures failures { S.failures sink.new ≡ S.failures sink.old + failed_writes result }
    ensures reads_back { OnOk result (read (compact_text (at_line line (view answer))) ≡ Some (at_line line (view answer))) }
{
    let numbered = at_line(alloc, answer, line)?;
    let text = line_of(alloc, &numbered)?;
    sink.write(text.as_bytes())?;
    Ok(())
}
