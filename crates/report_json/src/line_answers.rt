//! Answers that tell no more than a version, each as one line.
ghost use Rattle.std.specs.Prelude.{◌≡◌, ◌≢◌, ◌+◌, ◌-◌, ◌^◌, ◌<◌, IfOk, OnErr, OnOk, Some};
ghost use Rattle.std.specs.Io.KnownBytes.{Appends};
ghost use Rattle.text_io.specs.Sink.{AppendsPrefix};
ghost use Rattle.serde_json.specs.Read.{read};
ghost use Rattle.serde_json.specs.Written.{compact_text};
ghost use Rattle.report_rows.specs.Faults.{failed_writes};
ghost use Rattle.report_json.specs.Json.{answer_text, at_line, line_text};
ghost use Rattle.report_json.specs.Tokens.{Tells};
ghost use Rattle.report_json.specs.Versions.{at_version_json};

use crate::heads::push_number;
use crate::line::Line;
use crate::writing::ended;
use report_rows::ReportFault;
use std::alloc::{AllocError, Global};
use text_io::Sink;

// The reply and the version's number.
fn push_at_version(
    line: &mut Line,
    reply: &str,
    version: u32,
    number: Option<u64>,
) -> Result<(), AllocError>
    ensures { OnOk result (Tells (at_line number (at_version_json reply.now version)) line.old line.new) }
{
    line.begin_object()?;
    push_number(line, number)?;
    line.text("reply", reply)?;
    line.count("version", u64::from(version))?;
    line.end_object()
}

// The line, put together without a value of it.
fn at_version_line(
    alloc: Global,
    reply: &str,
    version: u32,
    number: Option<u64>,
) -> Result<Vec<u8>, AllocError>
    ensures line { IfOk result (λ bytes. bytes.items ≡ line_text (at_line number (at_version_json reply.now version))) }
    ensures reads_back { OnOk result (read (compact_text (at_line number (at_version_json reply.now version))) ≡ Some (at_line number (at_version_json reply.now version))) }
{
    let mut line = Line::new(alloc);
    push_at_version(&mut line, reply, version, number)?;
    ended(line)
}

/// Writes an answer that tells a version as one line, as `write_answer` does: what `reply` says of it, and its number. What was
/// written reads back as the answer.
///
/// Errors: `Write` where a write failed or took nothing; `Memory`, and then nothing is written.
pub fn write_at_version<S: Sink>(
    alloc: Global,
    reply: &str,
    version: u32,
    number: Option<u64>,
    sink: &mut S,
) -> Result<(), ReportFault>
    requires { S.failures sink.old < 2 ^ 64 - 1 }
    ensures ok { OnOk result (Appends (S.held sink.old) (S.held sink.new) (answer_text number (at_version_json reply.now version))) }
    ensures err { OnErr result (AppendsPrefix (S.held sink.old) (S.held sink.new) (answer_text number (at_version_json reply.now version))) }
    ensures found { result ≢ Err ReportFault.NoStage }
    ensures failures { S.failures sink.new ≡ S.failures sink.old + failed_writes result }
    ensures reads_back { OnOk result (read (compact_text (at_line number (at_version_json reply.now version))) ≡ Some (at_line number (at_version_json reply.now version))) }
{
    let line = at_version_line(alloc, reply, version, number)?;
    sink.write(line.as_slice())?;
    Ok(())
}
