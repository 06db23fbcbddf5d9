//! What is told of a version, in memory.
ghost use Rattle.std.specs.Prelude.{◌≡◌, IfOk};
ghost use Rattle.std.specs.Str.Lossy.{utf8_lossy};
ghost use Rattle.stage_graph.specs.Plain.{IsLive};
ghost use Rattle.recording_reports.specs.Reported.{what_of};
ghost use Rattle.incident_page.specs.Data.{changes_line, stage_lines, text_json, whole_line};

use json::{Token, Writer};
use level_pool::Runner;
use recording_reports::{StageReport, WholeReport, tell_stage};
use report_form::{Form, tell_report};
use report_rows::{Arisen, ReportFault, What};
use std::alloc::{AllocError, Global};
use text_io::CountedWriter;
use version_store::{StateRepresentation, Version};

/// A text as JSON.
pub(crate) fn text_json(alloc: Global, text: &str) -> Result<Vec<u8>, AllocError>
    ensures { IfOk result (λ json. json.items ≡ text_json text.now) }
{
    let mut writer = Writer::new(Vec::new(alloc));
    writer.token(Token::String(text))?;
    Ok(writer.into_inner())
}

/// Bytes as JSON; where they are no UTF-8, U+FFFD stands for them.
pub(crate) fn lossy_json(alloc: Global, text: &[u8]) -> Result<Vec<u8>, AllocError>
    ensures { IfOk result (λ json. json.items ≡ text_json (utf8_lossy text.now)) }
{
    let text = String::from_utf8_lossy(alloc, text)?;
    text_json(alloc, text.as_str())
}

/// Which report of a version is asked for.
fn what_of(asked: WholeReport) -> What
    ensures { result ≡ what_of asked }
{
    match asked {
        WholeReport::All => What::All,
        WholeReport::Ends => What::Ends,
        WholeReport::Failures => What::Failures(Arisen::Anywhere),
    }
}

/// What is told of all stages: the line that is one JSON object.
pub(crate) fn whole_line<R: StateRepresentation>(
    alloc: Global,
    version: &Version<R>,
    asked: WholeReport,
) -> Result<Vec<u8>, AllocError>
    ensures { IfOk result (λ line. line.items ≡ whole_line version.now asked) }
{
    let mut sink = CountedWriter::new(Vec::new(alloc));
    let form = Form::Json { line: None };
    match tell_report(alloc, version, what_of(asked), form, &mut sink) {
        Ok(()) => Ok(sink.into_inner()),
        Err(_) => Err(AllocError),
    }
}

/// What is told of a version beside its parent: the line that is one JSON object.
pub(crate) fn changes_line<R: StateRepresentation>(
    alloc: Global,
    version: &Version<R>,
) -> Result<Vec<u8>, AllocError>
    ensures { IfOk result (λ line. line.items ≡ changes_line version.now) }
{
    let mut sink = CountedWriter::new(Vec::new(alloc));
    let form = Form::Json { line: None };
    match tell_report(alloc, version, What::Changes, form, &mut sink) {
        Ok(()) => Ok(sink.into_inner()),
        Err(_) => Err(AllocError),
    }
}

/// What is told of the stage at a place: lines, each of which is one JSON object.
pub(crate) fn stage_lines<R: StateRepresentation, W: Runner>(
    alloc: Global,
    version: &Version<R>,
    place: u32,
    asked: StageReport,
    runner: &W,
) -> Result<Vec<u8>, AllocError>
    requires { IsLive version.now.graph.places place }
    ensures { IfOk result (λ lines. lines.items ≡ stage_lines version.now place asked) }
{
    let mut sink = CountedWriter::new(Vec::new(alloc));
    let form = Form::Json { line: None };
    match tell_stage(alloc, version, place, asked, runner, form, &mut sink) {
        Ok(()) => Ok(sink.into_inner()),
        Err(ReportFault::NoStage) => unreachable!(),
        Err(ReportFault::Write) => Err(AllocError),
        Err(ReportFault::Memory) => Err(AllocError),
    }
}
