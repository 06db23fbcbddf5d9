//! Which report a step requests, and how it is written.
ghost use Rattle.std.specs.Prelude.{◌≡◌, ◌+◌, ◌-◌, ◌^◌, ◌<◌, option_copied, slice_get, OnOk, OnErr};
ghost use Rattle.std.specs.Option.{option_and_then};
ghost use Rattle.std.specs.Io.KnownBytes.{Appends};
ghost use Rattle.text_io.specs.Sink.{AppendsPrefix};
ghost use Rattle.stage_graph.specs.Plain.{place_named};
ghost use Rattle.report_rows.specs.Swept.{plain_sweep};
ghost use Rattle.report_form.specs.Told.{comparison_told, report_told, sweep_told};
ghost use Rattle.recording_text.specs.Faults.{failed_writes as failed_writes_of_text};
ghost use Rattle.serve_script.specs.Faults.{failed_writes};
ghost use Rattle.serve_script.specs.Answers.{against_in, compared_asked, or_no_stage, report_among, report_asked, swept_asked, told_asked, what_asked};
ghost use Rattle.serve_script.specs.Told.{recording_told};

use crate::fault::AnswerFault;
use crate::telling::{tell_no_stage, tell_no_version};
use level_pool::Runner;
use recording::Asked;
use recording_text::{TextFault, write_report_lines, write_report_object};
use report_form::{Form, tell_comparison, tell_report, tell_sweep};
use report_rows::{Comparison, ReportFault, SweepAsked, What};
use session_core::Table;
use stage_graph::Name;
use std::alloc::Global;
use text_io::Sink;
use version_store::{StateRepresentation, Version};

/// The number of the version that a report compares with.
pub fn against_in(asked: &Asked) -> Option<u32>
    ensures { result ≡ against_in asked.now }
{
    match asked {
        Asked::Changes(against) | Asked::Drift(against) => *against,
        Asked::All | Asked::One(_) | Asked::Blame(_) => None,
        Asked::Path(_) | Asked::Sweep(_) | Asked::Times | Asked::Recording => None,
    }
}

/// The version that a report compares with, if there is one of its number.
fn against_of<'a, R: StateRepresentation>(
    table: &'a Table<R>,
    asked: &Asked,
) -> Option<&'a Version<R>>
    ensures { option_copied result ≡ option_and_then (slice_get table.now.state.versions) (against_in asked.now) }
{
    match against_in(asked) {
        Some(number) => table.version(number).ok(),
        None => None,
    }
}

/// Writes the requested report, or the refusal if there is no such version or stage.
pub(crate) fn answer_report<R: StateRepresentation, W: Runner, S: Sink>(
    alloc: Global,
    table: &Table<R>,
    version: u32,
    asked: &Asked,
    runner: &W,
    form: Form,
    sink: &mut S,
) -> Result<(), AnswerFault>
    requires { S.failures sink.old < 2 ^ 64 - 1 }
    ensures ok { OnOk result (Appends (S.held sink.old) (S.held sink.new) (report_among form table.now.state.versions version asked.now)) }
    ensures err { OnErr result (AppendsPrefix (S.held sink.old) (S.held sink.new) (report_among form table.now.state.versions version asked.now)) }
    ensures failures { S.failures sink.new ≡ S.failures sink.old + failed_writes result }
{
    let against = against_of(table, asked);
    match table.version(version) {
        Ok(version) => write_asked(alloc, version, against, asked, runner, form, sink),
        Err(_) => tell_no_version(alloc, form, sink),
    }
}

/// Writes the requested report of a version; `against` is the version of the number that it compares with.
pub fn write_asked<R: StateRepresentation, W: Runner, S: Sink>(
    alloc: Global,
    version: &Version<R>,
    against: Option<&Version<R>>,
    asked: &Asked,
    runner: &W,
    form: Form,
    sink: &mut S,
) -> Result<(), AnswerFault>
    requires { S.failures sink.old < 2 ^ 64 - 1 }
    ensures ok { OnOk result (Appends (S.held sink.old) (S.held sink.new) (report_asked form version.now (option_copied against.entry) asked.now)) }
    ensures err { OnErr result (AppendsPrefix (S.held sink.old) (S.held sink.new) (report_asked form version.now (option_copied against.entry) asked.now)) }
    ensures failures { S.failures sink.new ≡ S.failures sink.old + failed_writes result }
{
    match asked {
        Asked::All | Asked::One(_) | Asked::Blame(_) | Asked::Path(_) | Asked::Times => {
            write_told(alloc, version, asked, form, sink)
        }
        Asked::Changes(None) => write_told(alloc, version, asked, form, sink),
        Asked::Drift(None) => write_told(alloc, version, asked, form, sink),
        Asked::Sweep(name) => write_sweep(alloc, version, name, runner, form, sink),
        Asked::Recording => write_recording(alloc, version, form, sink),
        Asked::Changes(Some(_)) => {
            write_comparison(alloc, version, against, Comparison::Changes, form, sink)
        }
        Asked::Drift(Some(_)) => {
            write_comparison(alloc, version, against, Comparison::Drift, form, sink)
        }
    }
}

/// Writes a report of one version, or the refusal if there is no such stage.
fn write_told<R: StateRepresentation, S: Sink>(
    alloc: Global,
    version: &Version<R>,
    asked: &Asked,
    form: Form,
    sink: &mut S,
) -> Result<(), AnswerFault>
    requires { S.failures sink.old < 2 ^ 64 - 1 }
    ensures ok { OnOk result (Appends (S.held sink.old) (S.held sink.new) (told_asked form version.now asked.now)) }
    ensures err { OnErr result (AppendsPrefix (S.held sink.old) (S.held sink.new) (told_asked form version.now asked.now)) }
    ensures failures { S.failures sink.new ≡ S.failures sink.old + failed_writes result }
{
    match what_asked(version, asked) {
        Some(what) => write_report(alloc, version, what, form, sink),
        None => tell_no_stage(alloc, form, sink),
    }
}

/// Writes the sweep of the stage of a name, or the refusal if there is no such stage.
fn write_sweep<R: StateRepresentation, W: Runner, S: Sink>(
    alloc: Global,
    version: &Version<R>,
    name: &Name,
    runner: &W,
    form: Form,
    sink: &mut S,
) -> Result<(), AnswerFault>
    requires { S.failures sink.old < 2 ^ 64 - 1 }
    ensures ok { OnOk result (Appends (S.held sink.old) (S.held sink.new) (swept_asked form version.now name.now)) }
    ensures err { OnErr result (AppendsPrefix (S.held sink.old) (S.held sink.new) (swept_asked form version.now name.now)) }
    ensures failures { S.failures sink.new ≡ S.failures sink.old + failed_writes result }
{
    match place_named(version, name) {
        Some(place) => write_sweep_at(alloc, version, place, runner, form, sink),
        None => tell_no_stage(alloc, form, sink),
    }
}

/// Writes the sweep of the stage at a place, or the refusal if there is no such stage.
fn write_sweep_at<R: StateRepresentation, W: Runner, S: Sink>(
    alloc: Global,
    version: &Version<R>,
    place: u32,
    runner: &W,
    form: Form,
    sink: &mut S,
) -> Result<(), AnswerFault>
    requires { S.failures sink.old < 2 ^ 64 - 1 }
    ensures ok { OnOk result (Appends (S.held sink.old) (S.held sink.new) (or_no_stage form (sweep_told form version.now place plain_sweep))) }
    ensures err { OnErr result (AppendsPrefix (S.held sink.old) (S.held sink.new) (or_no_stage form (sweep_told form version.now place plain_sweep))) }
    ensures failures { S.failures sink.new ≡ S.failures sink.old + failed_writes result }
{
    match tell_sweep(alloc, version, place, SweepAsked::PLAIN, runner, form, sink) {
        Ok(()) => Ok(()),
        Err(ReportFault::NoStage) => tell_no_stage(alloc, form, sink),
        Err(ReportFault::Write) => Err(AnswerFault::Write),
        Err(ReportFault::Memory) => Err(AnswerFault::Memory),
    }
}

/// Writes a comparison of a version with another one, or the refusal if there is no such other version.
fn write_comparison<R: StateRepresentation, S: Sink>(
    alloc: Global,
    version: &Version<R>,
    against: Option<&Version<R>>,
    comparison: Comparison,
    form: Form,
    sink: &mut S,
) -> Result<(), AnswerFault>
    requires { S.failures sink.old < 2 ^ 64 - 1 }
    ensures ok { OnOk result (Appends (S.held sink.old) (S.held sink.new) (compared_asked form comparison version.now (option_copied against.entry))) }
    ensures err { OnErr result (AppendsPrefix (S.held sink.old) (S.held sink.new) (compared_asked form comparison version.now (option_copied against.entry))) }
    ensures failures { S.failures sink.new ≡ S.failures sink.old + failed_writes result }
{
    match against {
        Some(against) => write_against(alloc, version, against, comparison, form, sink),
        None => tell_no_version(alloc, form, sink),
    }
}

fn write_against<R: StateRepresentation, S: Sink>(
    alloc: Global,
    version: &Version<R>,
    against: &Version<R>,
    comparison: Comparison,
    form: Form,
    sink: &mut S,
) -> Result<(), AnswerFault>
    requires { S.failures sink.old < 2 ^ 64 - 1 }
    ensures ok { OnOk result (Appends (S.held sink.old) (S.held sink.new) (comparison_told form comparison version.now against.now)) }
    ensures err { OnErr result (AppendsPrefix (S.held sink.old) (S.held sink.new) (comparison_told form comparison version.now against.now)) }
    ensures failures { S.failures sink.new ≡ S.failures sink.old + failed_writes result }
{
    match tell_comparison(alloc, version, against, comparison, form, sink) {
        Ok(()) => Ok(()),
        Err(ReportFault::NoStage) => unreachable!(),
        Err(ReportFault::Write) => Err(AnswerFault::Write),
        Err(ReportFault::Memory) => Err(AnswerFault::Memory),
    }
}

/// Writes a version as a recording, as lines or as a JSON object.
fn write_in_form<R: StateRepresentation, S: Sink>(
    alloc: Global,
    version: &Version<R>,
    form: Form,
    sink: &mut S,
) -> Result<(), TextFault>
    requires { S.failures sink.old < 2 ^ 64 - 1 }
    ensures ok { OnOk result (Appends (S.held sink.old) (S.held sink.new) (recording_told form version.now)) }
    ensures err { OnErr result (AppendsPrefix (S.held sink.old) (S.held sink.new) (recording_told form version.now)) }
    ensures failures { S.failures sink.new ≡ S.failures sink.old + failed_writes_of_text result }
{
    let graph = version.graph();
    let number = version.number();
    match form {
        Form::Text => write_report_lines(alloc, graph, number, sink),
        Form::Json { line } => write_report_object(alloc, graph, number, line, sink),
    }
}

/// Writes a version as a recording.
fn write_recording<R: StateRepresentation, S: Sink>(
    alloc: Global,
    version: &Version<R>,
    form: Form,
    sink: &mut S,
) -> Result<(), AnswerFault>
    requires { S.failures sink.old < 2 ^ 64 - 1 }
    ensures ok { OnOk result (Appends (S.held sink.old) (S.held sink.new) (recording_told form version.now)) }
    ensures err { OnErr result (AppendsPrefix (S.held sink.old) (S.held sink.new) (recording_told form version.now)) }
    ensures failures { S.failures sink.new ≡ S.failures sink.old + failed_writes result }
{
    match write_in_form(alloc, version, form, sink) {
        Ok(()) => Ok(()),
        Err(TextFault::Write) => Err(AnswerFault::Write),
        Err(TextFault::Memory) => Err(AnswerFault::Memory),
    }
}

/// Writes a report, or the refusal if there is no such stage.
fn write_report<R: StateRepresentation, S: Sink>(
    alloc: Global,
    version: &Version<R>,
    what: What,
    form: Form,
    sink: &mut S,
) -> Result<(), AnswerFault>
    requires { S.failures sink.old < 2 ^ 64 - 1 }
    ensures ok { OnOk result (Appends (S.held sink.old) (S.held sink.new) (or_no_stage form (report_told form version.now what))) }
    ensures err { OnErr result (AppendsPrefix (S.held sink.old) (S.held sink.new) (or_no_stage form (report_told form version.now what))) }
    ensures failures { S.failures sink.new ≡ S.failures sink.old + failed_writes result }
{
    match tell_report(alloc, version, what, form, sink) {
        Ok(()) => Ok(()),
        Err(ReportFault::NoStage) => tell_no_stage(alloc, form, sink),
        Err(ReportFault::Write) => Err(AnswerFault::Write),
        Err(ReportFault::Memory) => Err(AnswerFault::Memory),
    }
}

/// The requested report of one version; none if it is of a stage that is not there, and if it is a sweep,
/// a comparison or a recording.
fn what_asked<R: StateRepresentation>(version: &Version<R>, asked: &Asked) -> Option<What>
    ensures { result ≡ what_asked version.now.graph.places asked.now }
{
    match asked {
        Asked::All => Some(What::All),
        Asked::One(name) => Some(What::One(place_named(version, name)?)),
        Asked::Blame(name) => Some(What::Blame(place_named(version, name)?)),
        Asked::Path(name) => Some(What::Path(place_named(version, name)?)),
        Asked::Changes(None) => Some(What::Changes),
        Asked::Drift(None) => Some(What::Drift),
        Asked::Times => Some(What::Times),
        Asked::Sweep(_) | Asked::Recording | Asked::Changes(Some(_)) | Asked::Drift(Some(_)) =>
            None,
    }
}

/// The place of the stage of a name.
fn place_named<R: StateRepresentation>(version: &Version<R>, name: &Name) -> Option<u32>
    ensures { result ≡ place_named version.now.graph.places name.now }
{
    version.id_of(name.as_str()).ok()
}
