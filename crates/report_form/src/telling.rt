//! The reports of a version in the form that is asked for.
ghost use Rattle.std.specs.Prelude.{◌≡◌, ◌≢◌, ◌↔◌, ◌+◌, ◌-◌, ◌^◌, ◌<◌, [], None, unwrap_or, OnOk, OnErr};
ghost use Rattle.std.specs.Io.KnownBytes.{Appends};
ghost use Rattle.text_io.specs.Sink.{AppendsPrefix};
ghost use Rattle.report_rows.specs.Faults.{failed_writes};
ghost use Rattle.report_form.specs.Told.{comparison_told, differences_told, report_told, rescue_told, slack_told, sweep_told};

use crate::form::Form;
use level_pool::Runner;
use propagate::StateRepresentation;
use report_json::{
    write_comparison, write_differences, write_report, write_rescue, write_slack, write_sweep,
};
use report_rows::{Comparison, ReportFault, RescueTerms, SweepAsked, What};
use report_text::{compare, report, report_differences, report_rescue, report_slack, report_sweep};
use std::alloc::Global;
use text_io::Sink;
use version_store::{StageView, Version};

/// Writes a report of a version in the form that is asked for: as `report` of `report_text` does, or as `write_report`.
///
/// Errors: `NoStage` where the report asks for a stage that is not live, and then nothing is written; `Write` where a
/// write failed or took nothing; `Memory`.
pub fn tell_report<R: StateRepresentation, S: Sink>(
    alloc: Global,
    version: &Version<R>,
    what: What,
    form: Form,
    sink: &mut S,
) -> Result<(), ReportFault>
    requires { S.failures sink.old < 2 ^ 64 - 1 }
    ensures ok { OnOk result (Appends (S.held sink.old) (S.held sink.new) (unwrap_or (report_told form version.now what) [])) }
    ensures err { OnErr result (AppendsPrefix (S.held sink.old) (S.held sink.new) (unwrap_or (report_told form version.now what) [])) }
    ensures no_stage { (result ≡ Err ReportFault.NoStage) ↔ (report_told form version.now what ≡ None) }
    ensures failures { S.failures sink.new ≡ S.failures sink.old + failed_writes result }
{
    match form {
        Form::Text => report(alloc, version, what, sink),
        Form::Json { line } => write_report(alloc, version, what, line, sink),
    }
}

/// Writes how a version stands against another one in the form that is asked for: as `compare` of `report_text` does, or as
/// `write_comparison`.
///
/// Errors: `Write` where a write failed or took nothing; `Memory`.
pub fn tell_comparison<R: StateRepresentation, S: Sink>(
    alloc: Global,
    version: &Version<R>,
    against: &Version<R>,
    comparison: Comparison,
    form: Form,
    sink: &mut S,
) -> Result<(), ReportFault>
    requires { S.failures sink.old < 2 ^ 64 - 1 }
    ensures ok { OnOk result (Appends (S.held sink.old) (S.held sink.new) (comparison_told form comparison version.now against.now)) }
    ensures err { OnErr result (AppendsPrefix (S.held sink.old) (S.held sink.new) (comparison_told form comparison version.now against.now)) }
    ensures found { result ≢ Err ReportFault.NoStage }
    ensures failures { S.failures sink.new ≡ S.failures sink.old + failed_writes result }
{
    match form {
        Form::Text => compare(alloc, version, against, comparison, sink),
        Form::Json { line } => write_comparison(alloc, version, against, comparison, line, sink),
    }
}

/// Writes which stages, if their action were so much faster, would make a stage complete sooner, in the form that is asked for:
/// as `report_sweep` of `report_text` does, or as `write_sweep`.
///
/// Errors: `NoStage` where the stage is not live, and then nothing is written; `Write` where a write failed or took
/// nothing; `Memory`.
pub fn tell_sweep<R: StateRepresentation, W: Runner, S: Sink>(
    alloc: Global,
    version: &Version<R>,
    target: u32,
    asked: SweepAsked,
    runner: &W,
    form: Form,
    sink: &mut S,
) -> Result<(), ReportFault>
    requires { S.failures sink.old < 2 ^ 64 - 1 }
    ensures ok { OnOk result (Appends (S.held sink.old) (S.held sink.new) (unwrap_or (sweep_told form version.now target asked) [])) }
    ensures err { OnErr result (AppendsPrefix (S.held sink.old) (S.held sink.new) (unwrap_or (sweep_told form version.now target asked) [])) }
    ensures no_stage { (result ≡ Err ReportFault.NoStage) ↔ (sweep_told form version.now target asked ≡ None) }
    ensures failures { S.failures sink.new ≡ S.failures sink.old + failed_writes result }
{
    match form {
        Form::Text => report_sweep(alloc, version, target, asked, runner, sink),
        Form::Json { line } => write_sweep(alloc, version, target, asked, runner, line, sink),
    }
}

/// Writes how many ticks longer the action of each stage may run before a stage completes otherwise, where `within` names ticks
/// of those alone that may run no more than these longer, in the form that is asked for: as `report_slack` of `report_text` does,
/// or as `write_slack`.
///
/// Errors: `NoStage` where the stage is not live, and then nothing is written; `Write` where a write failed or took
/// nothing; `Memory`.
pub fn tell_slack<R: StateRepresentation, W: Runner, S: Sink>(
    alloc: Global,
    version: &Version<R>,
    target: u32,
    within: Option<u64>,
    runner: &W,
    form: Form,
    sink: &mut S,
) -> Result<(), ReportFault>
    requires { S.failures sink.old < 2 ^ 64 - 1 }
    ensures ok { OnOk result (Appends (S.held sink.old) (S.held sink.new) (unwrap_or (slack_told form version.now target within) [])) }
    ensures err { OnErr result (AppendsPrefix (S.held sink.old) (S.held sink.new) (unwrap_or (slack_told form version.now target within) [])) }
    ensures no_stage { (result ≡ Err ReportFault.NoStage) ↔ (slack_told form version.now target within ≡ None) }
    ensures failures { S.failures sink.new ≡ S.failures sink.old + failed_writes result }
{
    match form {
        Form::Text => report_slack(alloc, version, target, within, runner, sink),
        Form::Json { line } => write_slack(alloc, version, target, within, runner, line, sink),
    }
}

/// Writes which single changes would have made a stage complete with a value, by the tick if the terms name one, in the form
/// that is asked for: as `report_rescue` of `report_text` does, or as `write_rescue`.
///
/// Errors: `NoStage` where the stage is not live, and then nothing is written; `Write` where a write failed or took
/// nothing; `Memory`.
pub fn tell_rescue<R: StateRepresentation, W: Runner, S: Sink>(
    alloc: Global,
    version: &Version<R>,
    target: u32,
    terms: RescueTerms,
    runner: &W,
    form: Form,
    sink: &mut S,
) -> Result<(), ReportFault>
    requires { S.failures sink.old < 2 ^ 64 - 1 }
    ensures ok { OnOk result (Appends (S.held sink.old) (S.held sink.new) (unwrap_or (rescue_told form version.now target terms) [])) }
    ensures err { OnErr result (AppendsPrefix (S.held sink.old) (S.held sink.new) (unwrap_or (rescue_told form version.now target terms) [])) }
    ensures no_stage { (result ≡ Err ReportFault.NoStage) ↔ (rescue_told form version.now target terms ≡ None) }
    ensures failures { S.failures sink.new ≡ S.failures sink.old + failed_writes result }
{
    match form {
        Form::Text => report_rescue(alloc, version, target, terms, runner, sink),
        Form::Json { line } => write_rescue(alloc, version, target, terms, runner, line, sink),
    }
}

/// Writes in which stages a good run and a bad one differ, where they are compared for a stage of each, in the form that is asked
/// for: as `report_differences` of `report_text` does, or as `write_differences`.
///
/// Errors: `Write` where a write failed or took nothing; `Memory`.
pub fn tell_differences<R: StateRepresentation, S: Sink>(
    alloc: Global,
    good: &StageView<'_, R>,
    bad: &StageView<'_, R>,
    form: Form,
    sink: &mut S,
) -> Result<(), ReportFault>
    requires { S.failures sink.old < 2 ^ 64 - 1 }
    ensures ok { OnOk result (Appends (S.held sink.old) (S.held sink.new) (differences_told form good.now.version.now.graph good.now.place bad.now.version.now.graph bad.now.place)) }
    ensures err { OnErr result (AppendsPrefix (S.held sink.old) (S.held sink.new) (differences_told form good.now.version.now.graph good.now.place bad.now.version.now.graph bad.now.place)) }
    ensures found { result ≢ Err ReportFault.NoStage }
    ensures failures { S.failures sink.new ≡ S.failures sink.old + failed_writes result }
{
    match form {
        Form::Text => report_differences(alloc, good, bad, sink),
        Form::Json { line } => write_differences(alloc, good, bad, line, sink),
    }
}
