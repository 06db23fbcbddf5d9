//! The reports of a version.
ghost use Rattle.std.specs.Prelude.{◌≡◌, ◌≢◌, ◌↔◌, ◌+◌, ◌-◌, ◌^◌, ◌<◌, [], None, unwrap_or, OnOk, OnErr};
ghost use Rattle.std.specs.Io.KnownBytes.{Appends};
ghost use Rattle.text_io.specs.Sink.{AppendsPrefix};
ghost use Rattle.report_text.specs.Reports.{comparison_text, differences_text, failed_writes, rescue_report, slack_report, sweep_report, text};

use crate::writing::write_said;
use level_pool::Runner;
use propagate::StateRepresentation;
use report_rows::{
    Comparison, ReportFault, RescueTerms, SweepAsked, What, say_comparison, say_differences,
    say_report, say_rescue, say_slack, say_sweep,
};
use std::alloc::Global;
use text_io::Sink;
use version_store::{StageView, Version};

/// Writes a report of a version, a line at a time.
///
/// Errors: `NoStage` where the report asks for a stage that is not live, and then nothing is
/// written; `Write` where a write failed or took nothing; `Memory`.
pub fn report<R: StateRepresentation, S: Sink>(
    alloc: Global,
    version: &Version<R>,
    what: What,
    sink: &mut S,
) -> Result<(), ReportFault>
    requires { S.failures sink.old < 2 ^ 64 - 1 }
    ensures ok { OnOk result (Appends (S.held sink.old) (S.held sink.new) (unwrap_or (text version.now what) [])) }
    ensures err { OnErr result (AppendsPrefix (S.held sink.old) (S.held sink.new) (unwrap_or (text version.now what) [])) }
    ensures no_stage { (result ≡ Err ReportFault.NoStage) ↔ (text version.now what ≡ None) }
    ensures failures { S.failures sink.new ≡ S.failures sink.old + failed_writes result }
{
    let said = say_report(alloc, version, what)?;
    write_said(alloc, &said, sink)?;
    Ok(())
}

/// Writes a report of how a version stands against another one, a line at a time.
///
/// Errors: `Write` where a write failed or took nothing; `Memory`.
pub fn compare<R: StateRepresentation, S: Sink>(
    alloc: Global,
    version: &Version<R>,
    against: &Version<R>,
    comparison: Comparison,
    sink: &mut S,
) -> Result<(), ReportFault>
    requires { S.failures sink.old < 2 ^ 64 - 1 }
    ensures ok { OnOk result (Appends (S.held sink.old) (S.held sink.new) (comparison_text comparison version.now against.now)) }
    ensures err { OnErr result (AppendsPrefix (S.held sink.old) (S.held sink.new) (comparison_text comparison version.now against.now)) }
    ensures found { result ≢ Err ReportFault.NoStage }
    ensures failures { S.failures sink.new ≡ S.failures sink.old + failed_writes result }
{
    let said = say_comparison(alloc, version, against, comparison)?;
    write_said(alloc, &said, sink)?;
    Ok(())
}

/// Writes which stages, if their action were so much faster, would make a stage complete sooner, a line at a time: those by
/// which it has a value before those by which it fails, of either the soonest first, and at one tick by place. The header counts
/// all of them that end as is asked for; no more than `most` lines follow it.
///
/// Errors: `NoStage` where the stage is not live, and then nothing is written; `Write` where a write failed or took
/// nothing; `Memory`.
pub fn report_sweep<R: StateRepresentation, W: Runner, S: Sink>(
    alloc: Global,
    version: &Version<R>,
    target: u32,
    asked: SweepAsked,
    runner: &W,
    sink: &mut S,
) -> Result<(), ReportFault>
    requires { S.failures sink.old < 2 ^ 64 - 1 }
    ensures ok { OnOk result (Appends (S.held sink.old) (S.held sink.new) (unwrap_or (sweep_report version.now target asked) [])) }
    ensures err { OnErr result (AppendsPrefix (S.held sink.old) (S.held sink.new) (unwrap_or (sweep_report version.now target asked) [])) }
    ensures no_stage { (result ≡ Err ReportFault.NoStage) ↔ (sweep_report version.now target asked ≡ None) }
    ensures failures { S.failures sink.new ≡ S.failures sink.old + failed_writes result }
{
    let said = say_sweep(alloc, version, target, asked, runner)?;
    write_said(alloc, &said, sink)?;
    Ok(())
}

/// Writes how many ticks longer the action of each stage may run before a stage completes otherwise, where `within` names ticks
/// of those alone that may run no more than these longer, a line at a time: the least first, and of several that are the same by
/// place.
///
/// Errors: `NoStage` where the stage is not live, and then nothing is written; `Write` where a write failed or took
/// nothing; `Memory`.
pub fn report_slack<R: StateRepresentation, W: Runner, S: Sink>(
    alloc: Global,
    version: &Version<R>,
    target: u32,
    within: Option<u64>,
    runner: &W,
    sink: &mut S,
) -> Result<(), ReportFault>
    requires { S.failures sink.old < 2 ^ 64 - 1 }
    ensures ok { OnOk result (Appends (S.held sink.old) (S.held sink.new) (unwrap_or (slack_report version.now target within) [])) }
    ensures err { OnErr result (AppendsPrefix (S.held sink.old) (S.held sink.new) (unwrap_or (slack_report version.now target within) [])) }
    ensures no_stage { (result ≡ Err ReportFault.NoStage) ↔ (slack_report version.now target within ≡ None) }
    ensures failures { S.failures sink.new ≡ S.failures sink.old + failed_writes result }
{
    let said = say_slack(alloc, version, target, within, runner)?;
    write_said(alloc, &said, sink)?;
    Ok(())
}

/// Writes which single changes would have made a stage complete with a value, by the tick if the terms name one, a line at a
/// time: the soonest first, and at one tick by place. All are counted; no more than the terms say have a line.
///
/// Errors: `NoStage` where the stage is not live, and then nothing is written; `Write` where a write failed or took
/// nothing; `Memory`.
pub fn report_rescue<R: StateRepresentation, W: Runner, S: Sink>(
    alloc: Global,
    version: &Version<R>,
    target: u32,
    terms: RescueTerms,
    runner: &W,
    sink: &mut S,
) -> Result<(), ReportFault>
    requires { S.failures sink.old < 2 ^ 64 - 1 }
    ensures ok { OnOk result (Appends (S.held sink.old) (S.held sink.new) (unwrap_or (rescue_report version.now target terms) [])) }
    ensures err { OnErr result (AppendsPrefix (S.held sink.old) (S.held sink.new) (unwrap_or (rescue_report version.now target terms) [])) }
    ensures no_stage { (result ≡ Err ReportFault.NoStage) ↔ (rescue_report version.now target terms ≡ None) }
    ensures failures { S.failures sink.new ≡ S.failures sink.old + failed_writes result }
{
    let said = say_rescue(alloc, version, target, terms, runner)?;
    write_said(alloc, &said, sink)?;
    Ok(())
}

/// Writes in which stages a good run and a bad one differ, where they are compared for a stage of each, a line at a time: as
/// `say_differences` says it.
///
/// Errors: `Write` where a write failed or took nothing; `Memory`.
pub fn report_differences<R: StateRepresentation, S: Sink>(
    alloc: Global,
    good: &StageView<'_, R>,
    bad: &StageView<'_, R>,
    sink: &mut S,
) -> Result<(), ReportFault>
    requires { S.failures sink.old < 2 ^ 64 - 1 }
    ensures ok { OnOk result (Appends (S.held sink.old) (S.held sink.new) (differences_text good.now.version.now.graph good.now.place bad.now.version.now.graph bad.now.place)) }
    ensures err { OnErr result (AppendsPrefix (S.held sink.old) (S.held sink.new) (differences_text good.now.version.now.graph good.now.place bad.now.version.now.graph bad.now.place)) }
    ensures found { result ≢ Err ReportFault.NoStage }
    ensures failures { S.failures sink.new ≡ S.failures sink.old + failed_writes result }
{
    let said = say_differences(alloc, good, bad)?;
    write_said(alloc, &said, sink)?;
    Ok(())
}
