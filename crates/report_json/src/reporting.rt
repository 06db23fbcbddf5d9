//! The reports of a version, each written as one line.
ghost use Rattle.std.specs.Prelude.{◌≡◌, ◌≢◌, ◌↔◌, ◌+◌, ◌-◌, ◌^◌, ◌<◌, IfSome, None, OnErr, OnOk, Some};
ghost use Rattle.std.specs.Io.KnownBytes.{Appends};
ghost use Rattle.text_io.specs.Sink.{AppendsPrefix};
ghost use Rattle.serde_json.specs.Read.{read};
ghost use Rattle.serde_json.specs.Written.{compact_text};
ghost use Rattle.report_rows.specs.Faults.{failed_writes};
ghost use Rattle.report_json.specs.Json.{at_line, line_text, told};
ghost use Rattle.report_json.specs.Reports.{comparison_json, differences_json, report_json, rescue_json, slack_json, sweep_json};

use crate::writing::write_said;
use level_pool::Runner;
use propagate::StateRepresentation;
use report_rows::{
    Comparison, ReportFault, RescueTerms, SweepAsked, What, say_comparison, say_differences,
    say_report, say_rescue, say_slack, say_sweep,
};
use std::alloc::Global;
use text_io::Sink;
use version_store::{StageView, Version};

/// Writes a report of a version as one line, as `write_answer` does. What was written reads back as the report.
///
/// Errors: `NoStage` where the report asks for a stage that is not live, and then nothing is written; `Write` where a
/// write failed or took nothing; `Memory`, and then nothing is written.
pub fn write_report<R: StateRepresentation, S: Sink>(
    alloc: Global,
    version: &Version<R>,
    what: What,
    line: Option<u64>,
    sink: &mut S,
) -> Result<(), ReportFault>
    requires { S.failures sink.old < 2 ^ 64 - 1 }
    ensures ok { OnOk result (Appends (S.held sink.old) (S.held sink.new) (told line (report_json version.now what))) }
    ensures err { OnErr result (AppendsPrefix (S.held sink.old) (S.held sink.new) (told line (report_json version.now what))) }
    ensures no_stage { (result ≡ Err ReportFault.NoStage) ↔ (report_json version.now what ≡ None) }
    ensures failures { S.failures sink.new ≡ S.failures sink.old + failed_writes result }
    ensures reads_back { OnOk result (IfSome (report_json version.now what) (λ report. read (compact_text (at_line line report)) ≡ Some (at_line line report))) }
{
    let said = say_report(alloc, version, what)?;
    write_said(alloc, &said, line, sink)?;
    Ok(())
}

/// Writes how a version stands against another one, stage by stage of the same name, as one line, as `write_answer` does.
/// What was written reads back as the comparison.
///
/// Errors: `Write` where a write failed or took nothing; `Memory`, and then nothing is written.
pub fn write_comparison<R: StateRepresentation, S: Sink>(
    alloc: Global,
    version: &Version<R>,
    against: &Version<R>,
    comparison: Comparison,
    line: Option<u64>,
    sink: &mut S,
) -> Result<(), ReportFault>
    requires { S.failures sink.old < 2 ^ 64 - 1 }
    ensures ok { OnOk result (Appends (S.held sink.old) (S.held sink.new) (line_text (at_line line (comparison_json comparison version.now against.now)))) }
    ensures err { OnErr result (AppendsPrefix (S.held sink.old) (S.held sink.new) (line_text (at_line line (comparison_json comparison version.now against.now)))) }
    ensures found { result ≢ Err ReportFault.NoStage }
    ensures failures { S.failures sink.new ≡ S.failures sink.old + failed_writes result }
    ensures reads_back { OnOk result (read (compact_text (at_line line (comparison_json comparison version.now against.now)))
        ≡ Some (at_line line (comparison_json comparison version.now against.now))) }
{
    let said = say_comparison(alloc, version, against, comparison)?;
    write_said(alloc, &said, line, sink)?;
    Ok(())
}

/// Writes which stages, if their action were so much faster, would make a stage complete sooner, as one line, as `write_answer`
/// does. What was written reads back as the sweep.
///
/// Errors: `NoStage` where the stage is not live, and then nothing is written; `Write` where a write failed or took
/// nothing; `Memory`, and then nothing is written.
pub fn write_sweep<R: StateRepresentation, W: Runner, S: Sink>(
    alloc: Global,
    version: &Version<R>,
    target: u32,
    asked: SweepAsked,
    runner: &W,
    line: Option<u64>,
    sink: &mut S,
) -> Result<(), ReportFault>
    requires { S.failures sink.old < 2 ^ 64 - 1 }
    ensures ok { OnOk result (Appends (S.held sink.old) (S.held sink.new) (told line (sweep_json version.now target asked))) }
    ensures err { OnErr result (AppendsPrefix (S.held sink.old) (S.held sink.new) (told line (sweep_json version.now target asked))) }
    ensures no_stage { (result ≡ Err ReportFault.NoStage) ↔ (sweep_json version.now target asked ≡ None) }
    ensures failures { S.failures sink.new ≡ S.failures sink.old + failed_writes result }
    ensures reads_back { OnOk result (IfSome (sweep_json version.now target asked) (λ report. read (compact_text (at_line line report)) ≡ Some (at_line line report))) }
{
    let said = say_sweep(alloc, version, target, asked, runner)?;
    write_said(alloc, &said, line, sink)?;
    Ok(())
}

/// Writes how many ticks longer the action of each stage may run before a stage completes otherwise, where `within` names ticks
/// of those alone that may run no more than these longer, as one line, as `write_answer` does. What was written reads back as
/// the report.
///
/// Errors: `NoStage` where the stage is not live, and then nothing is written; `Write` where a write failed or took
/// nothing; `Memory`, and then nothing is written.
pub fn write_slack<R: StateRepresentation, W: Runner, S: Sink>(
    alloc: Global,
    version: &Version<R>,
    target: u32,
    within: Option<u64>,
    runner: &W,
    line: Option<u64>,
    sink: &mut S,
) -> Result<(), ReportFault>
    requires { S.failures sink.old < 2 ^ 64 - 1 }
    ensures ok { OnOk result (Appends (S.held sink.old) (S.held sink.new) (told line (slack_json version.now target within))) }
    ensures err { OnErr result (AppendsPrefix (S.held sink.old) (S.held sink.new) (told line (slack_json version.now target within))) }
    ensures no_stage { (result ≡ Err ReportFault.NoStage) ↔ (slack_json version.now target within ≡ None) }
    ensures failures { S.failures sink.new ≡ S.failures sink.old + failed_writes result }
    ensures reads_back { OnOk result (IfSome (slack_json version.now target within) (λ report. read (compact_text (at_line line report)) ≡ Some (at_line line report))) }
{
    let said = say_slack(alloc, version, target, within, runner)?;
    write_said(alloc, &said, line, sink)?;
    Ok(())
}

/// Writes which single changes would have made a stage complete with a value, by the tick if the terms name one, as one line,
/// as `write_answer` does. What was written reads back as the report.
///
/// Errors: `NoStage` where the stage is not live, and then nothing is written; `Write` where a write failed or took
/// nothing; `Memory`, and then nothing is written.
pub fn write_rescue<R: StateRepresentation, W: Runner, S: Sink>(
    alloc: Global,
    version: &Version<R>,
    target: u32,
    terms: RescueTerms,
    runner: &W,
    line: Option<u64>,
    sink: &mut S,
) -> Result<(), ReportFault>
    requires { S.failures sink.old < 2 ^ 64 - 1 }
    ensures ok { OnOk result (Appends (S.held sink.old) (S.held sink.new) (told line (rescue_json version.now target terms))) }
    ensures err { OnErr result (AppendsPrefix (S.held sink.old) (S.held sink.new) (told line (rescue_json version.now target terms))) }
    ensures no_stage { (result ≡ Err ReportFault.NoStage) ↔ (rescue_json version.now target terms ≡ None) }
    ensures failures { S.failures sink.new ≡ S.failures sink.old + failed_writes result }
    ensures reads_back { OnOk result (IfSome (rescue_json version.now target terms) (λ report. read (compact_text (at_line line report)) ≡ Some (at_line line report))) }
{
    let said = say_rescue(alloc, version, target, terms, runner)?;
    write_said(alloc, &said, line, sink)?;
    Ok(())
}

/// Writes in which stages a good run and a bad one differ, where they are compared for a stage of each, as one line, as
/// `write_answer` does. What was written reads back as the report.
///
/// Errors: `Write` where a write failed or took nothing; `Memory`, and then nothing is written.
pub fn write_differences<R: StateRepresentation, S: Sink>(
    alloc: Global,
    good: &StageView<'_, R>,
    bad: &StageView<'_, R>,
    line: Option<u64>,
    sink: &mut S,
) -> Result<(), ReportFault>
    requires { S.failures sink.old < 2 ^ 64 - 1 }
    ensures ok { OnOk result (Appends (S.held sink.old) (S.held sink.new) (line_text (at_line line (differences_json good.now.version.now.graph good.now.place bad.now.version.now.graph bad.now.place)))) }
    ensures err { OnErr result (AppendsPrefix (S.held sink.old) (S.held sink.new) (line_text (at_line line (differences_json good.now.version.now.graph good.now.place bad.now.version.now.graph bad.now.place)))) }
    ensures found { result ≢ Err ReportFault.NoStage }
    ensures failures { S.failures sink.new ≡ S.failures sink.old + failed_writes result }
    ensures reads_back { OnOk result (read (compact_text (at_line line (differences_json good.now.version.now.graph good.now.place bad.now.version.now.graph bad.now.place)))
        ≡ Some (at_line line (differences_json good.now.version.now.graph good.now.place bad.now.version.now.graph bad.now.place))) }
{
    let said = say_differences(alloc, good, bad)?;
    write_said(alloc, &said, line, sink)?;
    Ok(())
}
