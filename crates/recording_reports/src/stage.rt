//! What is reported of one stage of a recording.
ghost use Rattle.std.specs.Prelude.{◌≡◌, ◌≢◌, ◌+◌, ◌-◌, ◌^◌, ◌<◌, ◌&&◌, not, false, unwrap_or, Err, IfOk, OnOk, OnErr};
ghost use Rattle.std.specs.Io.KnownBytes.{Appends};
ghost use Rattle.stage_graph.specs.Plain.{IsLive};
ghost use Rattle.text_io.specs.Sink.{AppendsPrefix};
ghost use Rattle.report_rows.specs.Faults.{failed_writes as failed_report_writes};
ghost use Rattle.report_rows.specs.declared.fault.ReportFault.{ReportFault};
ghost use Rattle.report_rows.specs.Said.{has_rows};
ghost use Rattle.recording_reports.specs.Reported.{IsReported, beside, failed_writes, handled_text, is_failed, stage_of, stage_text};
ghost use Rattle.recording_reports.specs.declared.stage.StageReport.{StageReport};

use crate::fault::RecordingFault;
use act_expr::Outcome;
use level_pool::Runner;
use recording::{Fault, read_recording};
use report_form::{Form, tell_report, tell_rescue, tell_slack, tell_sweep};
use report_rows::{Arisen, ReportFault, RescueTerms, SweepAsked, What, has_rows};
use stage_graph::Graph;
use std::alloc::{AllocError, Global};
use std::mem::forget;
use text_io::Sink;
use version_store::{NoStage, QueryFault, StateRepresentation, Version};

/// What is reported of a stage.
#[derive(Clone, Copy, Debug, PartialEq, Eq)]
pub enum StageReport {
    /// The reports `one`, `blame` and `path`, one after the other; and then, where it doesn't fail, which failures the stages
    /// on its path have to do with.
    Explanation,
    /// Which stages are worth making faster, as far as that is asked for.
    Sweep(SweepAsked),
    /// How many ticks longer the action of each stage may run before it completes otherwise, where `within` names ticks of those
    /// alone that may run no more than these longer.
    Slack { within: Option<u64> },
    /// Which single changes would have made it complete with a value.
    Rescue(RescueTerms),
    /// Which stages the failure that arose in it reached, and which read it and don't hold it.
    Failure,
}

/// Whether the stage at a place completed by an exception.
fn is_failed<R: StateRepresentation>(version: &Version<R>, place: u32) -> bool
    requires { IsLive version.now.graph.places place }
    ensures { result ≡ is_failed version.now.graph place }
{
    match version.state(place) {
        Ok(state) => match state.done {
            Some(done) => !matches!(done.outcome, Outcome::Value(_)),
            None => false,
        },
        Err(NoStage) => unreachable!(),
    }
}

/// Whether the stages on the path of the stage at a place have to do with failures, and it doesn't fail itself.
fn has_handled<R: StateRepresentation>(
    alloc: Global,
    version: &Version<R>,
    place: u32,
) -> Result<bool, AllocError>
    requires { IsLive version.now.graph.places place }
    ensures { IfOk result (λ has. has ≡ (not (is_failed version.now.graph place) && unwrap_or (has_rows version.now (beside place)) false)) }
{
    if is_failed(version, place) {
        return Ok(false);
    }
    match has_rows(alloc, version, What::Failures(Arisen::Beside(place))) {
        Ok(has) => Ok(has),
        Err(QueryFault::Memory) => Err(AllocError),
        Err(QueryFault::NoStage) => unreachable!(),
    }
}

/// Writes the failures that the stages on the path of the stage at a place have to do with, where it doesn't fail itself.
fn tell_handled<R: StateRepresentation, S: Sink>(
    alloc: Global,
    version: &Version<R>,
    place: u32,
    form: Form,
    sink: &mut S,
) -> Result<(), ReportFault>
    requires live { IsLive version.now.graph.places place }
    requires room { S.failures sink.old < 2 ^ 64 - 1 }
    ensures ok { OnOk result (Appends (S.held sink.old) (S.held sink.new) (handled_text form version.now place)) }
    ensures err { OnErr result (AppendsPrefix (S.held sink.old) (S.held sink.new) (handled_text form version.now place)) }
    ensures found { result ≢ Err ReportFault.NoStage }
    ensures failures { S.failures sink.new ≡ S.failures sink.old + failed_report_writes result }
{
    if has_handled(alloc, version, place)? {
        return tell_report(
            alloc,
            version,
            What::Failures(Arisen::Beside(place)),
            form,
            sink,
        );
    }
    Ok(())
}

/// Writes the reports `one`, `blame` and `path` of the stage at a place, and the failures that its path has to do with.
fn explain<R: StateRepresentation, S: Sink>(
    alloc: Global,
    version: &Version<R>,
    place: u32,
    form: Form,
    sink: &mut S,
) -> Result<(), ReportFault>
    requires live { IsLive version.now.graph.places place }
    requires room { S.failures sink.old < 2 ^ 64 - 1 }
    ensures ok { OnOk result (Appends (S.held sink.old) (S.held sink.new) (stage_text form StageReport.Explanation version.now place)) }
    ensures err { OnErr result (AppendsPrefix (S.held sink.old) (S.held sink.new) (stage_text form StageReport.Explanation version.now place)) }
    ensures found { result ≢ Err ReportFault.NoStage }
    ensures failures { S.failures sink.new ≡ S.failures sink.old + failed_report_writes result }
{
    tell_report(alloc, version, What::One(place), form, sink)?;
    tell_report(alloc, version, What::Blame(place), form, sink)?;
    tell_report(alloc, version, What::Path(place), form, sink)?;
    tell_handled(alloc, version, place, form, sink)
}

/// Writes what is asked of the stage at a place, in the form that is asked for.
///
/// Errors: `Write` where a write failed or took nothing; `Memory`. Then a prefix was written.
pub fn tell_stage<R: StateRepresentation, W: Runner, S: Sink>(
    alloc: Global,
    version: &Version<R>,
    place: u32,
    asked: StageReport,
    runner: &W,
    form: Form,
    sink: &mut S,
) -> Result<(), ReportFault>
    requires live { IsLive version.now.graph.places place }
    requires room { S.failures sink.old < 2 ^ 64 - 1 }
    ensures ok { OnOk result (Appends (S.held sink.old) (S.held sink.new) (stage_text form asked version.now place)) }
    ensures err { OnErr result (AppendsPrefix (S.held sink.old) (S.held sink.new) (stage_text form asked version.now place)) }
    ensures found { result ≢ Err ReportFault.NoStage }
    ensures failures { S.failures sink.new ≡ S.failures sink.old + failed_report_writes result }
{
    match asked {
        StageReport::Explanation => explain(alloc, version, place, form, sink),
        StageReport::Sweep(swept) => {
            tell_sweep(alloc, version, place, swept, runner, form, sink)
        }
        StageReport::Slack { within } => {
            tell_slack(alloc, version, place, within, runner, form, sink)
        }
        StageReport::Rescue(terms) => {
            tell_rescue(alloc, version, place, terms, runner, form, sink)
        }
        StageReport::Failure => {
            tell_report(
                alloc,
                version,
                What::Failures(Arisen::In(place)),
                form,
                sink,
            )
        }
    }
}

/// Writes what is asked of the stage of a name, in version 0 of a recording, in the form that is asked for. The version is left to
/// the system, as by [`crate::report_all`].
pub fn report_stage<R: StateRepresentation, W: Runner, S: Sink>(
    alloc: Global,
    recording: &[u8],
    name: &str,
    asked: StageReport,
    runner: &W,
    form: Form,
    sink: &mut S,
) -> Result<(), RecordingFault>
    requires { S.failures sink.old < 2 ^ 64 - 1 }
    ensures written { IsReported recording.now (stage_of form asked name.now) (S.held sink.old) (S.held sink.new) result }
    ensures failures { S.failures sink.new ≡ S.failures sink.old + failed_writes result }
{
    let graph: Graph<R> = match read_recording(alloc, recording) {
        Ok(graph) => graph,
        Err(fault) => return Err(RecordingFault::Refused(fault)),
    };
    let Ok(version) = Version::load(alloc, graph) else {
        return Err(RecordingFault::Refused(Fault::Memory));
    };
    let Ok(place) = version.id_of(name) else {
        return Err(RecordingFault::NoStage);
    };
    let end = tell_stage(alloc, &version, place, asked, runner, form, sink);
    forget(version);
    match end {
        Ok(()) => Ok(()),
        Err(ReportFault::Write) => Err(RecordingFault::Write),
        Err(ReportFault::Memory) => Err(RecordingFault::Memory),
        Err(ReportFault::NoStage) => unreachable!(),
    }
}
