//! What is told of a trial.
ghost use Rattle.std.specs.Prelude.{◌≡◌, ◌≢◌, ◌+◌, ◌-◌, ◌^◌, ◌<◌, Err, OnOk, OnErr};
ghost use Rattle.std.specs.Io.KnownBytes.{Appends};
ghost use Rattle.stage_graph.specs.Plain.{IsLive};
ghost use Rattle.text_io.specs.Sink.{AppendsPrefix};
ghost use Rattle.report_rows.specs.Faults.{failed_writes};
ghost use Rattle.report_rows.specs.declared.fault.ReportFault.{ReportFault};
ghost use Rattle.tried_changes.specs.Told.{trial_text};

use propagate::StateRepresentation;
use report_form::{Form, tell_comparison, tell_report};
use report_rows::{Comparison, ReportFault, What};
use std::alloc::Global;
use text_io::Sink;
use version_store::Version;

/// Writes what became of the stage at a place in a version; which stages complete at another moment than in the version
/// before, and which came to something else; and the path of the stage.
pub fn tell_trial<R: StateRepresentation, S: Sink>(
    alloc: Global,
    version: &Version<R>,
    before: &Version<R>,
    place: u32,
    form: Form,
    sink: &mut S,
) -> Result<(), ReportFault>
    requires live { IsLive version.now.graph.places place }
    requires room { S.failures sink.old < 2 ^ 64 - 1 }
    ensures ok { OnOk result (Appends (S.held sink.old) (S.held sink.new) (trial_text form version.now before.now place)) }
    ensures err { OnErr result (AppendsPrefix (S.held sink.old) (S.held sink.new) (trial_text form version.now before.now place)) }
    ensures found { result ≢ Err ReportFault.NoStage }
    ensures failures { S.failures sink.new ≡ S.failures sink.old + failed_writes result }
{
    tell_report(alloc, version, What::Change(place), form, sink)?;
    tell_comparison(alloc, version, before, Comparison::Drift, form, sink)?;
    tell_comparison(alloc, version, before, Comparison::Changes, form, sink)?;
    tell_report(alloc, version, What::Path(place), form, sink)
}
