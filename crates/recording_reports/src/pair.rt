//! What is reported of two recordings: a good one and a bad one, of the same endpoint, say.
ghost use Rattle.std.specs.Prelude.{◌≡◌, ◌≢◌, ◌+◌, ◌-◌, ◌^◌, ◌<◌, Err, OnOk, OnErr};
ghost use Rattle.std.specs.Io.KnownBytes.{Appends};
ghost use Rattle.stage_graph.specs.Plain.{IsLive};
ghost use Rattle.text_io.specs.Sink.{AppendsPrefix};
ghost use Rattle.report_rows.specs.Faults.{failed_writes as failed_report_writes};
ghost use Rattle.report_rows.specs.declared.fault.ReportFault.{ReportFault};
ghost use Rattle.report_form.specs.Told.{differences_told};
ghost use Rattle.recording_reports.specs.Pairs.{IsCompared, IsComparedTo, IsWritten, failed_pair_writes, pair_text};

use crate::pair_fault::{PairFault, Which};
use recording::{Fault, read_recording};
use report_form::{Form, tell_differences, tell_report};
use report_rows::{ReportFault, What};
use stage_graph::Graph;
use std::alloc::Global;
use std::mem::forget;
use text_io::Sink;
use version_store::{StageView, StateRepresentation, Version};

/// Writes in which stages the runs differ, where they are compared for a stage of the good one, and for that at a place of the bad
/// one.
fn tell_differences_from<R: StateRepresentation, S: Sink>(
    alloc: Global,
    good: &StageView<'_, R>,
    bad: &Version<R>,
    at_bad: u32,
    form: Form,
    sink: &mut S,
) -> Result<(), ReportFault>
    requires live { IsLive bad.now.graph.places at_bad }
    requires room { S.failures sink.old < 2 ^ 64 - 1 }
    ensures ok { OnOk result (Appends (S.held sink.old) (S.held sink.new) (differences_told form good.now.version.now.graph good.now.place bad.now.graph at_bad)) }
    ensures err { OnErr result (AppendsPrefix (S.held sink.old) (S.held sink.new) (differences_told form good.now.version.now.graph good.now.place bad.now.graph at_bad)) }
    ensures found { result ≢ Err ReportFault.NoStage }
    ensures failures { S.failures sink.new ≡ S.failures sink.old + failed_report_writes result }
{
    match bad.stage(at_bad) {
        Some(view) => tell_differences(alloc, good, &view, form, sink),
        None => unreachable!(),
    }
}

/// Writes in which stages the runs differ, where they are compared for the stages at these places.
fn tell_differences_at<R: StateRepresentation, S: Sink>(
    alloc: Global,
    good: &Version<R>,
    at_good: u32,
    bad: &Version<R>,
    at_bad: u32,
    form: Form,
    sink: &mut S,
) -> Result<(), ReportFault>
    requires good_live { IsLive good.now.graph.places at_good }
    requires bad_live { IsLive bad.now.graph.places at_bad }
    requires room { S.failures sink.old < 2 ^ 64 - 1 }
    ensures ok { OnOk result (Appends (S.held sink.old) (S.held sink.new) (differences_told form good.now.graph at_good bad.now.graph at_bad)) }
    ensures err { OnErr result (AppendsPrefix (S.held sink.old) (S.held sink.new) (differences_told form good.now.graph at_good bad.now.graph at_bad)) }
    ensures found { result ≢ Err ReportFault.NoStage }
    ensures failures { S.failures sink.new ≡ S.failures sink.old + failed_report_writes result }
{
    match good.stage(at_good) {
        Some(view) => tell_differences_from(alloc, &view, bad, at_bad, form, sink),
        None => unreachable!(),
    }
}

/// Writes the path of the stage at a place of a good run, that of the stage at a place of a bad one, and in which stages the runs
/// differ, in the form that is asked for.
///
/// Errors: `Write` where a write failed or took nothing; `Memory`. Then a prefix was written.
pub fn tell_pair<R: StateRepresentation, S: Sink>(
    alloc: Global,
    good: &Version<R>,
    at_good: u32,
    bad: &Version<R>,
    at_bad: u32,
    form: Form,
    sink: &mut S,
) -> Result<(), ReportFault>
    requires good_live { IsLive good.now.graph.places at_good }
    requires bad_live { IsLive bad.now.graph.places at_bad }
    requires room { S.failures sink.old < 2 ^ 64 - 1 }
    ensures ok { OnOk result (Appends (S.held sink.old) (S.held sink.new) (pair_text form good.now at_good bad.now at_bad)) }
    ensures err { OnErr result (AppendsPrefix (S.held sink.old) (S.held sink.new) (pair_text form good.now at_good bad.now at_bad)) }
    ensures found { result ≢ Err ReportFault.NoStage }
    ensures failures { S.failures sink.new ≡ S.failures sink.old + failed_report_writes result }
{
    tell_report(alloc, good, What::Path(at_good), form, sink)?;
    tell_report(alloc, bad, What::Path(at_bad), form, sink)?;
    tell_differences_at(alloc, good, at_good, bad, at_bad, form, sink)
}

/// The same, with its end as that of a pair.
fn write_pair<R: StateRepresentation, S: Sink>(
    alloc: Global,
    good: &Version<R>,
    at_good: u32,
    bad: &Version<R>,
    at_bad: u32,
    form: Form,
    sink: &mut S,
) -> Result<(), PairFault>
    requires good_live { IsLive good.now.graph.places at_good }
    requires bad_live { IsLive bad.now.graph.places at_bad }
    requires room { S.failures sink.old < 2 ^ 64 - 1 }
    ensures written { IsWritten (pair_text form good.now at_good bad.now at_bad) (S.held sink.old) (S.held sink.new) result }
    ensures failures { S.failures sink.new ≡ S.failures sink.old + failed_pair_writes result }
{
    match tell_pair(alloc, good, at_good, bad, at_bad, form, sink) {
        Ok(()) => Ok(()),
        Err(ReportFault::Write) => Err(PairFault::Write),
        Err(ReportFault::Memory) => Err(PairFault::Memory),
        Err(ReportFault::NoStage) => unreachable!(),
    }
}

/// Writes the same of the stage at a place of the good run, and of the stage of the name in the recording of the bad one, whose
/// version is left to the system.
fn compare_to<R: StateRepresentation, S: Sink>(
    alloc: Global,
    good: &Version<R>,
    at_good: u32,
    bad: &[u8],
    name: &str,
    form: Form,
    sink: &mut S,
) -> Result<(), PairFault>
    requires good_live { IsLive good.now.graph.places at_good }
    requires room { S.failures sink.old < 2 ^ 64 - 1 }
    ensures written { IsComparedTo form name.now good.now at_good bad.now (S.held sink.old) (S.held sink.new) result }
    ensures failures { S.failures sink.new ≡ S.failures sink.old + failed_pair_writes result }
{
    let graph: Graph<R> = match read_recording(alloc, bad) {
        Ok(graph) => graph,
        Err(fault) => return Err(PairFault::Refused(Which::Bad, fault)),
    };
    let Ok(version) = Version::load(alloc, graph) else {
        return Err(PairFault::Refused(Which::Bad, Fault::Memory));
    };
    let Ok(place) = version.id_of(name) else {
        return Err(PairFault::NoStage(Which::Bad));
    };
    let end = write_pair(alloc, good, at_good, &version, place, form, sink);
    forget(version);
    end
}

/// Writes the paths of the stage of a name in two recordings, in that of a good run and in that of a bad one, and in which stages
/// these differ, in version 0 of each, in the form that is asked for. The versions are left to the system, as by
/// [`crate::report_all`].
pub fn compare_recordings<R: StateRepresentation, S: Sink>(
    alloc: Global,
    good: &[u8],
    bad: &[u8],
    name: &str,
    form: Form,
    sink: &mut S,
) -> Result<(), PairFault>
    requires { S.failures sink.old < 2 ^ 64 - 1 }
    ensures written { IsCompared form name.now good.now bad.now (S.held sink.old) (S.held sink.new) result }
    ensures failures { S.failures sink.new ≡ S.failures sink.old + failed_pair_writes result }
{
    let graph: Graph<R> = match read_recording(alloc, good) {
        Ok(graph) => graph,
        Err(fault) => return Err(PairFault::Refused(Which::Good, fault)),
    };
    let Ok(version) = Version::load(alloc, graph) else {
        return Err(PairFault::Refused(Which::Good, Fault::Memory));
    };
    let Ok(place) = version.id_of(name) else {
        return Err(PairFault::NoStage(Which::Good));
    };
    let end = compare_to(alloc, &version, place, bad, name, form, sink);
    forget(version);
    end
}
