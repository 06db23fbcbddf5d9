//! What is reported of a whole recording.
ghost use Rattle.std.specs.Prelude.{◌≡◌, ◌≢◌, ◌+◌, ◌-◌, ◌^◌, ◌<◌, Err, OnOk, OnErr};
ghost use Rattle.std.specs.Io.KnownBytes.{Appends};
ghost use Rattle.text_io.specs.Sink.{AppendsPrefix};
ghost use Rattle.report_rows.specs.Faults.{failed_writes as failed_report_writes};
ghost use Rattle.report_rows.specs.declared.fault.ReportFault.{ReportFault};
ghost use Rattle.recording_reports.specs.Reported.{IsReported, failed_writes, whole_of, whole_text};

use crate::fault::RecordingFault;
use recording::{Fault, read_recording};
use report_form::{Form, tell_report};
use report_rows::{Arisen, ReportFault, What};
use stage_graph::Graph;
use std::alloc::Global;
use std::mem::forget;
use text_io::Sink;
use version_store::{StateRepresentation, Version};

/// What is reported of all stages.
#[derive(Clone, Copy, Debug, PartialEq, Eq)]
pub enum WholeReport {
    /// What each stage came to, and when.
    All,
    /// What came of each end of a stage.
    Ends,
    /// Each failure: where it arose, which stages it reached, and which read it and don't hold it.
    Failures,
}

/// Writes what is asked of all stages of a version.
fn write_all<R: StateRepresentation, S: Sink>(
    alloc: Global,
    version: &Version<R>,
    asked: WholeReport,
    form: Form,
    sink: &mut S,
) -> Result<(), ReportFault>
    requires { S.failures sink.old < 2 ^ 64 - 1 }
    ensures ok { OnOk result (Appends (S.held sink.old) (S.held sink.new) (whole_text form asked version.now)) }
    ensures err { OnErr result (AppendsPrefix (S.held sink.old) (S.held sink.new) (whole_text form asked version.now)) }
    ensures found { result ≢ Err ReportFault.NoStage }
    ensures failures { S.failures sink.new ≡ S.failures sink.old + failed_report_writes result }
{
    match asked {
        WholeReport::All => tell_report(alloc, version, What::All, form, sink),
        WholeReport::Ends => tell_report(alloc, version, What::Ends, form, sink),
        WholeReport::Failures => tell_report(
            alloc,
            version,
            What::Failures(Arisen::Anywhere),
            form,
            sink,
        ),
    }
}

/// Writes what is asked of all stages, in version 0 of a recording, in the form that is asked for. The version is not dropped, but
/// left to the system, which takes back the memory of a program that ends with its report.
pub fn report_all<R: StateRepresentation, S: Sink>(
    alloc: Global,
    recording: &[u8],
    asked: WholeReport,
    form: Form,
    sink: &mut S,
) -> Result<(), RecordingFault>
    requires { S.failures sink.old < 2 ^ 64 - 1 }
    ensures written { IsReported recording.now (whole_of form asked) (S.held sink.old) (S.held sink.new) result }
    ensures failures { S.failures sink.new ≡ S.failures sink.old + failed_writes result }
{
    let graph: Graph<R> = match read_recording(alloc, recording) {
        Ok(graph) => graph,
        Err(fault) => return Err(RecordingFault::Refused(fault)),
    };
    let Ok(version) = Version::load(alloc, graph) else {
        return Err(RecordingFault::Refused(Fault::Memory));
    };
    let end = write_all(alloc, &version, asked, form, sink);
    forget(version);
    match end {
        Ok(()) => Ok(()),
        Err(ReportFault::Write) => Err(RecordingFault::Write),
        Err(ReportFault::Memory) => Err(RecordingFault::Memory),
        Err(ReportFault::NoStage) => unreachable!(),
    }
}
