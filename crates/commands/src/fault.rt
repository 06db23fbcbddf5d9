//! What an answer that ended early ends the program with.
use console::Fault;
use recording_reports::{PairFault, RecordingFault};
use recording_text::TextFault;
use report_rows::ReportFault;
use serve_script::ServeFault;
use text_io::Stopped;

/// The end of a report, or of a picture.
pub(crate) fn reported<T: Drop>(end: Result<T, RecordingFault>) -> Result<T, Fault> {
    match end {
        Ok(answer) => Ok(answer),
        Err(RecordingFault::Refused(fault)) => Err(Fault::Refused(fault, None)),
        Err(RecordingFault::NoStage) => Err(Fault::NoStage(None)),
        Err(RecordingFault::Write) => Err(Fault::Write(None)),
        Err(RecordingFault::Memory) => Err(Fault::Memory),
    }
}

/// The end of the reports of two recordings.
pub(crate) fn compared(end: Result<(), PairFault>) -> Result<(), Fault> {
    match end {
        Ok(()) => Ok(()),
        Err(PairFault::Refused(_, fault)) => Err(Fault::Refused(fault, None)),
        Err(PairFault::NoStage(_)) => Err(Fault::NoStage(None)),
        Err(PairFault::Write) => Err(Fault::Write(None)),
        Err(PairFault::Memory) => Err(Fault::Memory),
    }
}

/// The end of reports of a version.
pub(crate) fn told(end: Result<(), ReportFault>) -> Result<(), Fault> {
    match end {
        Ok(()) => Ok(()),
        Err(ReportFault::NoStage) => Err(Fault::NoStage(None)),
        Err(ReportFault::Write) => Err(Fault::Write(None)),
        Err(ReportFault::Memory) => Err(Fault::Memory),
    }
}

/// The end of a page, or of an answer.
pub(crate) fn stopped(end: Result<(), Stopped>) -> Result<(), Fault> {
    match end {
        Ok(()) => Ok(()),
        Err(Stopped::Write) => Err(Fault::Write(None)),
        Err(Stopped::Memory) => Err(Fault::Memory),
    }
}

/// The end of a script.
pub(crate) fn served<T>(end: Result<T, ServeFault>) -> Result<T, Fault> {
    match end {
        Ok(answer) => Ok(answer),
        Err(ServeFault::Read) => Err(Fault::Read(None)),
        Err(ServeFault::Write) => Err(Fault::Write(None)),
        Err(ServeFault::Memory) => Err(Fault::Memory),
    }
}

/// The end of a version that is written as a recording.
pub(crate) fn written(end: Result<(), TextFault>) -> Result<(), Fault> {
    match end {
        Ok(()) => Ok(()),
        Err(TextFault::Write) => Err(Fault::Write(None)),
        Err(TextFault::Memory) => Err(Fault::Memory),
    }
}
