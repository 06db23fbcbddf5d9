//! Why the report of a recording was not written to its end.
ghost use Rattle.std.specs.Prelude.{◌≡◌};
ghost use Rattle.recording_reports.specs.Reported.{recording_number};

use recording::Fault;
use thiserror::Error;

/// Why the report of a recording was not written to its end.
#[derive(Debug, Drop, Error)]
pub enum RecordingFault {
    /// The recording is refused, or memory ran out before the report began; nothing was written.
    #[error("{0}")]
    Refused(Fault),
    /// The recording has no stage of the name; nothing was written.
    #[error("refused 10 NoStage")]
    NoStage,
    /// A write failed, or took nothing.
    #[error("refused 40 WriteFault")]
    Write,
    /// Memory ran out while the report was written.
    #[error("refused 90 Memory")]
    Memory,
}

impl RecordingFault {
    /// The number by which the fault is printed.
    pub fn number(&self) -> u32
        ensures { result ≡ recording_number self.now }
    {
        match self {
            RecordingFault::Refused(fault) => fault.number(),
            RecordingFault::NoStage => 10,
            RecordingFault::Write => 40,
            RecordingFault::Memory => 90,
        }
    }
}
