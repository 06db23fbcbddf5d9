//! Why a report ends early.
ghost use Rattle.std.specs.Prelude.{◌≡◌};
ghost use Rattle.report_rows.specs.Faults.{report_number};

use std::alloc::AllocError;
use text_io::{Stopped, WriteFault};
use thiserror::Error;
use version_store::QueryFault;

/// Why a report was not written to its end.
#[derive(Clone, Copy, Debug, PartialEq, Eq, Error)]
pub enum ReportFault {
    /// The report asks for a stage that is not live.
    #[error("NoStage")]
    NoStage,
    /// The sink failed, or took nothing.
    #[error("WriteFault")]
    Write,
    /// Memory ran out.
    #[error("Memory")]
    Memory,
}

impl ReportFault {
    /// The number by which the refusal is told.
    pub fn number(self) -> u32
        ensures { result ≡ report_number self }
    {
        match self {
            ReportFault::NoStage => 10,
            ReportFault::Write => 40,
            ReportFault::Memory => 90,
        }
    }
}

impl From<AllocError> for ReportFault {
    ghost use Rattle.report_rows.specs.declared.fault.ReportFault.{ReportFault};

    ghost from_gives = { λ _ fault. fault ≡ ReportFault.Memory };

    fn from(_: AllocError) -> ReportFault {
        ReportFault::Memory
    }
}

impl From<WriteFault> for ReportFault {
    ghost use Rattle.report_rows.specs.declared.fault.ReportFault.{ReportFault};

    ghost from_gives = { λ _ fault. fault ≡ ReportFault.Write };

    fn from(_: WriteFault) -> ReportFault {
        ReportFault::Write
    }
}

impl From<QueryFault> for ReportFault {
    ghost use Rattle.report_rows.specs.Faults.{unanswered};

    ghost from_gives = { λ query fault. fault ≡ unanswered query };

    fn from(query: QueryFault) -> ReportFault {
        match query {
            QueryFault::NoStage => ReportFault::NoStage,
            QueryFault::Memory => ReportFault::Memory,
        }
    }
}

impl From<Stopped> for ReportFault {
    ghost use Rattle.report_rows.specs.Faults.{report_fault};

    ghost from_gives = { λ stopped fault. fault ≡ report_fault stopped };

    fn from(stopped: Stopped) -> ReportFault {
        match stopped {
            Stopped::Write => ReportFault::Write,
            Stopped::Memory => ReportFault::Memory,
        }
    }
}
