//! Why a script is not answered to its end.
ghost use Rattle.std.specs.Prelude.{◌≡◌};

use script_lines::LineFault;
use std::alloc::AllocError;
use text_io::{ReadFault, WriteFault};
use thiserror::Error;

/// Why a line was not fully answered.
#[derive(Clone, Copy, Debug, PartialEq, Eq, Error)]
pub enum AnswerFault {
    #[error("Memory")]
    Memory,
    #[error("WriteFault")]
    Write,
}

/// Why the lines were not all answered.
#[derive(Clone, Copy, Debug, PartialEq, Eq, Error)]
pub enum ServeFault {
    #[error("Memory")]
    Memory,
    #[error("WriteFault")]
    Write,
    #[error("ReadFault")]
    Read,
}

impl From<AllocError> for AnswerFault {
    ghost use Rattle.serve_script.specs.declared.fault.AnswerFault.{AnswerFault};

    ghost from_gives = { λ _ fault. fault ≡ AnswerFault.Memory };

    fn from(_: AllocError) -> AnswerFault {
        AnswerFault::Memory
    }
}

impl From<WriteFault> for AnswerFault {
    ghost use Rattle.serve_script.specs.declared.fault.AnswerFault.{AnswerFault};

    ghost from_gives = { λ _ fault. fault ≡ AnswerFault.Write };

    fn from(_: WriteFault) -> AnswerFault {
        AnswerFault::Write
    }
}

impl From<AllocError> for ServeFault {
    ghost use Rattle.serve_script.specs.declared.fault.ServeFault.{ServeFault};

    ghost from_gives = { λ _ fault. fault ≡ ServeFault.Memory };

    fn from(_: AllocError) -> ServeFault {
        ServeFault::Memory
    }
}

impl From<WriteFault> for ServeFault {
    ghost use Rattle.serve_script.specs.declared.fault.ServeFault.{ServeFault};

    ghost from_gives = { λ _ fault. fault ≡ ServeFault.Write };

    fn from(_: WriteFault) -> ServeFault {
        ServeFault::Write
    }
}

impl From<ReadFault> for ServeFault {
    ghost use Rattle.serve_script.specs.declared.fault.ServeFault.{ServeFault};

    ghost from_gives = { λ _ fault. fault ≡ ServeFault.Read };

    fn from(_: ReadFault) -> ServeFault {
        ServeFault::Read
    }
}

impl From<LineFault> for ServeFault {
    ghost use Rattle.serve_script.specs.Faults.{unread};

    ghost from_gives = { λ line fault. fault ≡ unread line };

    fn from(fault: LineFault) -> ServeFault {
        match fault {
            LineFault::Memory => ServeFault::Memory,
            LineFault::Read => ServeFault::Read,
        }
    }
}

impl From<AnswerFault> for ServeFault {
    ghost use Rattle.serve_script.specs.Faults.{served};

    ghost from_gives = { λ answer fault. fault ≡ served answer };

    fn from(fault: AnswerFault) -> ServeFault {
        match fault {
            AnswerFault::Memory => ServeFault::Memory,
            AnswerFault::Write => ServeFault::Write,
        }
    }
}
