//! Why a text was not written to its end.
ghost use Rattle.std.specs.Prelude.{◌≡◌};

use crate::sink::WriteFault;
use std::alloc::AllocError;
use thiserror::Error;

/// Why a text was not written to its end.
#[derive(Clone, Copy, Debug, PartialEq, Eq, Error)]
pub enum Stopped {
    /// A write failed, or took nothing.
    #[error("WriteFault")]
    Write,
    #[error("Memory")]
    Memory,
}

impl From<AllocError> for Stopped {
    ghost use Rattle.text_io.specs.declared.stopped.Stopped.{Stopped};

    ghost from_gives = { λ _ fault. fault ≡ Stopped.Memory };

    fn from(_: AllocError) -> Stopped {
        Stopped::Memory
    }
}

impl From<WriteFault> for Stopped {
    ghost use Rattle.text_io.specs.declared.stopped.Stopped.{Stopped};

    ghost from_gives = { λ _ fault. fault ≡ Stopped.Write };

    fn from(_: WriteFault) -> Stopped {
        Stopped::Write
    }
}
