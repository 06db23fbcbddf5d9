//! Why a summary is not written.
ghost use Rattle.std.specs.Prelude.{◌≡◌};

use std::alloc::AllocError;
use thiserror::Error;

/// Why a summary was not written.
#[derive(Clone, Copy, Debug, PartialEq, Eq, Error)]
pub enum WriteFault {
    #[error("a name is no text")]
    NotText,
    #[error("out of memory")]
    Memory,
}

impl From<AllocError> for WriteFault {
    ghost use Rattle.fleet_text.specs.declared.fault.WriteFault.{WriteFault};

    ghost from_gives = { λ _ fault. fault ≡ WriteFault.Memory };

    fn from(_: AllocError) -> WriteFault {
        WriteFault::Memory
    }
}
