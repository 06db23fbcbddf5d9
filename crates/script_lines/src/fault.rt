//! Why no further line is read.
ghost use Rattle.std.specs.Prelude.{◌≡◌};

use std::alloc::AllocError;
use text_io::ReadFault;
use thiserror::Error;

/// Why no further line was read.
#[derive(Clone, Copy, Debug, PartialEq, Eq, Error)]
pub enum LineFault {
    #[error("Memory")]
    Memory,
    /// A read failed, or the most bytes were read.
    #[error("ReadFault")]
    Read,
}

impl From<AllocError> for LineFault {
    ghost use Rattle.script_lines.specs.declared.fault.LineFault.{LineFault};

    ghost from_gives = { λ _ fault. fault ≡ LineFault.Memory };

    fn from(_: AllocError) -> LineFault {
        LineFault::Memory
    }
}

impl From<ReadFault> for LineFault {
    ghost use Rattle.script_lines.specs.declared.fault.LineFault.{LineFault};

    ghost from_gives = { λ _ fault. fault ≡ LineFault.Read };

    fn from(_: ReadFault) -> LineFault {
        LineFault::Read
    }
}
