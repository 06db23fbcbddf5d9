//! Why a recording is not written to its end.
ghost use Rattle.std.specs.Prelude.{◌≡◌};
ghost use Rattle.recording_text.specs.Faults.{fault_number};

use std::alloc::AllocError;
use text_io::WriteFault;
use thiserror::Error;

/// Why a recording was not written to its end.
#[derive(Clone, Copy, Debug, PartialEq, Eq, Error)]
pub enum TextFault {
    #[error("WriteFault")]
    Write,
    #[error("Memory")]
    Memory,
}

impl TextFault {
    pub fn number(self) -> u32
        ensures { result ≡ fault_number self }
    {
        match self {
            TextFault::Write => 40,
            TextFault::Memory => 90,
        }
    }
}

impl From<AllocError> for TextFault {
    ghost use Rattle.recording_text.specs.declared.fault.TextFault.{TextFault};

    ghost from_gives = { λ _ fault. fault ≡ TextFault.Memory };

    fn from(_: AllocError) -> TextFault {
        TextFault::Memory
    }
}

impl From<WriteFault> for TextFault {
    ghost use Rattle.recording_text.specs.declared.fault.TextFault.{TextFault};

    ghost from_gives = { λ _ fault. fault ≡ TextFault.Write };

    fn from(_: WriteFault) -> TextFault {
        TextFault::Write
    }
}
