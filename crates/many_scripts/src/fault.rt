//! Why the scripts were not answered.
ghost use Rattle.std.specs.Prelude.{◌≡◌};
ghost use Rattle.many_scripts.specs.Faults.{many_number};

use std::alloc::AllocError;
use thiserror::Error;

/// Why the scripts were not answered.
#[derive(Clone, Copy, Debug, PartialEq, Eq, Error)]
pub enum ManyFault {
    #[error("NoThread")]
    NoThread,
    #[error("WriteFault")]
    Write,
    #[error("ReadFault")]
    Read,
    #[error("Missing")]
    Missing,
    #[error("Torn")]
    Torn,
    #[error("Memory")]
    Memory,
}

impl ManyFault {
    pub fn number(self) -> u32
        ensures { result ≡ many_number self }
    {
        match self {
            ManyFault::NoThread => 35,
            ManyFault::Write => 40,
            ManyFault::Read => 41,
            ManyFault::Missing => 60,
            ManyFault::Torn => 61,
            ManyFault::Memory => 90,
        }
    }
}

impl From<AllocError> for ManyFault {
    ghost use Rattle.many_scripts.specs.declared.fault.ManyFault.{ManyFault};

    ghost from_gives = { λ _ fault. fault ≡ ManyFault.Memory };

    fn from(_: AllocError) -> ManyFault {
        ManyFault::Memory
    }
}
