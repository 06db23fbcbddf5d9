//! Why a run is refused.
ghost use Rattle.std.specs.Prelude.{◌≡◌};
ghost use Rattle.level_pool.specs.Fault.{fault_number};
ghost use Rattle.level_pool.specs.declared.fault.PoolFault.TheVariants.{Memory};

use std::alloc::AllocError;
use thiserror::Error;

/// Why a run gave no results.
#[derive(Clone, Copy, Debug, PartialEq, Eq, Error)]
pub enum PoolFault {
    /// The start of a thread was refused. No runner of this crate returns it: if no thread can be
    /// started, `std` and `rayon` make the calls in the caller's thread. It is for those who start threads
    /// of their own beside a runner.
    #[error("a thread could not be started")]
    NoThread,
    /// Out of memory.
    #[error("out of memory")]
    Memory,
}

impl PoolFault {
    /// The number of the refusal.
    pub fn number(self) -> u32
        ensures { result ≡ fault_number self }
    {
        match self {
            PoolFault::NoThread => 35,
            PoolFault::Memory => 90,
        }
    }
}

impl From<AllocError> for PoolFault {
    ghost from_gives = { λ _ fault. fault ≡ Memory };

    fn from(_error: AllocError) -> PoolFault {
        PoolFault::Memory
    }
}
