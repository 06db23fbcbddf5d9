//! Why an order is not patched.
ghost use Rattle.std.specs.Prelude.{◌≡◌};
ghost use Rattle.rank_order.specs.Faults.{patch_number};

use stage_graph::Places;
use std::alloc::AllocError;
use thiserror::Error;

/// Why an order is not patched.
#[derive(Debug, Drop, Error)]
pub enum PatchFault {
    /// A walk that ends where it began.
    #[error("the edits close a cycle")]
    Cycle(Places),
    #[error("out of memory")]
    Memory,
}

impl PatchFault {
    /// The number of the refusal.
    pub fn number(&self) -> u32
        ensures { result ≡ patch_number self.now }
    {
        match self {
            PatchFault::Cycle(_) => 19,
            PatchFault::Memory => 90,
        }
    }
}

impl From<AllocError> for PatchFault {
    ghost use Rattle.rank_order.specs.declared.fault.PatchFault.TheVariants.{Memory};

    ghost from_gives = { λ _ fault. fault ≡ Memory };

    fn from(_error: AllocError) -> PatchFault {
        PatchFault::Memory
    }
}
