//! Why parts are not joined.
ghost use Rattle.std.specs.Prelude.{◌≡◌};

use std::alloc::AllocError;
use thiserror::Error;

/// Why parts were not joined.
#[derive(Clone, Copy, Debug, PartialEq, Eq, Error)]
pub enum JoinFault {
    #[error("the summary is of other groups, other replies, another unit or another change than the first")]
    OtherBasis(usize),
    #[error("out of memory")]
    Memory,
}

impl From<AllocError> for JoinFault {
    ghost use Rattle.fleet_text.specs.declared.join_fault.JoinFault.{JoinFault};

    ghost from_gives = { λ _ fault. fault ≡ JoinFault.Memory };

    fn from(_: AllocError) -> JoinFault {
        JoinFault::Memory
    }
}
