//! Why a value was not read from JSON.
ghost use Rattle.std.specs.Prelude.{Some, Ok, Err};

use std::alloc::{AllocError, AllocFailed};
use thiserror::Error;

/// Why a value was not read from JSON.
#[derive(Clone, Copy, PartialEq, Eq, Debug, Error)]
pub(crate) enum Unread {
    #[error("the JSON does not have the value's form")]
    Shape,
    #[error("out of memory")]
    Memory,
}

impl From<AllocError> for Unread {
    ghost use Rattle.std.specs.Prelude.{◌≡◌};
    ghost use Rattle.recording.specs.declared.unread.Unread.TheVariants.{Memory};

    ghost from_gives = { λ _ fault. fault ≡ Memory };

    fn from(_: AllocError) -> Unread {
        Unread::Memory
    }
}

impl<T: Drop> From<AllocFailed<T>> for Unread {
    ghost use Rattle.std.specs.Prelude.{◌≡◌};
    ghost use Rattle.recording.specs.declared.unread.Unread.TheVariants.{Memory};

    ghost from_gives = { λ _ fault. fault ≡ Memory };

    fn from(_: AllocFailed<T>) -> Unread {
        Unread::Memory
    }
}
