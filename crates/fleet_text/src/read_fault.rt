//! Why a text is not read.
ghost use Rattle.std.specs.Prelude.{◌≡◌};

use std::alloc::AllocError;
use thiserror::Error;

/// Why a text was not read as a summary.
#[derive(Clone, Copy, Debug, PartialEq, Eq, Error)]
pub enum ReadFault {
    #[error("the text is no JSON")]
    NotJson,
    #[error("the JSON is no summary: it has no form")]
    NoSummary,
    #[error("the summary has another form than 2")]
    OtherForm,
    #[error("the summary lacks a member, or has one of another kind")]
    Member,
    #[error("the summary has a list that is out of order, or counts none or more than there are")]
    Unsound,
    #[error("out of memory")]
    Memory,
}

impl From<AllocError> for ReadFault {
    ghost use Rattle.fleet_text.specs.declared.read_fault.ReadFault.{ReadFault};

    ghost from_gives = { λ _ fault. fault ≡ ReadFault.Memory };

    fn from(_: AllocError) -> ReadFault {
        ReadFault::Memory
    }
}
