//! Why a summary answers nothing.
ghost use Rattle.std.specs.Prelude.{◌≡◌};

use std::alloc::AllocError;
use thiserror::Error;

/// Why a summary answers nothing.
#[derive(Clone, Copy, Debug, PartialEq, Eq, Error)]
pub enum AnswerFault {
    #[error("there is no reply")]
    NoReply,
    #[error("a name is no text")]
    NotText,
    #[error("out of memory")]
    Memory,
}

impl From<AllocError> for AnswerFault {
    ghost use Rattle.fleet_answer.specs.declared.fault.AnswerFault.{AnswerFault};

    ghost from_gives = { λ _ fault. fault ≡ AnswerFault.Memory };

    fn from(_: AllocError) -> AnswerFault {
        AnswerFault::Memory
    }
}
