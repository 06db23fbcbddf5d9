//! Why a query is not answered.
ghost use Rattle.std.specs.Prelude.{◌≡◌};
ghost use Rattle.scratch_eval.specs.Queries.{query_number};

use stage_graph::NoStage;
use std::alloc::AllocError;
use thiserror::Error;

/// Why a query is not answered.
#[derive(Clone, Copy, Debug, PartialEq, Eq, Error)]
pub enum QueryFault {
    /// No live stage stands at the place.
    #[error("10 NoStage")]
    NoStage,
    #[error("90 Memory")]
    Memory,
}

impl From<AllocError> for QueryFault {
    ghost use Rattle.scratch_eval.specs.declared.fault.QueryFault.TheVariants.{Memory};

    ghost from_gives = { λ _ fault. fault ≡ Memory };

    fn from(_error: AllocError) -> QueryFault {
        QueryFault::Memory
    }
}

impl From<NoStage> for QueryFault {
    ghost use Rattle.scratch_eval.specs.declared.fault.QueryFault.TheVariants as query;

    ghost from_gives = { λ _ fault. fault ≡ query.NoStage };

    fn from(_none: NoStage) -> QueryFault {
        QueryFault::NoStage
    }
}

impl QueryFault {
    /// The number by which the fault is printed.
    pub fn number(self) -> u32
        ensures { result ≡ query_number self }
    {
        match self {
            QueryFault::NoStage => 10,
            QueryFault::Memory => 90,
        }
    }
}
