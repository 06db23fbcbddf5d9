//! What is counted of one trace.
ghost use Rattle.std.specs.Prelude.{◌≡◌, IfOk};

use crate::name::Name;
use std::alloc::{AllocError, Global};

/// What the reply of a trace came to.
#[derive(Drop)]
pub struct TraceFacts {
    /// The ticks from the request to the reply.
    pub time: u64,
    /// What the reply failed by, if it did.
    pub failure: Option<Failure>,
    /// One for each group of the trace.
    pub groups: Vec<GroupFacts>,
}

/// What a reply failed by: an exception, and the group in which it arose.
#[derive(PartialEq, Eq, PartialOrd, Ord, Drop)]
pub struct Failure {
    pub exception: Name,
    pub group: Name,
}

impl Failure {
    /// The same failure once more.
    pub fn copy(&self, alloc: Global) -> Result<Failure, AllocError>
        ensures { IfOk result (λ copy. copy ≡ self.now) }
    {
        Ok(Failure {
            exception: self.exception.copy(alloc)?,
            group: self.group.copy(alloc)?,
        })
    }
}

/// What a group of a trace came to.
#[derive(Drop)]
pub struct GroupFacts {
    pub name: Name,
    pub spans: u64,
    /// Whether the reply waited for it: whether it is on the path.
    pub is_on_path: bool,
    /// The ticks of the path in which it ran.
    pub ran: u64,
    /// The ticks of the path in which it was queued.
    pub queued: u64,
    /// The ticks to the reply if it took no time.
    pub time_then: u64,
}
