//! Chains of blame: from a stage that completed by an exception to the stage that it took the exception from, and on.
ghost use Rattle.std.specs.Prelude.{◌≡◌, ℕ, IfOk};
ghost use Rattle.stage_ops.specs.declared.state.State.{State};
ghost use Rattle.scratch_eval.specs.Blame.{failure_of, followed};

use stage_graph::Places;
use stage_ops::Done;
use std::alloc::{AllocError, Global};

/// The stages of a graph by place, of which those that completed by an exception are known.
pub trait Failures {
    ghost state: { Self → ℕ → State };

    /// The completion at a place by an exception. Allocates nothing.
    fn failure(&self, place: u32) -> Option<Done>
        ensures { result ≡ failure_of (state self.now place).done };
}

/// The chain of blame from a place, by the states of the stages: at most this many places.
pub fn follow_blame<F: Failures>(
    alloc: Global,
    failures: &F,
    most: usize,
    place: u32,
) -> Result<Places, AllocError>
    ensures { IfOk result (λ chain. chain ≡ followed (F.state failures.now) most place) }
{
    let mut chain = Vec::new(alloc);
    let mut next = place;
    for _ in 0..most {
        let Some(failure) = failures.failure(next) else {
            break;
        };
        chain.push(next)?;
        let Some(source) = failure.from else {
            break;
        };
        next = source;
    }
    Ok(Places::from_vec(chain))
}
