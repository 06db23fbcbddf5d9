//! Chains of blame.
ghost use Rattle.std.specs.Prelude.{◌≡◌, IfOk};
ghost use Rattle.stage_ops.specs.Java.{java_step};
ghost use Rattle.scratch_eval.specs.Blame.{chain};

use crate::evaluated::Evaluated;
use propagate::StateRepresentation;
use stage_graph::Places;
use std::alloc::{AllocError, Global};

impl<R: StateRepresentation> Evaluated<R> {
    /// The chain of blame of the stage at a place; empty where none stands.
    pub(crate) fn blame(&self, alloc: Global, place: u32) -> Result<Places, AllocError>
        ensures { IfOk result (λ places. places ≡ chain (java_step self.now.mode) self.now.places place) }
    {
        let graph = self.graph();
        // With its length a graph says that it is sound, as every graph is.
        let _ = graph.len();
        self.follow(alloc, place)
    }
}
