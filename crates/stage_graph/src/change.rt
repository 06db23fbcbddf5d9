//! What a list of edits makes of a graph, before the check for cycles.
ghost use Rattle.std.specs.Prelude.{◌≡◌, Ok, [], ◌∷◌, IfOk, IfSome};
ghost use Rattle.stage_graph.specs.Edits.{edited};
ghost use Rattle.stage_graph.specs.Changes.{edited_name, then_on, changed, IsChanged};
ghost use Rattle.stage_graph.specs.Kept.{AreDependentsOf, AreFirstDependents, IsChangeBy};

use crate::edit::{Edit, Edits};
use crate::fault::{EditFault, Fault, Refused};
use crate::graph::Graph;
use crate::representation::Representation;
use std::alloc::Global;

impl<R: Representation> Graph<R> {
    /// The graph that the edit of an index makes.
    fn edit_at(
        &self,
        alloc: Global,
        at: usize,
        edit: &Edit,
        known: Option<&[u32]>,
    ) -> Result<Graph<R>, Fault>
        requires { IfSome known (λ known. AreDependentsOf self.now.places (edited_name edit.now) known.now) }
        ensures changed { IsChanged result (then_on at (edited edit.now self.now) Ok) }
        ensures kept { IfOk result (IsChangeBy (edit.now ∷ []) self.now) }
    {
        // With its length a graph says that it is sound, as every graph is.
        let _ = self.len();
        match self.edit(alloc, edit, known) {
            Ok(graph) => Ok(graph),
            Err(EditFault::Refused(refusal)) => Err(Fault::Refused(Refused { at, refusal })),
            Err(EditFault::Memory) => Err(Fault::Memory),
        }
    }

    /// The graph that a list of edits makes, which may have cycles. This graph stays as it is.
    ///
    /// Each edit is checked on the graph that the earlier ones leave. The first refused edit refuses the
    /// list, and the refusal has its index. `Cycle` is never returned. Only the stages that the edits name
    /// change.
    pub fn change(&self, alloc: Global, edits: &Edits) -> Result<Graph<R>, Fault>
        ensures changed { IsChanged result (changed edits.now self.now) }
        ensures kept { IfOk result (IsChangeBy edits.now self.now) }
    {
        self.change_among(alloc, None, edits)
    }

    /// The same, with the dependents of the first edit's stage if they are known. If they aren't known,
    /// an edit that removes a stage searches all stages for a dependent.
    #[tactic(auto, unfolding(crate::specs::Changes::changed))]
    pub fn change_among(
        &self,
        alloc: Global,
        known: Option<&[u32]>,
        edits: &Edits,
    ) -> Result<Graph<R>, Fault>
        requires { IfSome known (λ known. AreFirstDependents self.now.places edits.now known.now) }
        ensures changed { IsChanged result (changed edits.now self.now) }
        ensures kept { IfOk result (IsChangeBy edits.now self.now) }
    {
        let edits = edits.as_slice();
        let mut graph = match self.edit_at(alloc, 0, &edits[0], known) {
            Ok(graph) => graph,
            Err(fault) => return Err(fault),
        };
        for at in 1..edits.len() {
            graph = match graph.edit_at(alloc, at, &edits[at], None) {
                Ok(graph) => graph,
                Err(fault) => return Err(fault),
            };
        }
        Ok(graph)
    }
}
