//! The path of a cycle, which begins and ends at a stage that the edits add or rewire.
ghost use Rattle.std.specs.Prelude.{◌≡◌, ◌<◌, false, ℕ, length, slice_index, IfOk};
ghost use Rattle.stage_graph.specs.Plain.{stage_at};
ghost use Rattle.stage_graph.specs.Order.{IsClosedWalk};
ghost use Rattle.stage_graph.specs.Changes.{is_moved, IsNewCycle};

use crate::edit::Edits;
use crate::graph::Graph;
use crate::places::Places;
use crate::representation::Representation;
use std::alloc::{AllocError, Global};

/// The closed walk, rotated so that it begins at another of its places.
fn turned<R: Representation>(
    alloc: Global,
    graph: &Graph<R>,
    path: &[u32],
    begin: usize,
) -> Result<Places, AllocError>
    requires closed { IsClosedWalk graph.now.places path.now }
    requires within { begin < length path.now }
    ensures closed { IfOk result (IsClosedWalk graph.now.places) }
    ensures begins { IfOk result (λ walk. slice_index walk 0 ≡ slice_index path.now begin) }
{
    // With its length a graph says that it is sound, as every graph is.
    let _ = graph.len();
    let mut walk = Vec::from_slice(alloc, &path[begin..])?;
    for at in 0..begin {
        walk.push(path[at + 1])?;
    }
    Ok(Places::from_vec(walk))
}

impl<R: Representation> Graph<R> {
    /// Whether edits add or rewire a stage of the name of the one at a place.
    fn is_moved(&self, edits: &Edits, place: u32) -> bool
        ensures { result ≡ is_moved edits.now (stage_at self.now.places place) }
    {
        match self.stage(place) {
            Some(stage) => edits.moves(&stage.name),
            None => false,
        }
    }

    /// The closed walk, from a stage on it that edits add or rewire.
    pub(crate) fn new_cycle(
        &self,
        alloc: Global,
        edits: &Edits,
        path: &[u32],
    ) -> Result<Places, AllocError>
        requires closed { IsClosedWalk self.now.places path.now }
        requires moved { ((k : ℕ) → k < length path.now → is_moved edits.now (stage_at self.now.places (slice_index path.now k)) ≡ false) → ⊥ }
        ensures { IfOk result (IsNewCycle edits.now self.now.places) }
    {
        for begin in 0..path.len() {
            if self.is_moved(edits, path[begin]) {
                return turned(alloc, self, path, begin);
            }
        }
        unreachable!()
    }
}
