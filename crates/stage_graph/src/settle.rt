//! Loading and editing, with the check for cycles.
ghost use Rattle.std.specs.Prelude.{◌≡◌};
ghost use Rattle.stage_graph.specs.Order.{IsClosedWalk};
ghost use Rattle.stage_graph.specs.Walk.{IsRanked};
ghost use Rattle.stage_graph.specs.Loading.{loaded};
ghost use Rattle.stage_graph.specs.Changes.{changed, IsSettled, IsNewCycle};

use crate::edit::Edits;
use crate::fault::Fault;
use crate::graph::Graph;
use crate::order::{OrderFault, feeds_first};
use crate::representation::Representation;
use crate::stage::Specs;
use act_expr::Mode;
use std::alloc::Global;

impl<R: Representation> Graph<R> {
    /// The graph that a list of stages makes, of which each stands at its index.
    ///
    /// The stages are checked one after the other, and the first refusal has the place of its stage. The
    /// feeds may be any stages of the list. `Cycle` comes last, with a walk that ends where it began.
    pub fn load(alloc: Global, mode: Mode, specs: &Specs) -> Result<Graph<R>, Fault>
        ensures { IsSettled IsClosedWalk result (loaded mode specs.now) }
    {
        let graph = match Graph::of_specs(alloc, mode, specs.as_slice()) {
            Ok(graph) => graph,
            Err(fault) => return Err(fault),
        };
        match feeds_first(alloc, &graph) {
            Ok(_) => Ok(graph),
            Err(OrderFault::Cycle(walk)) => Err(Fault::Cycle(walk)),
            Err(OrderFault::Memory) => Err(Fault::Memory),
        }
    }

    /// The graph that a list of edits makes. This graph stays as it is.
    ///
    /// The refusals are those of [`Graph::change`], and then `Cycle`, checked once on the last graph: a cycle
    /// that a later edit of the list opens again is accepted. Its path is a walk that begins and ends at a stage
    /// which the list adds or rewires.
    pub fn apply(&self, alloc: Global, edits: &Edits) -> Result<Graph<R>, Fault>
        requires { IsRanked self.now.places }
        ensures { IsSettled (IsNewCycle edits.now) result (changed edits.now self.now) }
    {
        let graph = match self.change(alloc, edits) {
            Ok(graph) => graph,
            Err(fault) => return Err(fault),
        };
        match feeds_first(alloc, &graph) {
            Ok(_) => Ok(graph),
            Err(OrderFault::Cycle(walk)) => {
                let path = graph.new_cycle(alloc, edits, walk.as_slice())?;
                Err(Fault::Cycle(path))
            }
            Err(OrderFault::Memory) => Err(Fault::Memory),
        }
    }
}
