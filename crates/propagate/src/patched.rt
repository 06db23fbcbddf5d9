//! Edits of a graph with its order and its states.
ghost use Rattle.std.specs.Prelude.{◌≡◌, ◌≤◌, ◌+◌, ◌^◌, IfOk, IfErr, OnOk, OnErr, Ok, Err, vec_len};
ghost use Rattle.stage_graph.specs.Changes.{changed, IsNewCycle, IsSettled};
ghost use Rattle.stage_graph.specs.Kept.{AreFirstDependents, IsChangeBy};
ghost use Rattle.stage_graph.specs.Walk.{IsRanked};
ghost use Rattle.rank_order.specs.Orders.{order_of};
ghost use Rattle.stage_ops.specs.Evaluation.{at};
ghost use Rattle.propagate.specs.Reach.{AreStates, StaysUntouched};
ghost use Rattle.propagate.specs.Patched.{touched_by, IsCountOf};

use crate::readers::dependents_of;
use crate::representation::StateRepresentation;
use crate::spread::propagate_change;
use crate::states::States;
use level_pool::{PoolFault, Runner};
use rank_order::{Order, PatchFault};
use share_tree::Held;
use stage_graph::{Edits, Fault, Graph};
use stage_ops::{Meter, StageOps};
use std::alloc::Global;
use std::marker::Sync;
use std::ops::Deref;

/// A graph with its own order and its own states.
#[derive(Clone, Copy)]
pub struct Old<'a, R: StateRepresentation> {
    pub graph: &'a Held<Graph<R>>,
    pub order: &'a Order<R>,
    pub states: &'a States<R>,
}

/// A graph with a list of edits applied, its order and its states.
#[derive(Drop)]
pub struct Patched<R: StateRepresentation> {
    pub graph: Held<Graph<R>>,
    pub order: Order<R>,
    pub states: States<R>,
    /// The stages that were computed, by rank and then by place.
    pub touched: Vec<u32>,
}

/// The dependents of the stage that the first edit names.
fn first_dependents<'a, R: StateRepresentation>(
    graph: &Graph<R>,
    order: &'a Order<R>,
    edits: &Edits,
) -> &'a [u32]
    requires { order.now.graph ≡ graph.now }
    ensures { AreFirstDependents graph.now.places edits.now result.now }
{
    let edits = edits.as_slice();
    match graph.id_of(edits[0].name().as_str()) {
        Some(place) => dependents_of(order, place),
        None => &[],
    }
}

/// The order of the changed graph, or the refusal of edits that close a cycle.
fn changed_order<R: StateRepresentation>(
    alloc: Global,
    old: &Old<'_, R>,
    graph: &Held<Graph<R>>,
    edits: &Edits,
) -> Result<Order<R>, Fault>
    requires ranked { IsRanked old.now.graph.now.places }
    requires change { IsChangeBy edits.now old.now.order.now.graph graph.now }
    ensures ranked { OnOk result (IsRanked graph.now.places) }
    ensures order { IfOk result (λ order. order ≡ order_of graph.now) }
    ensures fault { IfErr result (λ fault. IsSettled (IsNewCycle edits.now) (Err fault) (Ok graph.now)) }
{
    match old.order.patch(alloc, graph, edits) {
        Ok(order) => Ok(order),
        Err(PatchFault::Cycle(path)) => Err(Fault::Cycle(path)),
        Err(PatchFault::Memory) => Err(Fault::Memory),
    }
}

/// The graph that a list of edits makes, with its order and its states. The stages that the edits can reach are computed again, each
/// once, and no others: a stage is reached if an edit names it, or if it read one whose outcome, moment or blamed source changed.
///
/// Refused as [`Graph::apply`] is, or out of memory. The meter then stays, unless memory ran out after all checks had
/// passed: then it has risen by no more than the number of touched stages.
pub fn propagate<R: StateRepresentation, N: Sync, O: StageOps<N> + Sync, W: Runner>(
    alloc: Global,
    old: Old<'_, R>,
    edits: &Edits,
    ops: &O,
    runner: &W,
    meter: &mut Meter<N>,
) -> Result<Patched<R>, Fault>
    requires ranked { IsRanked old.graph.now.places }
    requires order { old.order.now.graph ≡ old.graph.now }
    requires states { AreStates (O.step ops.now old.graph.now.mode) old.graph.now.places old.states.now }
    requires room { meter.old ≤ 2 ^ 63 }
    ensures graph { IfOk result (λ patched. changed edits.now old.entry.graph.now ≡ Ok patched.graph) }
    ensures ranked { IfOk result (λ patched. IsRanked patched.graph.places) }
    ensures order { IfOk result (λ patched. patched.order.graph ≡ patched.graph) }
    // The states are those of evaluation from scratch.
    ensures states { IfOk result (λ patched. AreStates (O.step ops.now patched.graph.mode) patched.graph.places patched.states) }
    ensures touched { IfOk result (λ patched. patched.touched.items
        ≡ touched_by (O.step ops.now patched.graph.mode) edits.now old.entry.graph.now.places patched.graph.places) }
    // A stage that is not touched stays as it was, and keeps its state.
    ensures untouched { IfOk result (λ patched. StaysUntouched (at (O.step ops.now old.entry.graph.now.mode)) (at (O.step ops.now patched.graph.mode))
        old.entry.graph.now.places patched.graph.places patched.touched.items) }
    // One pass was taken for each touched stage.
    ensures counted { IfOk result (λ patched. meter.new ≡ meter.old + vec_len patched.touched) }
    ensures fault { IfErr result (λ fault. IsSettled (IsNewCycle edits.now) (Err fault) (changed edits.now old.entry.graph.now)) }
    ensures refused { OnErr result (IsCountOf (λ graph. touched_by (O.step ops.now graph.mode) edits.now old.entry.graph.now.places graph.places)
        (changed edits.now old.entry.graph.now) meter.old meter.new) }
{
    let before = old.graph.deref();
    let changed = match before.change_among(
        alloc,
        Some(first_dependents(before, old.order, edits)),
        edits,
    ) {
        Ok(changed) => changed,
        Err(fault) => return Err(fault),
    };
    // With their lengths the graphs say that they are sound, as every graph is.
    let _ = before.len();
    let _ = changed.len();
    let graph = Held::new(alloc, changed)?;
    let after = graph.deref();
    let order = match changed_order(alloc, &old, &graph, edits) {
        Ok(order) => order,
        Err(fault) => return Err(fault),
    };
    let edited = edits.edited_places(alloc, before, after)?;
    let places = edited.as_slice();
    match propagate_change(
        alloc, before, old.states, after, &order, places, ops, runner, meter,
    ) {
        Ok(reached) => Ok(Patched {
            graph,
            order,
            states: reached.states,
            touched: reached.touched,
        }),
        Err(PoolFault::Memory) => Err(Fault::Memory),
        Err(PoolFault::NoThread) => unreachable!(),
    }
}
