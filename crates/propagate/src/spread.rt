//! The states of a changed graph, from those of the graph before.
ghost use Rattle.std.specs.Prelude.{◌≡◌, ◌<◌, ◌≤◌, ◌+◌, ◌^◌, IfOk, IfErr, OnErr, All, length, vec_len};
ghost use Rattle.act_expr.specs.declared.outcome.Mode.{Mode};
ghost use Rattle.stage_graph.specs.Sound.{IsSound};
ghost use Rattle.stage_graph.specs.Walk.{IsRanked};
ghost use Rattle.stage_ops.specs.Evaluation.{ReadsDecide, IsSoon, at};
ghost use Rattle.level_pool.specs.declared.fault.PoolFault.TheVariants.{Memory};
ghost use Rattle.rank_order.specs.Lists.{is_among};
ghost use Rattle.propagate.specs.Reach.{IsChange, AreStates, StaysUntouched, touched};

use crate::levels::compute_level;
use crate::readers::{first_marks, mark_level};
use crate::representation::StateRepresentation;
use crate::states::States;
use crate::telling::Telling;
use level_pool::{PoolFault, Runner};
use rank_order::Order;
use stage_graph::Graph;
use stage_ops::{Meter, StageOps};
use std::alloc::Global;
use std::marker::Sync;

/// The states of a changed graph, and the stages that were computed for them.
#[derive(Drop)]
pub(crate) struct Reached<R: StateRepresentation> {
    pub(crate) states: States<R>,
    pub(crate) touched: Vec<u32>,
}

/// The laws of the operations.
fn laws<N, O: StageOps<N>>(_ops: &O)
    ensures reads_decide { (mode : Mode) → ReadsDecide (O.step _ops.now mode) }
    ensures soon { (mode : Mode) → IsSoon (O.step _ops.now mode) }
{}

/// The states of a graph from those of the graph before, which differs from it only at the edited places. Each touched stage is
/// computed once, and no other: level by level, one rank after the other.
pub(crate) fn propagate_change<R: StateRepresentation, N: Sync, O: StageOps<N> + Sync, W: Runner>(
    alloc: Global,
    old: &Graph<R>,
    old_states: &States<R>,
    graph: &Graph<R>,
    order: &Order<R>,
    edited: &[u32],
    ops: &O,
    runner: &W,
    meter: &mut Meter<N>,
) -> Result<Reached<R>, PoolFault>
    requires old_ranked { IsRanked old.now.places }
    requires old_sound { IsSound old.now }
    requires ranked { IsRanked graph.now.places }
    requires sound { IsSound graph.now }
    requires mode { graph.now.mode ≡ old.now.mode }
    requires change { IsChange old.now.places graph.now.places (λ place. is_among place edited.now) }
    requires within { All (λ place. place < length graph.now.places) edited.now }
    requires order { order.now.graph ≡ graph.now }
    requires states { AreStates (O.step ops.now graph.now.mode) old.now.places old_states.now }
    requires room { meter.old ≤ 2 ^ 63 }
    // The states are those of evaluation from scratch.
    ensures states { IfOk result (λ reached. AreStates (O.step ops.now graph.now.mode) graph.now.places reached.states) }
    // The computed stages are the touched ones, in their order, and each was computed once.
    ensures touched { IfOk result (λ reached. reached.touched.items
        ≡ touched (O.step ops.now graph.now.mode) old.now.places graph.now.places (λ place. is_among place edited.now)) }
    // All others keep their states.
    ensures untouched { IfOk result (λ reached. StaysUntouched (at (O.step ops.now graph.now.mode)) (at (O.step ops.now graph.now.mode))
        old.now.places graph.now.places reached.touched.items) }
    ensures counted { IfOk result (λ reached. meter.new ≡ meter.old + vec_len reached.touched) }
    ensures refused { OnErr result ((meter.old ≤ meter.new) × (meter.new
        ≤ meter.old + length (touched (O.step ops.now graph.now.mode) old.now.places graph.now.places (λ place. is_among place edited.now)))) }
    ensures fault { IfErr result (λ fault. fault ≡ Memory) }
{
    laws::<N, O>(ops);
    let mut states = old_states.prepared(alloc, graph, edited)?;
    let mut marks = first_marks(alloc, order, edited)?;
    let mut touched = Vec::new(alloc);
    let mut taken = Vec::new(alloc);
    let mut passes = Vec::new(alloc);
    let mut telling = Telling::new(alloc);
    while !marks.is_empty() {
        marks.take_level(&mut taken)?;
        let level = taken.as_slice();
        let mut results = compute_level(
            alloc,
            runner,
            graph,
            level,
            ops,
            meter,
            &mut passes,
            &states,
        )?;
        mark_level(
            &mut marks,
            &mut telling,
            graph,
            order,
            &states,
            level,
            results.as_slice(),
        )?;
        states.write_level(level, results.as_mut_slice())?;
        touched.extend_from_slice(level)?;
    }
    Ok(Reached { states, touched })
}
