//! The stages of one rank, computed together by a runner.
ghost use Rattle.std.specs.Prelude.{◌≡◌, ◌<◌, ◌≤◌, ◌+◌, ◌^◌, ◌↔◌, IfOk, IfErr, OnOk, OnErr, length, map, slice_index_or, Some, IfSome, IsSome, IsTrue};
ghost use Rattle.std.specs.List.{All, Contains};
ghost use Rattle.stage_graph.specs.Plain.{stage_at, IsLive};
ghost use Rattle.stage_ops.specs.States.{state_at, seen_of, IsBy};
ghost use Rattle.level_pool.specs.declared.fault.PoolFault.TheVariants.{Memory};
ghost use Rattle.propagate.specs.Reach.{come_to, Climbs};

use crate::kept::KeptState;
use crate::representation::StateRepresentation;
use crate::states::States;
use level_pool::{PoolFault, Runner};
use share_tree::Held;
use stage_graph::Graph;
use stage_ops::{Meter, Pass, StageOps};
use std::alloc::{AllocError, Global};
use std::marker::{Send, Sync};

/// Fills a list with one pass for each place, in the places' order.
#[inline(always)]
fn take_passes<N>(
    meter: &mut Meter<N>,
    level: &[u32],
    passes: &mut Vec<Pass<N>>,
) -> Result<(), AllocError>
    requires { meter.old + length level.now < 2 ^ 64 }
    ensures places { OnOk result (passes.new.items ≡ level.now) }
    ensures counted { OnOk result (meter.new ≡ meter.old + length level.now) }
    ensures refused { OnErr result ((meter.old ≤ meter.new) × (meter.new ≤ meter.old + length level.now)) }
{
    passes.clear();
    passes.reserve(level.len())?;
    for place in level {
        passes.push(meter.pass(*place))?;
    }
    Ok(())
}

/// The pass of this place, among those of a level, found by a binary search.
fn searched_pass<'a, N>(level: &[u32], passes: &'a [Pass<N>], place: u32) -> &'a Pass<N>
    requires climbs { Climbs level.now }
    requires here { Contains level.now place }
    requires passes { passes.now ≡ level.now }
    ensures { result.now ≡ place }
{
    match level.binary_search(&place) {
        Ok(at) => &passes[at],
        Err(_) => unreachable!(),
    }
}

/// The pass of this place, among those of a level. Where each place up to it is the next one after the one before, as where a whole
/// layer is computed, it stands as far from the first one as their numbers differ, and is not searched for.
#[inline(always)]
fn pass_at<'a, N>(level: &[u32], passes: &'a [Pass<N>], place: u32) -> &'a Pass<N>
    requires climbs { Climbs level.now }
    requires here { Contains level.now place }
    requires passes { passes.now ≡ level.now }
    ensures { result.now ≡ place }
{
    let ahead = place.wrapping_sub(level[0]) as usize;
    match level.get(ahead) {
        Some(other) if *other == place => &passes[ahead],
        _ => searched_pass(level, passes, place),
    }
}

/// The state of the stage at a place of a level, computed by its pass, as lists store it; none where memory lacks. So no list of whole
/// states is made: a state is some 200 bytes, most of them for the name of an exception, and what is stored of one is mostly a value.
#[inline(always)]
fn compute_at<R: StateRepresentation, N, O: StageOps<N>>(
    alloc: Global,
    graph: &Graph<R>,
    level: &[u32],
    passes: &[Pass<N>],
    ops: &O,
    states: &States<R>,
    place: u32,
) -> Option<Held<KeptState>>
    requires climbs { Climbs level.now }
    requires here { Contains level.now place }
    requires live { All (IsLive graph.now.places) level.now }
    requires passes { passes.now ≡ level.now }
    requires count { length states.now ≡ length graph.now.places }
    requires moments { All (λ state. IsBy (2 ^ 62) (seen_of state)) states.now }
    ensures { IfSome result (λ kept. kept ≡ come_to (O.step ops.now graph.now.mode) (stage_at graph.now.places place) (state_at states.now)) }
{
    let Some(stage) = graph.stage(place) else {
        unreachable!()
    };
    let state = ops.compute(graph.mode(), stage, pass_at(level, passes, place), states);
    let kept = KeptState::new(alloc, &state).ok()?;
    Held::new(alloc, kept).ok()
}

/// Whether no state is missing.
fn are_whole(results: &[Option<Held<KeptState>>]) -> bool
    ensures { IsTrue result ↔ All IsSome results.now }
{
    results.iter().all(|kept| kept.is_some())
}

/// The states of the stages of a level, each computed from the states before the level, by a pass of its own; none is missing. The
/// passes take the place of those of the level before.
pub(crate) fn compute_level<R: StateRepresentation, N: Sync, O: StageOps<N> + Sync, W: Runner>(
    alloc: Global,
    runner: &W,
    graph: &Graph<R>,
    level: &[u32],
    ops: &O,
    meter: &mut Meter<N>,
    passes: &mut Vec<Pass<N>>,
    states: &States<R>,
) -> Result<Vec<Option<Held<KeptState>>>, PoolFault>
    requires climbs { Climbs level.now }
    requires live { All (IsLive graph.now.places) level.now }
    requires count { length states.now ≡ length graph.now.places }
    requires moments { All (λ state. IsBy (2 ^ 62) (seen_of state)) states.now }
    requires room { meter.old + length level.now < 2 ^ 64 }
    ensures states { IfOk result (λ results. results.items
        ≡ map (λ place. Some (come_to (O.step ops.now graph.now.mode) (stage_at graph.now.places place) (state_at states.now))) level.now) }
    ensures counted { OnOk result (meter.new ≡ meter.old + length level.now) }
    ensures refused { OnErr result ((meter.old ≤ meter.new) × (meter.new ≤ meter.old + length level.now)) }
    ensures fault { IfErr result (λ fault. fault ≡ Memory) }
{
    take_passes(meter, level, passes)?;
    let passes = passes.as_slice();
    let results = runner.run(
        alloc,
        level,
        &|place: u32| -> Option<Held<KeptState>>
            requires { Climbs level.now × Contains level.now place × All (IsLive graph.now.places) level.now
                × (passes.now ≡ level.now) × (length states.now ≡ length graph.now.places)
                × All (λ state. IsBy (2 ^ 62) (seen_of state)) states.now }
            ensures { IfSome result (λ kept. kept ≡ come_to (O.step ops.entry.now graph.entry.now.mode) (stage_at graph.entry.now.places place) (state_at states.entry.now)) }
        { compute_at(alloc, graph, level, passes, ops, states, place) },
    )?;
    if are_whole(results.as_slice()) {
        Ok(results)
    } else {
        Err(PoolFault::Memory)
    }
}
