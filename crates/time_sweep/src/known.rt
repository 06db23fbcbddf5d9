//! The states of a version, and the ranks and what else is known, in lists by place.
ghost use Rattle.std.specs.Prelude.{◌≡◌, IfOk, slice_index_or, None};
ghost use Rattle.stage_ops.specs.Java.{java_step};
ghost use Rattle.propagate.specs.Reach.{AreStates};
ghost use Rattle.stage_ops.specs.States.{state_at};
ghost use Rattle.version_store.specs.Queries.{state_of};
ghost use Rattle.time_sweep.specs.HandedOn.{handed_at};

use propagate::{KeptState, StateRepresentation};
use stage_ops::{Done, Reads, State};
use std::alloc::{AllocError, Global};
use version_store::{NoStage, Version};

/// The state of a place: pending where no stage stands.
fn state_at<R: StateRepresentation>(version: &Version<R>, place: u32) -> State
    ensures { result ≡ state_of version.now.graph place }
{
    match version.state(place) {
        Ok(state) => state,
        Err(NoStage) => State::PENDING,
    }
}

/// The states of all places.
pub(crate) fn states_of<R: StateRepresentation>(
    alloc: Global,
    version: &Version<R>,
) -> Result<Vec<KeptState>, AllocError>
    ensures { IfOk result (λ states. AreStates (java_step version.now.graph.mode) version.now.graph.places states.items) }
{
    let graph = version.graph();
    let count = graph.len();
    let mut states = Vec::with_capacity(alloc, count)?;
    for place in 0..count as u32 {
        states.push(KeptState::new(alloc, &state_at(version, place))?)?;
    }
    Ok(states)
}

/// The rank of a place, where it is known.
#[inline(always)]
pub(crate) fn known_rank(ranks: &[Option<u32>], place: u32) -> Option<u32>
    ensures { result ≡ slice_index_or ranks.now place None }
{
    match ranks.get(place as usize) {
        Some(rank) => *rank,
        None => None,
    }
}

/// What the stage at a place has read.
#[inline(always)]
pub(crate) fn reads_in(states: &[KeptState], place: u32) -> Reads
    ensures { result ≡ (state_at states.now place).reads }
{
    match states.get(place as usize) {
        Some(state) => state.reads(),
        None => Reads::Nothing,
    }
}

/// How the stage at a place completes by these states.
pub(crate) fn done_in(states: &[KeptState], place: u32) -> Option<Done>
    ensures { result ≡ (state_at states.now place).done }
{
    match states.get(place as usize) {
        Some(state) => state.state().done,
        None => None,
    }
}

/// How many of the ticks that the stage at a place completes sooner reach the target, at most, where it is known.
#[inline(always)]
pub(crate) fn handed_at(handed: &[Option<u64>], place: u32) -> Option<u64>
    ensures { result ≡ handed_at handed.now place }
{
    match handed.get(place as usize) {
        Some(most) => *most,
        None => None,
    }
}
