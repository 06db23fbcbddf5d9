//! The stages that a target can wait for.
ghost use Rattle.std.specs.Prelude.{◌≡◌, ◌↔◌, IfOk, None, filter, is_some};
ghost use Rattle.std.specs.List.{range_with_len};
ghost use Rattle.stage_graph.specs.Plain.{stage_at};
ghost use Rattle.time_sweep.specs.Known.{rank_in};
ghost use Rattle.time_sweep.specs.Waits.{waited_for};

use crate::ancestors::exact_ranks;
use crate::known::known_rank;
use propagate::StateRepresentation;
use std::alloc::{AllocError, Global};
use version_store::{QueryFault, Version};

/// The places whose ranks are known, in order.
fn known_places(alloc: Global, ranks: &[Option<u32>], count: u32) -> Result<Vec<u32>, AllocError>
    ensures { IfOk result (λ places. places.items ≡ filter (λ place. is_some (rank_in ranks.now place)) (range_with_len 0 count)) }
{
    let mut places = Vec::new(alloc);
    for place in 0..count {
        if known_rank(ranks, place).is_some() {
            places.push(place)?;
        }
    }
    Ok(places)
}

/// The places of the stages that a target can wait for, in order: its own, those of its feeds, of their feeds, and so on.
///
/// Errors: `NoStage` where the target is not live; `Memory`.
pub fn waited_for<R: StateRepresentation>(
    alloc: Global,
    version: &Version<R>,
    target: u32,
) -> Result<Vec<u32>, QueryFault>
    ensures places { IfOk result (λ places. places.items ≡ waited_for version.now.graph.places target) }
    ensures no_stage { (result ≡ Err QueryFault.NoStage) ↔ (stage_at version.now.graph.places target ≡ None) }
{
    let graph = version.graph();
    if graph.stage(target).is_none() {
        return Err(QueryFault::NoStage);
    }
    let count = graph.len();
    let ranks = exact_ranks(alloc, version, target)?;
    let places = known_places(alloc, ranks.as_slice(), count as u32)?;
    Ok(places)
}
