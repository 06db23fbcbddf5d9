//! What stands at the places that the target can wait for, and maybe at others: looked up in the version once for all trials.
ghost use Rattle.std.specs.Prelude.{◌≡◌, IfOk, slice_index_or, None};
ghost use Rattle.stage_graph.specs.Plain.{IsLive};
ghost use Rattle.time_sweep.specs.Known.{AreRanksFor, IsKnown};
ghost use Rattle.time_sweep.specs.Standing.{AreStanding, IsStanding};

use crate::known::known_rank;
use propagate::StateRepresentation;
use stage_graph::Stage;
use std::alloc::{AllocError, Global};
use version_store::{NoStage, Version};

/// A stage, and the places of its dependents.
#[derive(Clone, Copy)]
pub(crate) struct Standing<'a> {
    pub(crate) stage: &'a Stage,
    pub(crate) dependents: &'a [u32],
}

/// What stands at a place.
fn looked_up<R: StateRepresentation>(version: &Version<R>, place: u32) -> Option<Standing<'_>>
    requires { IsLive version.now.graph.places place }
    ensures { IsStanding version.now.graph.places place result }
{
    let graph = version.graph();
    match (graph.stage(place), version.dependents(place)) {
        (Some(stage), Ok(dependents)) => Some(Standing { stage, dependents }),
        (None, _) | (_, Err(NoStage)) => unreachable!(),
    }
}

/// What stands at a place, if its rank is known.
fn found_at<'a, R: StateRepresentation>(
    version: &'a Version<R>,
    ranks: &[Option<u32>],
    target: u32,
    place: u32,
) -> Option<Standing<'a>>
    requires { AreRanksFor version.now.graph.places target ranks.now }
    ensures { IsKnown ranks.now place → IsStanding version.now.graph.places place result }
{
    match known_rank(ranks, place) {
        Some(_) => looked_up(version, place),
        None => None,
    }
}

/// What stands at each place whose rank is known. A trial goes from stage to stage: each look into the version would go down its trees.
pub(crate) fn standing_of<'a, R: StateRepresentation>(
    alloc: Global,
    version: &'a Version<R>,
    ranks: &[Option<u32>],
    target: u32,
) -> Result<Vec<Option<Standing<'a>>>, AllocError>
    requires { AreRanksFor version.now.graph.places target ranks.now }
    ensures { IfOk result (λ standing. AreStanding version.now.graph.places ranks.now standing.items) }
{
    let count = version.graph().len();
    let mut standing = Vec::with_capacity(alloc, count)?;
    for place in 0..count as u32 {
        standing.push(found_at(version, ranks, target, place))?;
    }
    Ok(standing)
}

/// What was found to stand at a place.
#[inline(always)]
pub(crate) fn standing_at<'a>(standing: &[Option<Standing<'a>>], place: u32) -> Option<Standing<'a>>
    ensures { result ≡ slice_index_or standing.now place None }
{
    match standing.get(place as usize) {
        Some(one) => *one,
        None => None,
    }
}
