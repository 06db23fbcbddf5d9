//! Where the exception that a stage holds arose.
ghost use Rattle.std.specs.Prelude.{◌≡◌, IfOk};
ghost use Rattle.stage_graph.specs.Plain.{IsLive};
ghost use Rattle.version_store.specs.Queries.{state_of};
ghost use Rattle.failure_origins.specs.Origins.{comes_from, origin_at, origin_by, AreOrigins};

use act_expr::Outcome;
use propagate::StateRepresentation;
use stage_graph::ranked_order;
use stage_ops::Done;
use std::alloc::{AllocError, Global};
use version_store::{NoStage, Version};

/// The origin that is known of a place; none where its stage holds no exception.
#[inline(always)]
pub(crate) fn origin_at(origins: &[Option<u32>], place: u32) -> Option<u32>
    ensures { result ≡ origin_at origins.now place }
{
    match origins.get(place as usize) {
        Some(origin) => *origin,
        None => None,
    }
}

/// Whether the stage at a place holds the exception of this origin.
pub(crate) fn comes_from(origins: &[Option<u32>], origin: u32, place: u32) -> bool
    ensures { result ≡ comes_from origins.now origin place }
{
    match origin_at(origins, place) {
        Some(known) => known == origin,
        None => false,
    }
}

/// The completion of a stage; none while it is pending.
fn done_at<R: StateRepresentation>(version: &Version<R>, place: u32) -> Option<Done>
    requires { IsLive version.now.graph.places place }
    ensures { result ≡ (state_of version.now.graph place).done }
{
    match version.state(place) {
        Ok(state) => state.done,
        Err(NoStage) => unreachable!(),
    }
}

/// The origin of the exception of a completion, where those of the sources are known: that of the source that is blamed,
/// or else the place itself.
fn origin_by(origins: &[Option<u32>], place: u32, done: &Option<Done>) -> Option<u32>
    ensures { result ≡ origin_by origins.now place done.now }
{
    let done = (*done)?;
    match done.outcome {
        Outcome::Value(_) => None,
        Outcome::Bare(_) | Outcome::Wrapped(_) => match done.from {
            Some(source) => origin_at(origins, source),
            None => Some(place),
        },
    }
}

/// The origin of the exception that the stage at each place holds, each found after those of its sources.
pub(crate) fn origins_of<R: StateRepresentation>(
    alloc: Global,
    version: &Version<R>,
) -> Result<Vec<Option<u32>>, AllocError>
    ensures { IfOk result (λ origins. AreOrigins version.now.graph origins.items) }
{
    let graph = version.graph();
    let order = ranked_order(alloc, graph)?;
    let mut origins = vec![in alloc; None; graph.len()]?;
    for place in order.as_slice() {
        let done = done_at(version, *place);
        let origin = origin_by(origins.as_slice(), *place, &done);
        origins[*place as usize] = origin;
    }
    Ok(origins)
}
