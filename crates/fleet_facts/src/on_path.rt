//! What a group did on the path of a reply.
ghost use Rattle.std.specs.Prelude.{◌≡◌};
ghost use Rattle.std.specs.List.{list_any};
ghost use Rattle.span_groups.specs.Grouping.{counts_to};
ghost use Rattle.fleet_facts.specs.OnPath.{queued_at, queued_on, ran_at, ran_on};

use propagate::StateRepresentation;
use span_groups::{Counted, counts_to};
use stage_graph::NoStage;
use version_store::Version;

/// What the stages of a group did on a path.
#[derive(Clone, Copy, Debug, PartialEq, Eq)]
pub(crate) struct PathShare {
    /// Whether one of them is on the path.
    pub(crate) is_on_path: bool,
    /// The ticks in which they ran.
    pub(crate) ran: u64,
    /// The ticks in which they were queued.
    pub(crate) queued: u64,
}

/// How many ticks the action of a stage ran and was queued since the cause of the stage's state.
#[derive(Clone, Copy, Debug, PartialEq, Eq)]
struct OwnTicks {
    ran: u64,
    queued: u64,
}

/// Those of the stage at a place.
fn own_ticks<R: StateRepresentation>(version: &Version<R>, place: u32) -> OwnTicks
    ensures ran { result.ran ≡ ran_at version.now.graph place }
    ensures queued { result.queued ≡ queued_at version.now.graph place }
{
    match version.reason(place) {
        Ok(reason) => OwnTicks {
            ran: reason.ran,
            queued: reason.queued,
        },
        Err(NoStage) => OwnTicks { ran: 0, queued: 0 },
    }
}

/// What the stages of a group did on a path.
pub(crate) fn share_of<R: StateRepresentation>(
    version: &Version<R>,
    stages: &[Option<Counted>],
    group: usize,
    path: &[u32],
) -> PathShare
    ensures on_path { result.is_on_path ≡ list_any (counts_to stages.now group) path.now }
    ensures ran { result.ran ≡ ran_on version.now.graph stages.now group path.now }
    ensures queued { result.queued ≡ queued_on version.now.graph stages.now group path.now }
{
    let mut share = PathShare {
        is_on_path: false,
        ran: 0,
        queued: 0,
    };
    for place in path {
        if counts_to(stages, group, *place) {
            let own = own_ticks(version, *place);
            share.is_on_path = true;
            share.ran = share.ran.saturating_add(own.ran);
            share.queued = share.queued.saturating_add(own.queued);
        }
    }
    share
}
