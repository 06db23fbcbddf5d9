//! The stage that completes last.
ghost use Rattle.std.specs.Prelude.{◌≡◌, ℕ, IfNone, IfSome, length};
ghost use Rattle.tried_changes.specs.Last.{IsLast, final_moment, final_of, later, later_of, latest_below, latest_of, single_of};

use propagate::StateRepresentation;
use version_store::{StageView, Version};

/// A stage that completes as late as any of those so far.
#[derive(Clone, Copy)]
struct Latest {
    place: u32,
    moment: u64,
    /// Whether no other one completes as late.
    is_alone: bool,
}

/// When a stage completes, if none depends on it.
fn final_of<R: StateRepresentation>(view: &StageView<'_, R>) -> Option<u64>
    ensures { result ≡ final_of view.now.version.now.graph view.now.place }
{
    if view.dependents().is_empty() {
        view.moment()
    } else {
        None
    }
}

/// The same of the stage at a place.
fn final_moment<R: StateRepresentation>(version: &Version<R>, place: u32) -> Option<u64>
    ensures { result ≡ final_moment version.now.graph place }
{
    match version.stage(place) {
        Some(view) => final_of(&view),
        None => None,
    }
}

/// The latest of a stage and one more.
fn later_of(latest: Latest, place: u32, moment: u64) -> Latest
    ensures { result ≡ later_of latest place moment }
{
    if latest.moment < moment {
        return Latest {
            place,
            moment,
            is_alone: true,
        };
    }
    if latest.moment == moment {
        return Latest {
            is_alone: false,
            ..latest
        };
    }
    latest
}

/// The latest, with one more that completes.
fn latest_of(latest: Option<Latest>, place: u32, moment: u64) -> Latest
    ensures { result ≡ latest_of latest place moment }
{
    match latest {
        Some(latest) => later_of(latest, place, moment),
        None => Latest {
            place,
            moment,
            is_alone: true,
        },
    }
}

/// The latest, with one more.
fn later(latest: Option<Latest>, place: u32, moment: Option<u64>) -> Option<Latest>
    ensures { result ≡ later latest place moment }
{
    match moment {
        Some(moment) => Some(latest_of(latest, place, moment)),
        None => latest,
    }
}

/// The latest of all stages on which none depends and which complete.
fn latest_of_all<R: StateRepresentation>(version: &Version<R>) -> Option<Latest>
    ensures { result ≡ latest_below (final_moment version.now.graph) (length version.now.graph.places) }
{
    let mut latest = None;
    for place in 0..version.graph().len() as u32 {
        latest = later(latest, place, final_moment(version, place));
    }
    latest
}

/// Where the latest stands, if no other one completes as late.
fn single_of(latest: Option<Latest>) -> Option<u32>
    ensures { result ≡ single_of latest }
{
    match latest {
        Some(latest) => {
            if latest.is_alone {
                Some(latest.place)
            } else {
                None
            }
        }
        None => None,
    }
}

/// The stage that completes last, of those on which none depends and which complete: the one that is later than all others.
pub fn last_stage<R: StateRepresentation>(version: &Version<R>) -> Option<u32>
    ensures last { IfSome result (IsLast (final_moment version.now.graph)) }
    ensures none { IfNone result ((place : ℕ) → ¬ (IsLast (final_moment version.now.graph) place)) }
{
    single_of(latest_of_all(version))
}
