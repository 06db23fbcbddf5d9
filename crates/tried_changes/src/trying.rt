//! The version that changes make.
ghost use Rattle.std.specs.Prelude.{◌≡◌, ℕ, false, IfOk, IsOk, List};
ghost use Rattle.std.specs.List.{list_any};
ghost use Rattle.stage_graph.specs.Changes.{changed, moves};
ghost use Rattle.tried_changes.specs.Tried.{IsDrafted, IsTried};

use change_words::{Change, MakingFault, edits_of};
use level_pool::Runner;
use propagate::StateRepresentation;
use share_tree::Held;
use stage_graph::{Edits, Fault};
use std::alloc::{AllocError, Global};
use version_store::Version;

/// The version of number 1 that edits make which the graph takes and which move no stage.
fn drafted<R: StateRepresentation, W: Runner>(
    alloc: Global,
    version: &Version<R>,
    edits: &Held<Edits>,
    runner: &W,
) -> Result<Version<R>, AllocError>
    requires accepted { IsOk (changed edits.now version.now.graph) }
    requires unmoved { (name : List ℕ) → list_any (moves name) edits.now ≡ false }
    ensures { IfOk result (IsDrafted version.now edits.now) }
{
    match version.drafted(alloc, edits, runner) {
        Ok(draft) => draft.numbered(1),
        Err(Fault::Refused(_)) => unreachable!(),
        Err(Fault::Cycle(_)) => unreachable!(),
        Err(Fault::Memory) => Err(AllocError),
    }
}

/// The version of number 1 that changes make of a version, as one list of edits.
///
/// Errors: as [`edits_of`].
pub fn tried<R: StateRepresentation, W: Runner>(
    alloc: Global,
    version: &Version<R>,
    changes: &[Change],
    runner: &W,
) -> Result<Version<R>, MakingFault>
    ensures { IsTried version.now changes.now result }
{
    let edits = match edits_of(alloc, version.graph(), changes) {
        Ok(edits) => edits,
        Err(fault) => return Err(fault),
    };
    let edits = Held::new(alloc, edits)?;
    Ok(drafted(alloc, version, &edits, runner)?)
}
