//! The version that changes make one after the other.
ghost use Rattle.std.specs.Prelude.{◌∷◌};
ghost use Rattle.tried_changes.specs.InTurn.{IsMadeAlone, IsMadeFirst, IsMadeInTurn};

use crate::trying::tried;
use change_words::{Change, MakingFault};
use level_pool::Runner;
use propagate::StateRepresentation;
use std::alloc::Global;
use std::slice;
use version_store::Version;

/// The version that one change makes of another.
fn tried_alone<R: StateRepresentation, W: Runner>(
    alloc: Global,
    version: &Version<R>,
    change: &Change,
    runner: &W,
) -> Result<Version<R>, MakingFault>
    ensures { IsMadeAlone version.now.graph change.now result }
{
    tried(alloc, version, slice::from_ref(change), runner)
}

/// The version that a first change and then others make of one.
fn tried_first<R: StateRepresentation, W: Runner>(
    alloc: Global,
    version: &Version<R>,
    first: &Change,
    others: &[Change],
    runner: &W,
) -> Result<Version<R>, MakingFault>
    ensures { IsMadeFirst version.now.graph (first.now ∷ others.now) result }
{
    let mut made = match tried_alone(alloc, version, first, runner) {
        Ok(made) => made,
        Err(fault) => return Err(fault),
    };
    for change in others {
        made = match tried_alone(alloc, &made, change, runner) {
            Ok(next) => next,
            Err(fault) => return Err(fault),
        };
    }
    Ok(made)
}

/// The version that changes make of one, each of the graph as the former ones leave it; none where there is no change. They may be
/// more than the edits of a list.
///
/// Errors: as of [`tried`] for the first change that makes no edits; the index is among that change's own edits.
pub fn tried_in_turn<R: StateRepresentation, W: Runner>(
    alloc: Global,
    version: &Version<R>,
    changes: &[Change],
    runner: &W,
) -> Result<Option<Version<R>>, MakingFault>
    ensures { IsMadeInTurn version.now.graph changes.now result }
{
    match changes.split_first() {
        Some((first, others)) => match tried_first(alloc, version, first, others, runner) {
            Ok(made) => Ok(Some(made)),
            Err(fault) => Err(fault),
        },
        None => Ok(None),
    }
}
