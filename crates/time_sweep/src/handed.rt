//! How much sooner the target completes where a stage that it waits for completes sooner: known where one path leads from the
//! stage to the target.
ghost use Rattle.std.specs.Prelude.{◌≡◌, ◌<◌, ◌==◌, ◌&&◌, ℕ, IfOk, IfSome, IsTrue, None, Some, is_some, length, not, replicate, slice_set, true};
ghost use Rattle.rank_order.specs.Lists.{is_among};
ghost use Rattle.stage_graph.specs.Plain.{feeds_at, IsLive};
ghost use Rattle.stage_ops.specs.Java.{java_step};
ghost use Rattle.stage_ops.specs.States.{state_at};
ghost use Rattle.propagate.specs.Reach.{has_read, AreStates};
ghost use Rattle.time_sweep.specs.HandedOn.{through, AreHandedOn, IsHandedOn};
ghost use Rattle.time_sweep.specs.Known.{rank_in, AreRanksFor, IsKnown};
ghost use Rattle.time_sweep.specs.Standing.{AreStanding};

use crate::completion::{dependents_of, reader_rank, stage_at};
use crate::hands_on::{HandedOn, of_reader};
use crate::known::reads_in;
use crate::standing::Standing;
use propagate::{KeptState, StateRepresentation};
use std::alloc::{AllocError, Global};
use version_store::Version;

/// Whether a stage has read a place, has a known rank, and is not the one at `reader`.
fn is_other_reader<R: StateRepresentation>(
    version: &Version<R>,
    before: &[KeptState],
    ranks: &[Option<u32>],
    standing: &[Option<Standing<'_>>],
    feed: u32,
    reader: u32,
    dependent: u32,
) -> bool
    requires feed { is_among feed (feeds_at version.now.graph.places dependent) ≡ true }
    requires standing { AreStanding version.now.graph.places ranks.now standing.now }
    ensures { result ≡ (not (dependent == reader) && (is_some (rank_in ranks.now dependent) && has_read version.now.graph.places (state_at before.now) feed dependent)) }
{
    if dependent == reader {
        return false;
    }
    reader_rank(version, before, ranks, standing, feed, dependent).is_some()
}

/// Whether no other stage with a known rank has read a place.
fn is_only_reader<R: StateRepresentation>(
    version: &Version<R>,
    before: &[KeptState],
    ranks: &[Option<u32>],
    standing: &[Option<Standing<'_>>],
    feed: u32,
    reader: u32,
) -> bool
    requires live { IsLive version.now.graph.places feed }
    requires known { IsKnown ranks.now feed }
    requires standing { AreStanding version.now.graph.places ranks.now standing.now }
    ensures { IsTrue result → (other : ℕ) → IsKnown ranks.now other → has_read version.now.graph.places (state_at before.now) feed other ≡ true → other ≡ reader }
{
    let dependents = dependents_of(version, ranks, standing, feed);
    for dependent in dependents {
        if is_other_reader(version, before, ranks, standing, feed, reader, *dependent) {
            return false;
        }
    }
    true
}

/// What the stage at a place hands on, where it is the only one that has read it.
fn handed_by<R: StateRepresentation>(
    version: &Version<R>,
    before: &[KeptState],
    ranks: &[Option<u32>],
    standing: &[Option<Standing<'_>>],
    target: u32,
    place: u32,
) -> Option<HandedOn>
    requires known { IsKnown ranks.now place }
    requires ranks { AreRanksFor version.now.graph.places target ranks.now }
    requires standing { AreStanding version.now.graph.places ranks.now standing.now }
    requires states { AreStates (java_step version.now.graph.mode) version.now.graph.places before.now }
    ensures { IfSome result (λ handed. IsHandedOn (java_step version.now.graph.mode) version.now.graph.places ranks.now handed.feed place handed.most) }
{
    // With it a graph says that no stage waits for itself, as in every version.
    let _ = version.graph();
    let stage = stage_at(version, ranks, standing, place)?;
    let handed = of_reader(stage, reads_in(before, place), before)?;
    if is_only_reader(version, before, ranks, standing, handed.feed, place) {
        Some(handed)
    } else {
        None
    }
}

/// How many ticks reach the target of those that a stage hands on; `later` says it of those that the next one completes sooner,
/// unless that is the target.
fn through(later: Option<u64>, own: u64) -> u64
    ensures { result ≡ through later own }
{
    match later {
        Some(later) => own.min(later),
        None => own,
    }
}

/// Nothing is known, of this many places.
fn nothing_known(alloc: Global, count: usize) -> Result<Vec<Option<u64>>, AllocError>
    ensures { IfOk result (λ handed. handed.items ≡ replicate count None) }
{
    vec![in alloc; None; count]
}

/// Knows of a place how many ticks reach the target.
fn know(handed: &mut Vec<Option<u64>>, place: u32, most: u64)
    requires { place < length handed.old.items }
    ensures { handed.new.items ≡ slice_set handed.old.items place (Some most) }
{
    handed[place as usize] = Some(most);
}

/// How many of the ticks that each place completes sooner reach the target, at most, where it is known: at each place from
/// which one path leads to the target, over the last of the feeds that each stage waits for.
pub(crate) fn handed_on<R: StateRepresentation>(
    alloc: Global,
    version: &Version<R>,
    before: &[KeptState],
    ranks: &[Option<u32>],
    standing: &[Option<Standing<'_>>],
    target: u32,
) -> Result<Vec<Option<u64>>, AllocError>
    requires ranks { AreRanksFor version.now.graph.places target ranks.now }
    requires standing { AreStanding version.now.graph.places ranks.now standing.now }
    requires states { AreStates (java_step version.now.graph.mode) version.now.graph.places before.now }
    ensures { IfOk result (λ handed. AreHandedOn (java_step version.now.graph.mode) version.now.graph.places ranks.now target handed.items) }
{
    let graph = version.graph();
    let count = graph.len();
    let mut handed = nothing_known(alloc, count)?;
    let mut place = target;
    let mut later = None;
    while let Some(last) = handed_by(version, before, ranks, standing, target, place) {
        let most = through(later, last.most);
        know(&mut handed, last.feed, most);
        place = last.feed;
        later = Some(most);
    }
    Ok(handed)
}
