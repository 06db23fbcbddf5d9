//! The lists of each origin: one pass over the places in order adds each place to the lists where it belongs.
ghost use Rattle.std.specs.Prelude.{◌≡◌, ◌↔◌, ◌<◌, ◌≤◌, ◌+◌, ◌-◌, ◌∷◌, ◌++◌, [], ℕ, Bool, List, IsTrue, false, if◌then◌else◌, length, slice_get, slice_index, IfOk, OnOk};
ghost use Rattle.rank_order.specs.Lists.{is_among};
ghost use Rattle.propagate.specs.Reach.{read_places};
ghost use Rattle.failure_origins.specs.Origins.{AreWithin};
ghost use Rattle.failure_origins.specs.Lists.{handles_after, handles_by, is_reached_by, list_at, AreLists, AreListsWith};

use crate::origins::{comes_from, origin_at};
use propagate::StateRepresentation;
use stage_graph::{Places, Stage};
use stage_ops::Reads;
use std::alloc::{AllocError, Global};
use version_store::Version;

/// This many lists without places.
fn empty_lists(alloc: Global, count: usize) -> Result<Vec<Places>, AllocError>
    ensures long { IfOk result (λ lists. length lists.items ≡ count) }
    ensures empty { IfOk result (λ lists. (origin : ℕ) → list_at lists.items origin ≡ []) }
{
    let mut lists = Vec::with_capacity(alloc, count)?;
    for _origin in 0..count {
        lists.push(Places::new(alloc))?;
    }
    Ok(lists)
}

/// Whether the last of the places is this one.
fn ends_with(places: &[u32], place: u32) -> bool
    ensures { IsTrue result ↔ (0 < length places.now) × (slice_index places.now (length places.now - 1) ≡ place) }
{
    match places.last() {
        Some(last) => *last == place,
        None => false,
    }
}

/// Adds a place at the end, unless it is the last already.
fn add_once(places: &mut Places, place: u32) -> Result<(), AllocError>
    ensures { OnOk result ((front : List ℕ) (stands : Bool) → is_among place front ≡ false
        → places.old ≡ front ++ (if stands then place ∷ [] else []) → places.new ≡ front ++ place ∷ []) }
{
    if !ends_with(places.as_slice(), place) {
        places.push(place)?;
    }
    Ok(())
}

/// Adds a place to the list of the origin whose exception it holds, unless it is the origin itself.
fn add_reached(
    reached: &mut Vec<Places>,
    origins: &[Option<u32>],
    place: u32,
) -> Result<(), AllocError>
    requires { AreWithin origins.now (length reached.old.items) }
    ensures long { OnOk result (length reached.new.items ≡ length reached.old.items) }
    ensures lists { OnOk result ((count : ℕ) → AreLists (is_reached_by origins.now) place count reached.old.items
        → AreLists (is_reached_by origins.now) (place + 1) count reached.new.items) }
{
    let Some(origin) = origin_at(origins, place) else {
        return Ok(());
    };
    if origin == place {
        return Ok(());
    }
    reached[origin as usize].push(place)
}

/// For each origin the other places that hold its exception.
pub(crate) fn reached_lists(
    alloc: Global,
    origins: &[Option<u32>],
) -> Result<Vec<Places>, AllocError>
    requires few { length origins.now ≤ 65536 }
    requires within { AreWithin origins.now (length origins.now) }
    ensures { IfOk result (λ lists. AreLists (is_reached_by origins.now) (length origins.now) (length origins.now) lists.items) }
{
    let mut reached = empty_lists(alloc, origins.len())?;
    for place in 0..origins.len() as u32 {
        add_reached(&mut reached, origins, place)?;
    }
    Ok(reached)
}

/// Adds a place to the list of the origin of a feed that it has read, unless it holds that exception itself.
fn add_for_feed(
    handled: &mut Vec<Places>,
    origins: &[Option<u32>],
    feed: u32,
    place: u32,
) -> Result<(), AllocError>
    requires { AreWithin origins.now (length handled.old.items) }
    ensures long { OnOk result (length handled.new.items ≡ length handled.old.items) }
    ensures lists { OnOk result ((passes : ℕ → ℕ → Bool) (count : ℕ) (read : List ℕ)
        → AreListsWith passes place (handles_after origins.now read place) count handled.old.items
        → AreListsWith passes place (handles_after origins.now (read ++ feed ∷ []) place) count handled.new.items) }
{
    let Some(origin) = origin_at(origins, feed) else {
        return Ok(());
    };
    if comes_from(origins, origin, place) {
        return Ok(());
    }
    add_once(&mut handled[origin as usize], place)
}

/// Adds a place for each of these feeds, which it has read.
fn add_for_each(
    handled: &mut Vec<Places>,
    origins: &[Option<u32>],
    feeds: &[u32],
    place: u32,
) -> Result<(), AllocError>
    requires { AreWithin origins.now (length handled.old.items) }
    ensures long { OnOk result (length handled.new.items ≡ length handled.old.items) }
    ensures lists { OnOk result ((passes : ℕ → ℕ → Bool) (count : ℕ)
        → AreListsWith passes place (handles_after origins.now [] place) count handled.old.items
        → AreListsWith passes place (handles_after origins.now feeds.now place) count handled.new.items) }
{
    for feed in feeds {
        add_for_feed(handled, origins, *feed, place)?;
    }
    Ok(())
}

/// The place of an index, if there is one.
fn picked(places: &[u32], index: u32) -> Option<u32>
    ensures { result ≡ slice_get places.now index }
{
    match places.get(index as usize) {
        Some(place) => Some(*place),
        None => None,
    }
}

/// Adds a stage for each feed that it has read.
fn add_stage(
    handled: &mut Vec<Places>,
    origins: &[Option<u32>],
    stage: &Stage,
    reads: Reads,
    place: u32,
) -> Result<(), AllocError>
    requires { AreWithin origins.now (length handled.old.items) }
    ensures long { OnOk result (length handled.new.items ≡ length handled.old.items) }
    ensures lists { OnOk result ((passes : ℕ → ℕ → Bool) (count : ℕ)
        → AreListsWith passes place (handles_after origins.now [] place) count handled.old.items
        → AreListsWith passes place (handles_after origins.now (read_places stage.now reads) place) count handled.new.items) }
{
    match reads {
        Reads::Nothing => Ok(()),
        Reads::Sources => add_for_each(handled, origins, stage.sources.as_slice(), place),
        Reads::Picked(index) => {
            add_for_each(handled, origins, stage.sources.as_slice(), place)?;
            match picked(stage.inner.as_slice(), index) {
                Some(feed) => add_for_feed(handled, origins, feed, place),
                None => Ok(()),
            }
        }
    }
}

/// Adds the stage at a place to the lists of the origins whose exceptions it has read and does not hold.
fn add_handled<R: StateRepresentation>(
    handled: &mut Vec<Places>,
    version: &Version<R>,
    origins: &[Option<u32>],
    place: u32,
) -> Result<(), AllocError>
    requires { AreWithin origins.now (length handled.old.items) }
    ensures long { OnOk result (length handled.new.items ≡ length handled.old.items) }
    ensures lists { OnOk result ((count : ℕ) → AreLists (handles_by version.now.graph origins.now) place count handled.old.items
        → AreLists (handles_by version.now.graph origins.now) (place + 1) count handled.new.items) }
{
    match version.stage(place) {
        Some(view) => {
            let reads = view.state().reads;
            add_stage(handled, origins, view.stage, reads, place)
        }
        None => Ok(()),
    }
}

/// For each origin the places that have read its exception and do not hold it.
pub(crate) fn handled_lists<R: StateRepresentation>(
    alloc: Global,
    version: &Version<R>,
    origins: &[Option<u32>],
) -> Result<Vec<Places>, AllocError>
    requires few { length origins.now ≤ 65536 }
    requires within { AreWithin origins.now (length origins.now) }
    ensures { IfOk result (λ lists. AreLists (handles_by version.now.graph origins.now) (length origins.now) (length origins.now) lists.items) }
{
    let mut handled = empty_lists(alloc, origins.len())?;
    for place in 0..origins.len() as u32 {
        add_handled(&mut handled, version, origins, place)?;
    }
    Ok(handled)
}
