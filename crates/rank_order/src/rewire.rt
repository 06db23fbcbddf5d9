//! Dependents under a change: only the lists of the feeds that the moved places had or have are processed.
ghost use Rattle.std.specs.Prelude.{◌≡◌, ◌<◌, ◌≤◌, ◌∷◌, ◌++◌, true, false, ℕ, Bool, nat_lt, if◌then◌else◌, [], length, map, filter, All, slice_index_or, slice_set, IfOk, OnOk};
ghost use Rattle.stage_graph.specs.Plain.{all_places, dependents, feeds_of, feeds_at};
ghost use Rattle.rank_order.specs.Lists.{is_among};
ghost use Rattle.rank_order.specs.DependentLists.{AreDependentLists, with_dependent, with_moved};

use crate::dependent_lists::dependents_at;
use crate::lists::grown;
use share_tree::{Held, Keeps};
use stage_graph::{Graph, Places, Representation};
use std::alloc::{AllocError, Global};

/// The places before one.
fn earlier(alloc: Global, places: &[u32], place: u32) -> Result<Vec<u32>, AllocError>
    ensures { IfOk result (λ earlier. earlier.items ≡ filter (λ other. nat_lt other place) places.now) }
{
    places
        .iter()
        .copied()
        .filter(|other| *other < place)
        .collect(alloc)
}

/// Adds a place, if it is to be included.
fn add_wanted(list: &mut Vec<u32>, place: u32, wanted: bool) -> Result<(), AllocError>
    ensures { OnOk result (list.new.items ≡ list.old.items ++ (if wanted then place ∷ [] else [])) }
{
    if wanted {
        list.push(place)?;
    }
    Ok(())
}

/// Adds the places after one.
fn add_later(list: &mut Vec<u32>, places: &[u32], place: u32) -> Result<(), AllocError>
    ensures { OnOk result (list.new.items ≡ list.old.items ++ filter (λ other. nat_lt place other) places.now) }
{
    for other in places {
        if place < *other {
            list.push(*other)?;
        }
    }
    Ok(())
}

/// The dependents with a place among them, in order, or without it.
fn with_dependent(
    alloc: Global,
    its_dependents: &[u32],
    place: u32,
    is_dependent: bool,
) -> Result<Vec<u32>, AllocError>
    ensures { IfOk result (λ changed. changed.items ≡ with_dependent place is_dependent its_dependents.now) }
{
    let mut changed = earlier(alloc, its_dependents, place)?;
    add_wanted(&mut changed, place, is_dependent)?;
    add_later(&mut changed, its_dependents, place)?;
    Ok(changed)
}

/// Sets the list of a feed, so that one place is among its dependents, or is not.
fn set_dependent<K: Keeps<Held<Places>>>(
    alloc: Global,
    lists: &mut K,
    feed: u32,
    place: u32,
    is_dependent: bool,
) -> Result<(), AllocError>
    requires { feed < length (K.items lists.old) }
    ensures { OnOk result (K.items lists.new ≡ slice_set (K.items lists.old) feed (with_dependent place is_dependent (slice_index_or (K.items lists.old) feed []))) }
{
    let its_dependents = with_dependent(alloc, dependents_at(lists, feed), place, is_dependent)?;
    let its_dependents = Held::new(alloc, Places::from_vec(its_dependents))?;
    lists.write(feed as usize, its_dependents)
}

/// Adds the feeds of what stands at a place.
fn add_feeds<R: Representation>(
    feeds: &mut Vec<u32>,
    graph: &Graph<R>,
    place: u32,
) -> Result<(), AllocError>
    ensures added { OnOk result (feeds.new.items ≡ feeds.old.items ++ feeds_at graph.now.places place) }
    ensures within { All (λ feed. feed < length graph.now.places) (feeds_at graph.now.places place) }
{
    if let Some(stage) = graph.stage(place) {
        feeds.extend_from_slice(stage.sources.as_slice())?;
        feeds.extend_from_slice(stage.inner.as_slice())?;
    }
    Ok(())
}

/// Whether a place is among the feeds of what stands at another.
fn has_feed<R: Representation>(graph: &Graph<R>, place: u32, feed: u32) -> bool
    ensures { result ≡ is_among feed (feeds_at graph.now.places place) }
{
    match graph.stage(place) {
        Some(stage) => stage.has_feed(feed),
        None => false,
    }
}

/// The feeds of what stands at a place before and after a change.
fn feeds_of_both<R: Representation>(
    alloc: Global,
    old: &Graph<R>,
    changed: &Graph<R>,
    place: u32,
) -> Result<Vec<u32>, AllocError>
    requires { length old.now.places ≤ length changed.now.places }
    ensures feeds { IfOk result (λ feeds. feeds.items ≡ feeds_at old.now.places place ++ feeds_at changed.now.places place) }
    ensures within { IfOk result (λ feeds. All (λ feed. feed < length changed.now.places) feeds.items) }
{
    let mut feeds = Vec::new(alloc);
    add_feeds(&mut feeds, old, place)?;
    add_feeds(&mut feeds, changed, place)?;
    Ok(feeds)
}

/// Moves a place from the lists of its old feeds to those of its new ones.
fn move_dependent<R: Representation, K: Keeps<Held<Places>>>(
    alloc: Global,
    lists: &mut K,
    old: &Graph<R>,
    changed: &Graph<R>,
    place: u32,
) -> Result<(), AllocError>
    requires longer { length old.now.places ≤ length changed.now.places }
    requires long { length (K.items lists.old) ≡ length changed.now.places }
    ensures long { OnOk result (length (K.items lists.new) ≡ length changed.now.places) }
    ensures its_dependents { OnOk result ((uses : ℕ → ℕ → Bool) → ((feed : ℕ) → uses feed place ≡ true → is_among feed (feeds_at old.now.places place ++ feeds_at changed.now.places place) ≡ true)
        → AreDependentLists uses (length changed.now.places) (K.items lists.old) → AreDependentLists (with_moved uses place (feeds_at changed.now.places place)) (length changed.now.places) (K.items lists.new)) }
{
    let feeds = feeds_of_both(alloc, old, changed, place)?;
    for feed in &feeds {
        let is_dependent = has_feed(changed, place, *feed);
        set_dependent(alloc, lists, *feed, place, is_dependent)?;
    }
    Ok(())
}

/// The dependents of each place after a change, from those before it.
pub(crate) fn patched_dependents<R: Representation, K: Keeps<Held<Places>>>(
    alloc: Global,
    kept: &K,
    old: &Graph<R>,
    changed: &Graph<R>,
    moved: &[u32],
) -> Result<K, AllocError>
    requires longer { length old.now.places ≤ length changed.now.places }
    requires elsewhere { (place : ℕ) → is_among place moved.now ≡ false → feeds_at changed.now.places place ≡ feeds_at old.now.places place }
    requires dependents { K.items kept.now ≡ map (dependents old.now.places) (all_places old.now.places) }
    ensures { IfOk result (λ lists. K.items lists ≡ map (dependents changed.now.places) (all_places changed.now.places)) }
{
    // With its length a graph says that it is sound, as every graph is.
    let _ = old.len();
    let none = Held::new(alloc, Places::from_vec(Vec::new(alloc)))?;
    let mut lists = grown(kept, &none, changed.len())?;
    for place in moved {
        move_dependent(alloc, &mut lists, old, changed, *place)?;
    }
    Ok(lists)
}
