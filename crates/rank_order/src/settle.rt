//! Ranks under a change. The moved stages are removed, and put back one by one: each graph on the way is a
//! part of the changed one, so one of them has a cycle only if the changed one has. Each pass processes
//! places in the order of the ranks before, and continues only from those whose rank changes.
ghost use Rattle.std.specs.Prelude.{◌≡◌, ◌≢◌, ◌<◌, ◌≤◌, ◌&&◌, ◌||◌, not, true, false, ℕ, List, [], ◌∷◌, length, map, take, drop, All, Contains, slice_index, IfSome, IfNone, IfOk, IfErr, OnOk};
ghost use Rattle.stage_graph.specs.Plain.{all_places, dependents, feeds_at};
ghost use Rattle.stage_graph.specs.Walk.{above_all, rank, IsRanked};
ghost use Rattle.rank_order.specs.Lists.{is_among};
ghost use Rattle.rank_order.specs.Marks.{is_marked, AreMarks};
ghost use Rattle.rank_order.specs.Ranking.{feeds_left, AreRanks, AreRanksBut, AreTraced, IsStop, IsStopFault, IsCycleAmong};

use crate::among::is_among;
use crate::dependent_lists::dependents_at;
use crate::fault::PatchFault;
use crate::marks::Marks;
use crate::ranks::{rank_at, rank_by_feeds};
use share_tree::{Again, Held, Keeps};
use stage_graph::{Graph, Places, Representation};
use std::alloc::{AllocError, Global};

/// The rank of a place by those of its feeds, where the stages at some places are removed.
fn rank_left<R: Representation, K: Keeps<u32>>(
    ranks: &K,
    graph: &Graph<R>,
    out: &[u32],
    place: u32,
) -> u32
    requires { (place : ℕ) → slice_index (K.items ranks.now) place ≤ 2000000 }
    ensures { result ≡ above_all (slice_index (K.items ranks.now)) (feeds_left graph.now.places out.now place) }
{
    if is_among(place, out) {
        return 0;
    }
    rank_by_feeds(ranks, graph, place)
}

/// The first of these places whose rank has changed.
fn first_changed<K: Keeps<u32>>(before: &K, ranks: &K, places: &[u32]) -> Option<u32>
    ensures found { IfSome result (λ place. Contains places.now place × (slice_index (K.items ranks.now) place ≢ slice_index (K.items before.now) place)) }
    ensures none { IfNone result (All (λ place. slice_index (K.items ranks.now) place ≡ slice_index (K.items before.now) place) places.now) }
{
    for place in places {
        let rank = rank_at(ranks, *place);
        let was = rank_at(before, *place);
        if rank != was {
            return Some(*place);
        }
    }
    None
}

/// A feed of a place whose rank has changed.
fn changed_feed<R: Representation, K: Keeps<u32>>(
    before: &K,
    ranks: &K,
    graph: &Graph<R>,
    place: u32,
) -> u32
    requires { (feed : ℕ) × Contains (feeds_at graph.now.places place) feed × (slice_index (K.items ranks.now) feed ≢ slice_index (K.items before.now) feed) }
    ensures feed { Contains (feeds_at graph.now.places place) result }
    ensures changed { slice_index (K.items ranks.now) result ≢ slice_index (K.items before.now) result }
{
    let Some(stage) = graph.stage(place) else {
        unreachable!()
    };
    if let Some(feed) = first_changed(before, ranks, stage.sources.as_slice()) {
        return feed;
    }
    let Some(feed) = first_changed(before, ranks, stage.inner.as_slice()) else {
        unreachable!()
    };
    feed
}

/// The walk from a place to its feed `from`, and on to feeds whose ranks changed, up to a moved one.
fn walk_back<R: Representation, K: Keeps<u32>>(
    alloc: Global,
    graph: &Graph<R>,
    before: &K,
    ranks: &K,
    moved: &[u32],
    first: u32,
    from: u32,
) -> Result<Places, AllocError>
    requires traced { AreTraced moved.now (feeds_at graph.now.places) (slice_index (K.items before.now)) (slice_index (K.items ranks.now)) }
    requires feed { Contains (feeds_at graph.now.places first) from }
    requires changed { slice_index (K.items ranks.now) from ≢ slice_index (K.items before.now) from }
    requires first { is_among first moved.now ≡ true }
    ensures { IfOk result (λ path. (out : List ℕ) → is_among first out ≡ false → IsStop graph.now.places out moved.now path) }
{
    let mut path = Vec::new(alloc);
    path.push(first)?;
    path.push(from)?;
    let mut place = from;
    while !is_among(place, moved) {
        place = changed_feed(before, ranks, graph, place);
        path.push(place)?;
    }
    Ok(Places::from_vec(path))
}

/// The first of the dependents that is a moved place, and is not removed.
fn first_stop(its_dependents: &[u32], out: &[u32], moved: &[u32]) -> Option<u32>
    ensures found { IfSome result (λ dependent. (is_among dependent its_dependents.now ≡ true) × (is_among dependent out.now ≡ false) × (is_among dependent moved.now ≡ true)) }
    ensures none { IfNone result ((dependent : ℕ) → is_among dependent its_dependents.now ≡ true → is_among dependent out.now ≡ false → is_among dependent moved.now ≡ false) }
{
    for dependent in its_dependents {
        if !is_among(*dependent, out) && is_among(*dependent, moved) {
            return Some(*dependent);
        }
    }
    None
}

/// Marks the places that are not removed, by their ranks before. Of one that is marked the rank is not looked up.
fn mark_left<K: Keeps<u32>>(
    marks: &mut Marks,
    before: &K,
    places: &[u32],
    out: &[u32],
) -> Result<(), AllocError>
    requires marks { AreMarks (slice_index (K.items before.now)) marks.old }
    ensures marked { OnOk result ((place : ℕ) → is_marked (slice_index (K.items before.now)) marks.new place
        ≡ (is_marked (slice_index (K.items before.now)) marks.old place || (is_among place places.now && not (is_among place out.now)))) }
    ensures marks { OnOk result (AreMarks (slice_index (K.items before.now)) marks.new) }
{
    for place in places {
        if marks.has(*place) {
            continue;
        }
        if is_among(*place, out) {
            continue;
        }
        marks.add(rank_at(before, *place), *place)?;
    }
    Ok(())
}

/// The ranks of the graph without some stages, from ranks that may be wrong at the moved places.
fn settled<R: Representation, K: Keeps<u32>, L: Keeps<Held<Places>>>(
    alloc: Global,
    before: &K,
    kept: &L,
    graph: &Graph<R>,
    out: &[u32],
    moved: &[u32],
) -> Result<K, PatchFault>
    requires long { length (K.items before.now) ≡ length graph.now.places }
    requires small { (place : ℕ) → slice_index (K.items before.now) place ≤ length graph.now.places }
    requires right { AreRanksBut moved.now (feeds_left graph.now.places out.now) (slice_index (K.items before.now)) }
    requires moved { All (λ place. place < length graph.now.places) moved.now }
    requires dependents { L.items kept.now ≡ map (dependents graph.now.places) (all_places graph.now.places) }
    ensures long { IfOk result (λ ranks. length (K.items ranks) ≡ length graph.now.places) }
    ensures right { IfOk result (λ ranks. AreRanks (feeds_left graph.now.places out.now) (slice_index (K.items ranks))) }
    ensures fault { IfErr result (IsStopFault graph.now.places out.now moved.now) }
{
    let mut ranks = before.again()?;
    let mut marks = Marks::new(alloc);
    mark_left(&mut marks, before, moved, &[])?;
    for _turn in 0..graph.len() {
        let Some(place) = marks.pop_first() else {
            return Ok(ranks);
        };
        let rank = rank_left(&ranks, graph, out, place);
        let was = rank_at(before, place);
        if rank == was {
            continue;
        }
        ranks.write(place as usize, rank)?;
        let its_dependents = dependents_at(kept, place);
        if let Some(first) = first_stop(its_dependents, out, moved) {
            let path = walk_back(alloc, graph, before, &ranks, moved, first, place)?;
            return Err(PatchFault::Cycle(path));
        }
        mark_left(&mut marks, before, its_dependents, out)?;
    }
    Ok(ranks)
}

/// The ranks while all moved stages but the first are removed, which may be wrong at the first.
fn ranks_without<R: Representation, K: Keeps<u32>, L: Keeps<Held<Places>>>(
    alloc: Global,
    before: &K,
    kept: &L,
    graph: &Graph<R>,
    moved: &[u32],
) -> Result<K, PatchFault>
    requires long { length (K.items before.now) ≡ length graph.now.places }
    requires small { (place : ℕ) → slice_index (K.items before.now) place ≤ length graph.now.places }
    requires right { AreRanksBut moved.now (feeds_at graph.now.places) (slice_index (K.items before.now)) }
    requires moved { All (λ place. place < length graph.now.places) moved.now }
    requires dependents { L.items kept.now ≡ map (dependents graph.now.places) (all_places graph.now.places) }
    ensures long { IfOk result (λ ranks. length (K.items ranks) ≡ length graph.now.places) }
    ensures small { IfOk result (λ ranks. (place : ℕ) → slice_index (K.items ranks) place ≤ length graph.now.places) }
    ensures right { IfOk result (λ ranks. AreRanksBut (take 1 moved.now) (feeds_left graph.now.places (drop 1 moved.now)) (slice_index (K.items ranks))) }
    ensures fault { IfErr result (λ fault. fault ≡ PatchFault.Memory) }
{
    if moved.len() < 2 {
        return Ok(before.again()?);
    }
    match settled(alloc, before, kept, graph, moved, moved) {
        Ok(ranks) => Ok(ranks),
        Err(PatchFault::Memory) => Err(PatchFault::Memory),
        Err(PatchFault::Cycle(_)) => unreachable!(),
    }
}

/// The ranks of a changed graph, from those before the change.
pub(crate) fn patched_ranks<R: Representation, K: Keeps<u32>, L: Keeps<Held<Places>>>(
    alloc: Global,
    before: &K,
    kept: &L,
    graph: &Graph<R>,
    moved: &[u32],
) -> Result<K, PatchFault>
    requires long { length (K.items before.now) ≡ length graph.now.places }
    requires small { (place : ℕ) → slice_index (K.items before.now) place ≤ length graph.now.places }
    requires right { AreRanksBut moved.now (feeds_at graph.now.places) (slice_index (K.items before.now)) }
    requires moved { All (λ place. place < length graph.now.places) moved.now }
    requires dependents { L.items kept.now ≡ map (dependents graph.now.places) (all_places graph.now.places) }
    ensures ranked { OnOk result (IsRanked graph.now.places) }
    ensures ranks { IfOk result (λ ranks. K.items ranks ≡ map (rank graph.now.places) (all_places graph.now.places)) }
    ensures fault { IfErr result (IsCycleAmong graph.now.places moved.now) }
{
    let mut ranks = match ranks_without(alloc, before, kept, graph, moved) {
        Ok(ranks) => ranks,
        Err(fault) => return Err(fault),
    };
    for (turn, place) in moved.iter().enumerate() {
        let out = &moved[turn + 1..];
        ranks = match settled(alloc, &ranks, kept, graph, out, &[*place]) {
            Ok(ranks) => ranks,
            Err(fault) => return Err(fault),
        };
    }
    Ok(ranks)
}
