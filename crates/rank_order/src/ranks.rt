//! Ranks in a list, and the rank of a place by those of its feeds.
ghost use Rattle.std.specs.Prelude.{◌≡◌, ℕ, ◌≤◌, slice_index};
ghost use Rattle.stage_graph.specs.Plain.{feeds_at};
ghost use Rattle.stage_graph.specs.Walk.{above_all};

use share_tree::Keeps;
use stage_graph::{Graph, Representation};

/// The entry of a list of ranks at a place, and 0 past its end.
#[tactic(auto, using(crate::proofs::Setting::read_none))]
#[inline(always)]
pub(crate) fn rank_at<K: Keeps<u32>>(ranks: &K, place: u32) -> u32
    ensures { result ≡ slice_index (K.items ranks.now) place }
{
    match ranks.get(place as usize) {
        Some(rank) => *rank,
        None => 0,
    }
}

/// 1 above the greatest rank of these feeds, and 0 of none.
fn above<K: Keeps<u32>>(ranks: &K, feeds: &[u32]) -> u32
    requires { (place : ℕ) → slice_index (K.items ranks.now) place ≤ 2000000 }
    ensures { result ≡ above_all (slice_index (K.items ranks.now)) feeds.now }
{
    let mut above = 0;
    for feed in feeds {
        above = above.max(rank_at(ranks, *feed) + 1);
    }
    above
}

/// The rank of a place, by those of its feeds.
pub(crate) fn rank_by_feeds<R: Representation, K: Keeps<u32>>(
    ranks: &K,
    graph: &Graph<R>,
    place: u32,
) -> u32
    requires { (place : ℕ) → slice_index (K.items ranks.now) place ≤ 2000000 }
    ensures { result ≡ above_all (slice_index (K.items ranks.now)) (feeds_at graph.now.places place) }
{
    let Some(stage) = graph.stage(place) else {
        return 0;
    };
    above(ranks, stage.sources.as_slice()).max(above(ranks, stage.inner.as_slice()))
}
