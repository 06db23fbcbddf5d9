//! Which feeds a stage has read.
ghost use Rattle.std.specs.Prelude.{◌≡◌, slice_get, true};
ghost use Rattle.std.specs.Option.{option_to_list};
ghost use Rattle.stage_graph.specs.Plain.{feeds_of};
ghost use Rattle.rank_order.specs.Lists.{is_among};
ghost use Rattle.propagate.specs.Reach.{read_places};

use rank_order::is_among;
use stage_graph::Stage;
use stage_ops::Reads;

/// Whether the place is the one of this index.
#[tactic(auto, using(crate::proofs::Members::picked_within, crate::proofs::Members::picked_past))]
#[inline(always)]
fn is_picked(place: u32, places: &[u32], index: u32) -> bool
    ensures { result ≡ is_among place (option_to_list (slice_get places.now index)) }
{
    (index as usize) < places.len() && place == places[index as usize]
}

/// How many sources are searched at once, without a look at the inner stages.
const FEW_SOURCES: usize = 4;

/// Whether a feed of a stage is a source of it. All feeds of a stage without inner stages are, so many sources are not searched then.
/// Few are: they lie beside what the stage is computed from next, and the inner stages don't.
#[tactic(auto, using(crate::proofs::Members::feed_is_source))]
#[inline(always)]
fn is_source(stage: &Stage, feed: u32) -> bool
    requires { is_among feed (feeds_of stage.now) ≡ true }
    ensures { result ≡ is_among feed stage.now.sources }
{
    if stage.sources.as_slice().len() <= FEW_SOURCES {
        return is_among(feed, stage.sources.as_slice());
    }
    stage.inner.as_slice().is_empty() || is_among(feed, stage.sources.as_slice())
}

/// Whether a stage whose state has these reads has read one of its feeds. Allocates nothing.
#[tactic(auto, using(crate::proofs::Members::among_append))]
#[inline(always)]
pub fn has_read(stage: &Stage, reads: Reads, feed: u32) -> bool
    requires { is_among feed (feeds_of stage.now) ≡ true }
    ensures { result ≡ is_among feed (read_places stage.now reads) }
{
    match reads {
        Reads::Nothing => false,
        Reads::Sources => is_source(stage, feed),
        Reads::Picked(index) => {
            is_source(stage, feed) || is_picked(feed, stage.inner.as_slice(), index)
        }
    }
}
