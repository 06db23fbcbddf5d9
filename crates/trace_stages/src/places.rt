//! What stands at the places of spans.
ghost use Rattle.std.specs.Prelude.{◌≡◌};
ghost use Rattle.trace_relations.specs.Ancestry.{parent_at};
ghost use Rattle.trace_relations.specs.Moments.{interval_at};

use trace_relations::Interval;

/// The parent of the span at a place.
pub(crate) fn parent_at(parents: &[Option<usize>], place: usize) -> Option<usize>
    ensures { result ≡ parent_at parents.now place }
{
    match parents.get(place) {
        Some(parent) => *parent,
        None => None,
    }
}

/// The interval of the span at a place.
pub(crate) fn interval_at(intervals: &[Interval], place: usize) -> Interval
    ensures { result ≡ interval_at intervals.now place }
{
    match intervals.get(place) {
        Some(interval) => *interval,
        None => Interval {
            start: 0,
            end: None,
        },
    }
}
