//! Spans by their starts.
ghost use Rattle.std.specs.Prelude.{◌≡◌, IfOk, map};
ghost use Rattle.trace_relations.specs.ByStart.{AreByStart, AreSorted, all_starts};

use crate::moment::Interval;
use std::alloc::{AllocError, Global};

/// The start of a span, and its place.
pub(crate) type StartAt = (u64, usize);

/// The starts of spans.
fn all_starts(alloc: Global, intervals: &[Interval]) -> Result<Vec<StartAt>, AllocError>
    ensures { IfOk result (λ starts. starts.items ≡ all_starts intervals.now) }
{
    let mut starts = Vec::with_capacity(alloc, intervals.len())?;
    for (place, interval) in intervals.iter().enumerate() {
        starts.push((interval.start, place))?;
    }
    Ok(starts)
}

/// The starts of spans, in order.
fn sorted_starts(alloc: Global, intervals: &[Interval]) -> Result<Vec<StartAt>, AllocError>
    ensures { IfOk result (λ starts. AreSorted intervals.now starts.items) }
{
    let mut starts = all_starts(alloc, intervals)?;
    starts.sort_unstable();
    Ok(starts)
}

/// The places of starts.
fn places_of(alloc: Global, starts: &[StartAt]) -> Result<Vec<usize>, AllocError>
    ensures { IfOk result (λ places. places.items ≡ map (λ start. start.1) starts.now) }
{
    let mut places = Vec::with_capacity(alloc, starts.len())?;
    for (_start, place) in starts {
        places.push(*place)?;
    }
    Ok(places)
}

/// The places of spans by their starts; of those at one tick, by their order in the file.
pub fn by_start(alloc: Global, intervals: &[Interval]) -> Result<Vec<usize>, AllocError>
    ensures { IfOk result (λ places. AreByStart intervals.now places.items) }
{
    let starts = sorted_starts(alloc, intervals)?;
    places_of(alloc, &starts)
}
