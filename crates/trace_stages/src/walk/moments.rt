//! The moments of a trace, in order.
ghost use Rattle.std.specs.Prelude.{◌≡◌, IfOk};
ghost use Rattle.trace_stages.specs.Moments.{AreMoments, all_moments};

use std::alloc::{AllocError, Global};
use trace_relations::{Interval, Turn};

/// A tick and a turn at it, and which span starts or ends then: its start and its place.
pub(crate) type At = ((u64, u8), (u64, usize));

/// The starts and the ends of spans.
fn all_moments(alloc: Global, intervals: &[Interval]) -> Result<Vec<At>, AllocError>
    ensures { IfOk result (λ moments. moments.items ≡ all_moments intervals.now) }
{
    let mut moments = Vec::with_capacity(alloc, intervals.len().saturating_mul(2))?;
    for (place, interval) in intervals.iter().enumerate() {
        let start = interval.start;
        moments.push(((start, Turn::Starts.number()), (start, place)))?;
        if let Some(end) = interval.end_moment() {
            moments.push(((end.tick, end.turn.number()), (start, place)))?;
        }
    }
    Ok(moments)
}

/// The starts and the ends of spans, in order.
pub(crate) fn moments(alloc: Global, intervals: &[Interval]) -> Result<Vec<At>, AllocError>
    ensures { IfOk result (λ moments. AreMoments intervals.now moments.items) }
{
    let mut moments = all_moments(alloc, intervals)?;
    moments.sort_unstable();
    Ok(moments)
}
