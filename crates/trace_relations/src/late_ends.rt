//! Ends that are a little later than those of callers.
ghost use Rattle.std.specs.Prelude.{◌≡◌, IfOk};
ghost use Rattle.trace_relations.specs.LateEnds.{end_of_caller, is_a_little_late, with_callers_end, with_callers_ends};

use crate::calls::is_message;
use crate::moment::{Interval, interval_at};
use crate::references::References;
use crate::waits::caller_named;
use std::alloc::{AllocError, Global};
use trace_spans::Span;

/// An end that was taken to be the caller's.
#[derive(Clone, Copy, PartialEq, Eq, Debug)]
pub struct LateEnd {
    /// The span whose end it is.
    pub span: usize,
    /// By how many ticks it was later.
    pub by: u64,
}

/// Whether a span that starts inside its caller outlives it, by at most a tenth of its own length.
fn is_a_little_late(interval: Interval, caller: Interval) -> bool
    ensures { result ≡ is_a_little_late interval caller }
{
    let (Some(end), Some(callers_end)) = (interval.end, caller.end) else {
        return false;
    };
    caller.start <= interval.start
        && interval.start <= callers_end
        && callers_end < end
        && end - callers_end <= (end - interval.start) / 10
}

/// The end of the caller that did not fail, which a span outlives by a little.
fn end_of_caller(
    spans: &[Span],
    references: &[References],
    intervals: &[Interval],
    place: usize,
) -> Option<u64>
    ensures { result ≡ end_of_caller spans.now references.now intervals.now place }
{
    let caller = caller_named(references, place)?;
    let (span, calling) = (spans.get(place)?, spans.get(caller)?);
    let callers = interval_at(intervals, caller);
    if !calling.failed
        && !is_message(calling, span)
        && is_a_little_late(interval_at(intervals, place), callers)
    {
        callers.end
    } else {
        None
    }
}

/// Takes the end of a span to be its caller's, if it is a little later.
fn end_with_caller(
    spans: &[Span],
    references: &[References],
    intervals: &mut [Interval],
    place: usize,
) -> Option<LateEnd>
    ensures { intervals.new ≡ with_callers_end spans.now references.now intervals.old place }
{
    let callers_end = end_of_caller(spans, references, intervals, place)?;
    let Interval { start, end } = interval_at(intervals, place);
    let late = LateEnd {
        span: place,
        by: end.unwrap_or(callers_end).saturating_sub(callers_end),
    };
    if place < intervals.len() {
        intervals[place] = Interval {
            start,
            end: Some(callers_end),
        };
    }
    Some(late)
}

/// Takes the ends of spans that are a little later than those of their callers to be these, in the order of starts, so
/// that the end of a caller is known before those of its calls.
pub(crate) fn end_with_callers(
    alloc: Global,
    spans: &[Span],
    references: &[References],
    order: &[usize],
    intervals: &mut [Interval],
) -> Result<Vec<LateEnd>, AllocError>
    ensures { IfOk result (λ late. intervals.new ≡ with_callers_ends spans.now references.now order.now intervals.old) }
{
    let mut late = Vec::new(alloc);
    for place in order {
        if let Some(end) = end_with_caller(spans, references, intervals, *place) {
            late.push(end)?;
        }
    }
    Ok(late)
}
