//! The ticks of spans: how many units after the earliest time of their trace.
ghost use Rattle.std.specs.Prelude.{◌≡◌, IfOk, option_and_then};
ghost use Rattle.std.specs.Int.{int_gap};
ghost use Rattle.trace_relations.specs.Reads.{IsToldAs};
ghost use Rattle.trace_relations.specs.Ticks.{earlier, earliest_time, first_span, interval_between, interval_if, intervals_of, is_late, tick_if, too_late};

use crate::fault::{Late, RelationsFault, SpanName};
use crate::moment::Interval;
use crate::times::Times;
use crate::unit::Unit;
use std::alloc::{AllocError, Global};
use trace_spans::Span;

/// The last tick that a span may have.
const LAST_TICK: u64 = 1_099_511_627_776;

/// The earlier of two times, of which each may be unknown.
fn earlier(first: Option<i128>, second: Option<i128>) -> Option<i128>
    ensures { result ≡ earlier first second }
{
    match (first, second) {
        (Some(first), Some(second)) => Some(first.min(second)),
        (None, time) => time,
        (time, None) => time,
    }
}

/// The earliest time of spans, or the first of them that tells none.
#[tactic(auto, unfolding(crate::specs::Ticks::earliest_time))]
pub(crate) fn earliest_time(
    alloc: Global,
    spans: &[Span],
    times: &[Times],
) -> Result<i128, RelationsFault>
    ensures { IsToldAs (λ time. time) result (earliest_time spans.now times.now) }
{
    let mut earliest = None;
    for (span, of_span) in spans.iter().zip(times) {
        let time = earlier(of_span.start, of_span.end);
        if time.is_none() {
            return Err(RelationsFault::NoTime(SpanName::of(alloc, span)?));
        }
        earliest = earlier(earliest, time);
    }
    Ok(earliest.unwrap_or(0))
}

/// How many nanoseconds a time is after another.
fn nanoseconds_after(origin: i128, time: i128) -> u128
    ensures { result ≡ int_gap origin time }
{
    if origin < time {
        time.abs_diff(origin)
    } else {
        0
    }
}

/// The tick of a time in a trace that begins at another, if it isn't too late.
#[tactic(auto, unfolding(crate::specs::Ticks::tick_of))]
fn tick_of(unit: Unit, origin: i128, time: i128) -> Option<u64>
    ensures { result ≡ tick_if unit origin time }
{
    let ticks = nanoseconds_after(origin, time) / u128::from(unit.nanoseconds());
    if ticks <= u128::from(LAST_TICK) {
        Some(ticks as u64)
    } else {
        None
    }
}

/// The tick of a time, if it is told and isn't too late.
fn told_tick(unit: Unit, origin: i128, time: Option<i128>) -> Option<u64>
    ensures { result ≡ option_and_then (tick_if unit origin) time }
{
    match time {
        Some(time) => tick_of(unit, origin, time),
        None => None,
    }
}

/// The interval from one tick to another, of which either may be unknown.
fn interval_between(start: Option<u64>, end: Option<u64>) -> Interval
    ensures { result ≡ interval_between start end }
{
    match (start, end) {
        (Some(start), Some(end)) => Interval {
            start: start.min(end),
            end: Some(end),
        },
        (Some(start), None) => Interval { start, end: None },
        (None, Some(end)) => Interval {
            start: end,
            end: Some(end),
        },
        (None, None) => Interval {
            start: 0,
            end: None,
        },
    }
}

/// Whether a time has too late a tick.
fn is_late(unit: Unit, origin: i128, time: Option<i128>) -> bool
    ensures { result ≡ is_late unit origin time }
{
    match time {
        Some(time) => tick_of(unit, origin, time).is_none(),
        None => false,
    }
}

/// The ticks of the times of a span, unless one is too late.
#[tactic(auto, unfolding(crate::specs::Ticks::interval_of))]
fn interval_of(unit: Unit, origin: i128, times: Times) -> Option<Interval>
    ensures { result ≡ interval_if unit origin times }
{
    if is_late(unit, origin, times.start) || is_late(unit, origin, times.end) {
        return None;
    }
    let start = told_tick(unit, origin, times.start);
    let end = told_tick(unit, origin, times.end);
    Some(interval_between(start, end))
}

/// The first span whose earliest time is the earliest of all; a span itself where none is.
fn first_span<'a>(origin: i128, spans: &'a [Span], times: &[Times], span: &'a Span) -> &'a Span
    ensures { result.now ≡ first_span origin spans.now times.now span.now }
{
    for (other, of_other) in spans.iter().zip(times) {
        if earlier(of_other.start, of_other.end) == Some(origin) {
            return other;
        }
    }
    span
}

/// That a span is too late in a trace that begins at a time.
fn too_late(
    alloc: Global,
    origin: i128,
    spans: &[Span],
    times: &[Times],
    span: &Span,
) -> Result<RelationsFault, AllocError>
    ensures { IfOk result (λ fault. fault ≡ too_late origin spans.now times.now span.now) }
{
    Ok(RelationsFault::TooLate(Late {
        span: SpanName::of(alloc, span)?,
        first: SpanName::of(alloc, first_span(origin, spans, times, span))?,
    }))
}

/// The ticks of spans, or the first that is too late.
pub(crate) fn intervals_of(
    alloc: Global,
    unit: Unit,
    origin: i128,
    spans: &[Span],
    times: &[Times],
) -> Result<Vec<Interval>, RelationsFault>
    ensures { IsToldAs (λ intervals. intervals.items) result (intervals_of unit origin spans.now times.now) }
{
    let mut intervals = Vec::with_capacity(alloc, spans.len())?;
    for (span, of_span) in spans.iter().zip(times) {
        match interval_of(unit, origin, *of_span) {
            Some(interval) => intervals.push(interval).map_err(AllocError::from)?,
            None => return Err(too_late(alloc, origin, spans, times, span)?),
        }
    }
    Ok(intervals)
}
