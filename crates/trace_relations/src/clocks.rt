//! What spans and their callers say of each other's clocks.
ghost use Rattle.std.specs.Prelude.{◌≡◌, ◌<◌, ◌+◌, ◌++◌, ◌^◌, ◌-ℤ◌, ◌&&◌, [], ◌∷◌, ℕ, List, All, IfOk, IfSome, OnOk, Some, true, if◌then◌else◌, length, map, nat_le, pos, slice_get, unwrap_or};
ghost use Rattle.std.specs.List.{list_any, position_from};
ghost use Rattle.std.specs.Option.{option_to_list};
ghost use Rattle.trace_relations.specs.ClockNumbers.{AreClocks, all_pairs, clock_at};
ghost use Rattle.trace_relations.specs.Clocks.{clock_of, end_after, is_whole, pair_between, pair_of, pair_with, same_clock};
ghost use Rattle.trace_relations.specs.KeptMoves.{HasClocks, IsAtMost, IsPairAmong};
ghost use Rattle.trace_relations.specs.Parents.{all_references};
ghost use Rattle.trace_spans.specs.declared.span.Span.{Span};

use crate::calls::is_message;
use crate::key::push_texts;
use crate::references::References;
use crate::waits::caller_named;
use std::alloc::{AllocError, Global};
use std::collections::HashMap;
use trace_spans::Span;

/// What a span and its caller say of their clocks, each known by the first span that has it.
#[derive(Clone, Copy, PartialEq, Eq, Debug)]
pub(crate) struct Pair {
    pub caller: usize,
    pub called: usize,
    /// By how many nanoseconds the clock of the span is to be moved against the caller's at least, and at most.
    pub least: i128,
    pub most: Option<i128>,
}

/// By how many nanoseconds a clock is to be moved at least, and at most.
#[derive(Clone, Copy, PartialEq, Eq, Debug)]
pub(crate) struct Range {
    pub low: Option<i128>,
    pub high: Option<i128>,
}

/// The clock of a span: the number of the first that has it, which is noted.
fn clock_of(
    alloc: Global,
    known: &mut HashMap<String, usize>,
    place: usize,
    span: &Span,
) -> Result<usize, AllocError>
    ensures found { (before : List Span) → HasClocks known.old before → place ≡ length before → IfOk result (λ clock. clock ≡ unwrap_or (position_from (same_clock span.now) 0 before) place) }
    ensures known { (before : List Span) → HasClocks known.old before → place ≡ length before → OnOk result (HasClocks known.new (before ++ span.now ∷ [])) }
{
    let mut key = String::new(alloc);
    push_texts(&mut key, span.clock.parts())?;
    if let Some(first) = known.get(key.as_str()) {
        return Ok(*first);
    }
    known.insert(key, place)?;
    Ok(place)
}

/// The clock of the last of spans, whose clocks these are, if another span has it too.
///
/// The spans of one resource stand together, so most have the clock of the one before.
fn clock_before(before: &[Span], clocks: &[usize], span: &Span) -> Option<usize>
    ensures { (all : List Span) → clocks.now ≡ map (clock_of all) before.now → IfSome result (λ clock. (clock ≡ clock_of all span.now) × (list_any (same_clock span.now) before.now ≡ true)) }
{
    let count = before.len();
    if count == 0 {
        return None;
    }
    let last = count - 1;
    if !before[last].clock.same(&span.clock) {
        return None;
    }
    match clocks.get(last) {
        Some(clock) => Some(*clock),
        None => None,
    }
}

/// The clock of a span that comes after others, whose clocks these are.
fn next_clock(
    alloc: Global,
    known: &mut HashMap<String, usize>,
    before: &[Span],
    clocks: &[usize],
    span: &Span,
) -> Result<usize, AllocError>
    ensures clock { (all rest : List Span) → all ≡ before.now ++ span.now ∷ rest → clocks.now ≡ map (clock_of all) before.now → HasClocks known.old before.now → IfOk result (λ clock. clock ≡ clock_of all span.now) }
    ensures known { (all : List Span) → clocks.now ≡ map (clock_of all) before.now → HasClocks known.old before.now → OnOk result (HasClocks known.new (before.now ++ span.now ∷ [])) }
{
    match clock_before(before, clocks, span) {
        Some(clock) => Ok(clock),
        None => {
            let clock = clock_of(alloc, known, before.len(), span)?;
            Ok(clock)
        }
    }
}

/// The clock of each span: the first span that has it.
pub(crate) fn clocks_of(alloc: Global, spans: &[Span]) -> Result<Vec<usize>, AllocError>
    ensures { IfOk result (λ clocks. AreClocks spans.now clocks.items) }
{
    let mut known = HashMap::new(alloc);
    let mut clocks = Vec::with_capacity(alloc, spans.len())?;
    for (place, span) in spans.iter().enumerate() {
        let clock = next_clock(alloc, &mut known, &spans[..place], &clocks, span)?;
        clocks.push(clock)?;
    }
    Ok(clocks)
}

/// Whether a span ended no earlier than it started, and lasted at most as long as its caller.
fn lasts_within(caller_start: u64, caller_end: u64, start: u64, end: u64) -> bool
    ensures { result ≡ (nat_le start end && nat_le (end + caller_start) (caller_end + start)) }
{
    start <= end
        && u128::from(end) + u128::from(caller_start) <= u128::from(caller_end) + u128::from(start)
}

/// Whether a span lay inside its caller: neither is a message, the caller did not fail, and both ended, the span after at
/// most as long a time.
fn is_whole(caller: &Span, span: &Span, caller_start: u64, start: u64) -> bool
    ensures { result ≡ is_whole caller.now span.now caller.now.end span.now.end caller_start start }
{
    let (Some(caller_end), Some(end)) = (caller.end, span.end) else {
        return false;
    };
    !caller.failed
        && !is_message(caller, span)
        && lasts_within(caller_start, caller_end, start, end)
}

/// How much later a time is than another.
fn later_by(time: u64, other: u64) -> i128
    ensures later { result ≡ pos time -ℤ pos other }
    ensures short { IsAtMost (2 ^ 64) result }
{
    i128::from(time) - i128::from(other)
}

/// How much later a caller ended than a span.
fn end_after(caller: &Span, span: &Span) -> Option<i128>
    ensures later { result ≡ end_after caller.now.end span.now.end }
    ensures short { IfSome result (IsAtMost (2 ^ 64)) }
{
    match (caller.end, span.end) {
        (Some(caller_end), Some(end)) => Some(later_by(caller_end, end)),
        _ => None,
    }
}

/// By how much the clock of a span that lay inside its caller is to be moved at most.
fn most_said(caller: &Span, caller_start: u64, span: &Span, start: u64) -> Option<i128>
    ensures said { result ≡ (if is_whole caller.now span.now caller.now.end span.now.end caller_start start then end_after caller.now.end span.now.end else None) }
    ensures short { IfSome result (IsAtMost (2 ^ 64)) }
{
    if is_whole(caller, span, caller_start, start) {
        end_after(caller, span)
    } else {
        None
    }
}

/// What a span and its caller, which have these clocks, say of them, where both have a start.
fn pair_said(caller_clock: usize, caller: &Span, clock: usize, span: &Span) -> Option<Pair>
    ensures said { (spans : List Span) → caller_clock ≡ clock_of spans caller.now → clock ≡ clock_of spans span.now → option_to_list result ≡ pair_between spans caller.now span.now caller.now.start span.now.start }
    ensures among { (count : ℕ) → caller_clock < count → clock < count → IfSome result (IsPairAmong count) }
{
    let caller_start = caller.start?;
    let start = span.start?;
    let least = later_by(caller_start, start);
    let most = most_said(caller, caller_start, span, start);
    Some(Pair {
        caller: caller_clock,
        called: clock,
        least,
        most,
    })
}

/// What a span and its caller, which have these clocks, say of them, if they are two.
fn pair_with(caller_clock: usize, caller: &Span, clock: usize, span: &Span) -> Option<Pair>
    ensures said { (spans : List Span) (at other : ℕ) → slice_get spans at ≡ Some caller.now → slice_get spans other ≡ Some span.now → caller_clock ≡ clock_of spans caller.now → clock ≡ clock_of spans span.now
        → option_to_list result ≡ pair_with spans span.now (Some caller.now) }
    ensures among { (count : ℕ) → caller_clock < count → clock < count → IfSome result (IsPairAmong count) }
{
    if caller_clock == clock {
        None
    } else {
        pair_said(caller_clock, caller, clock, span)
    }
}

/// The clock of the span at a place.
fn clock_at(clocks: &[usize], place: usize) -> usize
    ensures { (spans : List Span) → AreClocks spans clocks.now → clock_at spans place ≡ result }
{
    match clocks.get(place) {
        Some(clock) => *clock,
        None => place,
    }
}

/// What a span and its caller, which stand at these places, say of their clocks, if these are two.
fn pair_at(spans: &[Span], clocks: &[usize], caller: usize, place: usize) -> Option<Pair>
    requires { AreClocks spans.now clocks.now }
    ensures said { (span : Span) → slice_get spans.now place ≡ Some span → option_to_list result ≡ pair_with spans.now span (slice_get spans.now caller) }
    ensures among { IfSome result (IsPairAmong (length spans.now)) }
{
    let calling = spans.get(caller)?;
    let span = spans.get(place)?;
    let caller_clock = clock_at(clocks, caller);
    let clock = clock_at(clocks, place);
    pair_with(caller_clock, calling, clock, span)
}

/// What the span at a place and the first parent that it names say of their clocks, if these are two.
fn pair_of(
    spans: &[Span],
    references: &[References],
    clocks: &[usize],
    place: usize,
) -> Option<Pair>
    requires clocks { AreClocks spans.now clocks.now }
    requires references { references.now ≡ all_references spans.now }
    ensures said { (span : Span) → slice_get spans.now place ≡ Some span → option_to_list result ≡ pair_of spans.now place span }
    ensures among { IfSome result (IsPairAmong (length spans.now)) }
{
    let caller = caller_named(references, place)?;
    pair_at(spans, clocks, caller, place)
}

/// Adds a pair, if there is one.
fn push_pair(pairs: &mut Vec<Pair>, pair: Option<Pair>) -> Result<(), AllocError>
    ensures { OnOk result (pairs.new.items ≡ pairs.old.items ++ option_to_list pair) }
{
    if let Some(pair) = pair {
        pairs.push(pair)?;
    }
    Ok(())
}

/// What spans and their callers say of their clocks, in the order of the file.
pub(crate) fn pairs_of(
    alloc: Global,
    spans: &[Span],
    references: &[References],
    clocks: &[usize],
) -> Result<Vec<Pair>, AllocError>
    requires clocks { AreClocks spans.now clocks.now }
    requires references { references.now ≡ all_references spans.now }
    ensures said { IfOk result (λ pairs. pairs.items ≡ all_pairs spans.now) }
    ensures among { IfOk result (λ pairs. All (IsPairAmong (length spans.now)) pairs.items) }
{
    let mut pairs = Vec::new(alloc);
    for place in 0..spans.len() {
        let pair = pair_of(spans, references, clocks, place);
        push_pair(&mut pairs, pair)?;
    }
    Ok(pairs)
}
