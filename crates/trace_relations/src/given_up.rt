//! Calls that were given up.
ghost use Rattle.std.specs.Prelude.{◌≡◌, ◌<◌, ◌++◌, ◌&&◌, ◌||◌, [], ◌∷◌, ℕ, List, Some, true, false, nat_eq, not, length, IfOk, slice_get, unwrap_or};
ghost use Rattle.std.specs.Option.{option_eq};
ghost use Rattle.trace_relations.specs.Ancestry.{parent_at};
ghost use Rattle.trace_relations.specs.Attempts.{has_failed};
ghost use Rattle.trace_relations.specs.GivenUp.{all_given_up, answers, failed_by_itself, given_up_by, has_end, has_word, is_child, is_failure, is_late, is_unnamed, runs_on, says_late, sends_none, was_called};
ghost use Rattle.trace_relations.specs.KeptCalled.{AreCallers, HasAllPlaces, ParentsAreSpans, answered, called_with, failed_for, outlived};

use crate::ancestry::parent_at;
use crate::attempts::has_failed;
use crate::calls::{is_message, produces};
use crate::moment::{Interval, interval_at};
use crate::references::References;
use crate::set_at::{nothing_for, set_for};
use crate::waits::is_named;
use std::alloc::{AllocError, Global};
use trace_spans::Span;

/// The spans of a trace, and how they stand to each other.
#[derive(Clone, Copy)]
pub(crate) struct Called<'a> {
    pub spans: &'a [Span],
    pub intervals: &'a [Interval],
    pub references: &'a [References],
    pub parents: &'a [Option<usize>],
    pub waiting: &'a [Option<usize>],
    /// Which call tries each again.
    pub next: &'a [Option<usize>],
}

/// What is known of callers, each by its place.
#[derive(Drop)]
struct Callers {
    /// Whether a call failed that it waits for.
    has_failure: Vec<bool>,
    /// Whether a call ran on when it had ended.
    has_run_on: Vec<bool>,
    /// The last call that may answer it.
    answer: Vec<Option<usize>>,
}

/// Whether a word begins somewhere in a name.
fn has_word(name: &str, word: &str) -> bool
    ensures { result ≡ has_word name.now word.now }
{
    name.contains(word)
}

/// Whether the name of an exception says that time was up.
fn says_late(alloc: Global, name: &str) -> Result<bool, AllocError>
    ensures { IfOk result (λ late. late ≡ says_late name.now) }
{
    let name = name.to_ascii_lowercase(alloc)?;
    let name = name.as_str();
    Ok(
        has_word(name, "timeout")
            || has_word(name, "timedout")
            || has_word(name, "timed_out")
            || has_word(name, "deadline"),
    )
}

/// Whether the exception of a span says that time was up.
fn is_late(alloc: Global, spans: &[Span], place: usize) -> Result<bool, AllocError>
    ensures { IfOk result (λ late. late ≡ is_late (slice_get spans.now place)) }
{
    match spans.get(place) {
        Some(span) => match &span.exception {
            Some(name) => says_late(alloc, name.as_str()),
            None => Ok(false),
        },
        None => Ok(false),
    }
}

/// Whether a span tells no exception.
fn is_unnamed(spans: &[Span], place: usize) -> bool
    ensures { result ≡ is_unnamed (slice_get spans.now place) }
{
    match spans.get(place) {
        Some(span) => span.exception.is_none(),
        None => false,
    }
}

/// Whether a span is the last attempt of a call, and failed.
fn is_failure(called: Called<'_>, place: usize) -> bool
    ensures { result ≡ is_failure (called_with called.entry) place }
{
    has_failed(called.spans, place) && parent_at(called.next, place).is_none()
}

/// Whether a span sends a message, or takes one that its caller sent.
fn has_message(spans: &[Span], caller: usize, place: usize) -> bool
    ensures { result ≡ not (sends_none (slice_get spans.now caller) (slice_get spans.now place)) }
{
    match (spans.get(caller), spans.get(place)) {
        (Some(caller), Some(span)) => is_message(caller, span),
        _ => true,
    }
}

/// Whether a call started inside its caller, at its start or later, and outlives it.
fn ran_on(called: Called<'_>, caller: usize, place: usize) -> bool
    ensures { result ≡ runs_on (called_with called.entry) caller place }
{
    let interval = interval_at(called.intervals, place);
    let callers = interval_at(called.intervals, caller);
    let outlives = match (callers.end_moment(), interval.end_moment()) {
        (Some(callers), Some(end)) => callers.is_before(end),
        (Some(_), None) => true,
        (None, _) => false,
    };
    is_named(called.references, place)
        && !has_message(called.spans, caller, place)
        && callers.start <= interval.start
        && !callers.ended_before(interval.start_moment())
        && outlives
}

/// Whether a call may answer its caller, which waits for it: it started at the caller's start or later, and sends no
/// message.
fn may_answer(called: Called<'_>, caller: usize, place: usize) -> bool
    ensures { result ≡ answers (called_with called.entry) caller place }
{
    let sends = match called.spans.get(place) {
        Some(span) => produces(span.kind),
        None => false,
    };
    interval_at(called.intervals, caller).start <= interval_at(called.intervals, place).start
        && !sends
}

/// What is known of a flag at a place.
fn is_set(all: &[bool], place: usize) -> bool
    ensures { result ≡ unwrap_or (slice_get all.now place) false }
{
    all.get(place).copied().unwrap_or(false)
}

/// The caller that waits for a span which failed.
fn failed_for(called: Called<'_>, place: usize) -> Option<usize>
    ensures { result ≡ failed_for (called_with called.entry) place }
{
    if is_failure(called, place) {
        parent_at(called.waiting, place)
    } else {
        None
    }
}

/// The caller that a span may answer.
fn answered(called: Called<'_>, place: usize) -> Option<usize>
    ensures { result ≡ answered (called_with called.entry) place }
{
    let caller = parent_at(called.waiting, place)?;
    may_answer(called, caller, place).then_some(caller)
}

/// The caller that a span outlives.
fn outlived(called: Called<'_>, place: usize) -> Option<usize>
    ensures { result ≡ outlived (called_with called.entry) place }
{
    let caller = parent_at(called.parents, place)?;
    ran_on(called, caller, place).then_some(caller)
}

/// Notes what a span is to those that called it.
fn note(callers: &mut Callers, called: Called<'_>, place: usize)
    ensures { (order : List ℕ) → AreCallers (called_with called.entry) order callers.old → AreCallers (called_with called.entry) (order ++ place ∷ []) callers.new }
{
    set_for(&mut callers.has_failure, failed_for(called, place), true);
    set_for(&mut callers.has_run_on, outlived(called, place), true);
    set_for(&mut callers.answer, answered(called, place), Some(place));
}

/// What is known of callers, by their calls in the order of starts.
fn callers_of(alloc: Global, called: Called<'_>, order: &[usize]) -> Result<Callers, AllocError>
    ensures { IfOk result (AreCallers (called_with called.entry) order.now) }
{
    let count = called.spans.len();
    let has_failure = vec![in alloc; false; count]?;
    let has_run_on = vec![in alloc; false; count]?;
    let answer = nothing_for(alloc, count)?;
    let mut callers = Callers {
        has_failure,
        has_run_on,
        answer,
    };
    for place in order {
        note(&mut callers, called, *place);
    }
    Ok(callers)
}

/// Whether a span failed and ended, of which it is told whether a call failed that it waits for.
fn failed_alone(called: Called<'_>, place: usize, has_failure: bool) -> bool
    ensures { result ≡ (has_failed (slice_get called.entry.spans.now place) && (has_end called.entry.intervals.now place && not has_failure)) }
{
    has_failed(called.spans, place)
        && interval_at(called.intervals, place).end.is_some()
        && !has_failure
}

/// Whether a span failed and ended, and no call that it waits for failed.
fn failed_by_itself(callers: &Callers, called: Called<'_>, place: usize) -> bool
    ensures { (order : List ℕ) → HasAllPlaces (called_with called.entry) order → AreCallers (called_with called.entry) order callers.now → place < length called.entry.spans.now → result ≡ failed_by_itself (called_with called.entry) place }
{
    let has_failure = is_set(&callers.has_failure, place);
    failed_alone(called, place, has_failure)
}

/// Whether a call ran on, and the exception of its caller says that time was up, as is told, or has no name.
fn outran(called: Called<'_>, caller: usize, place: usize, is_late: bool) -> bool
    ensures { result ≡ (runs_on (called_with called.entry) caller place && (is_late || is_unnamed (slice_get called.entry.spans.now caller))) }
{
    ran_on(called, caller, place) && (is_late || is_unnamed(called.spans, caller))
}

/// Whether a call was to answer last, and the exception of its caller says that time was up, as is told.
fn was_answering(callers: &Callers, caller: usize, place: usize, is_late: bool) -> bool
    ensures { result ≡ (is_late && option_eq nat_eq (parent_at callers.now.answer.items caller) (Some place)) }
{
    is_late && parent_at(&callers.answer, caller) == Some(place)
}

/// Whether a span was called when its caller gave up: it ran on, or was to answer.
fn was_called(
    alloc: Global,
    callers: &Callers,
    called: Called<'_>,
    caller: usize,
    place: usize,
) -> Result<bool, AllocError>
    ensures { (order : List ℕ) → HasAllPlaces (called_with called.entry) order → AreCallers (called_with called.entry) order callers.now → is_child called.entry.parents.now caller place ≡ true → caller < length called.entry.spans.now → IfOk result (λ was. was ≡ was_called (called_with called.entry) order caller place) }
{
    let is_late = is_late(alloc, called.spans, caller)?;
    if is_set(&callers.has_run_on, caller) {
        return Ok(outran(called, caller, place, is_late));
    }
    Ok(was_answering(callers, caller, place, is_late))
}

/// The caller that gave a span up.
fn given_up_by(
    alloc: Global,
    callers: &Callers,
    called: Called<'_>,
    place: usize,
) -> Result<Option<usize>, AllocError>
    ensures { (order : List ℕ) → HasAllPlaces (called_with called.entry) order → AreCallers (called_with called.entry) order callers.now → ParentsAreSpans (called_with called.entry) → IfOk result (λ by. by ≡ given_up_by (called_with called.entry) order place) }
{
    let Some(caller) = parent_at(called.parents, place) else {
        return Ok(None);
    };
    if !failed_by_itself(callers, called, caller) {
        return Ok(None);
    }
    let was_called = was_called(alloc, callers, called, caller, place)?;
    if was_called {
        Ok(Some(caller))
    } else {
        Ok(None)
    }
}

/// The caller that gave each span up.
pub(crate) fn all_given_up(
    alloc: Global,
    called: Called<'_>,
    order: &[usize],
) -> Result<Vec<Option<usize>>, AllocError>
    requires places { HasAllPlaces (called_with called) order.now }
    requires parents { ParentsAreSpans (called_with called) }
    ensures { IfOk result (λ given_up. given_up.items ≡ all_given_up (called_with called.entry) order.now) }
{
    let callers = callers_of(alloc, called, order)?;
    let mut given_up = Vec::with_capacity(alloc, called.spans.len())?;
    for place in 0..called.spans.len() {
        let by = given_up_by(alloc, &callers, called, place)?;
        given_up.push(by)?;
    }
    Ok(given_up)
}
