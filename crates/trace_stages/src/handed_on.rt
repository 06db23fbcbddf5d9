//! Failures that are handed on past something else.
ghost use Rattle.std.specs.Prelude.{◌≡◌, IfOk, if◌then◌else◌};
ghost use Rattle.trace_relations.specs.Ancestry.{comes_first};
ghost use Rattle.trace_stages.specs.HandedOn.{all_handed, ends_later, handed_by, handed_sources, is_end_of, is_handed, later_of, takes_over, thrower};
ghost use Rattle.trace_stages.specs.Known.{plain_known};
ghost use Rattle.trace_stages.specs.Outcomes.{failing};
ghost use Rattle.trace_stages.specs.PlainJoins.{plain_joins};

use crate::attempts::{attempt_after, first_attempt};
use crate::failures::end_outcome;
use crate::fates::{Fate, fate_at};
use crate::known::{Known, gave_up, has_at, has_ended};
use crate::outcomes::{Failures, failure_at};
use crate::places::{interval_at, parent_at};
use crate::stage::Exception;
use crate::tour::children_at;
use crate::walk::{StageId, call_end};
use std::alloc::{AllocError, Global};
use trace_relations::Interval;

/// Whether a span starts before another, or at the same tick and comes before it in the file.
fn comes_first(intervals: &[Interval], place: usize, other: usize) -> bool
    ensures { result ≡ comes_first intervals.now place other }
{
    let start = interval_at(intervals, place).start;
    let other_start = interval_at(intervals, other).start;
    start < other_start || (start == other_start && place < other)
}

/// Whether a span ends later than another; of those that end at one moment, the one that starts later.
fn ends_later(intervals: &[Interval], place: usize, other: usize) -> bool
    ensures { result ≡ ends_later intervals.now place other }
{
    let end = interval_at(intervals, place).end_moment();
    let other_end = interval_at(intervals, other).end_moment();
    match (end, other_end) {
        (Some(end), Some(other_end)) => {
            other_end.is_before(end)
                || (!end.is_before(other_end) && comes_first(intervals, other, place))
        }
        _ => false,
    }
}

/// The later of two spans to end.
fn later_of(intervals: &[Interval], last: Option<usize>, place: usize) -> usize
    ensures { result ≡ later_of intervals.now last place }
{
    match last {
        Some(other) if !ends_later(intervals, place, other) => other,
        _ => place,
    }
}

/// Whether a span that went so hands on a failure: its own, or any where it tells none.
fn takes_over(hands_on: bool, fate: Fate, failure: Option<Exception>) -> bool
    ensures { result ≡ takes_over hands_on fate failure }
{
    match (fate, failure) {
        (Fate::Threw(own), Some(failure)) => own == failure,
        (Fate::Failed, Some(_)) => hands_on,
        _ => false,
    }
}

/// Whether a span hands on the failure of a child: it waits for that, which is the last attempt of a call.
fn is_handed(known: &Known<'_>, failures: &Failures, place: usize, child: usize) -> bool
    ensures { result ≡ is_handed (plain_known known.now) (failing failures.now) place child }
{
    parent_at(&known.relations.waiting, child) == Some(place)
        && attempt_after(&known.relations.attempts, child).is_none()
        && takes_over(
            known.hands_on,
            fate_at(&known.fates, place),
            failure_at(failures, child),
        )
}

/// The last of children to end whose failures a span hands on, with one more child.
fn last_with(
    known: &Known<'_>,
    failures: &Failures,
    place: usize,
    last: Option<usize>,
    child: usize,
) -> Option<usize>
    ensures { result ≡ (if is_handed (plain_known known.now) (failing failures.now) place child then Some (later_of (plain_known known.now).relations.intervals last child) else last) }
{
    if !is_handed(known, failures, place, child) {
        return last;
    }
    Some(later_of(&known.relations.intervals, last, child))
}

/// The last child to end of those whose failures a span hands on.
pub(crate) fn thrower(known: &Known<'_>, failures: &Failures, place: usize) -> Option<usize>
    ensures { result ≡ thrower (plain_known known.now) (failing failures.now) place }
{
    let mut last = None;
    for child in children_at(&known.children, place) {
        last = last_with(known, failures, place, last, *child);
    }
    last
}

/// Whether a stage is the last of the span at a place.
pub(crate) fn is_end_of(place: usize, id: StageId) -> bool
    ensures { result ≡ is_end_of place id }
{
    match id {
        StageId::Whole(other) => other == place,
        _ => false,
    }
}

/// The sources of the join of what a span has and of the call whose failure it hands on.
fn handed_by(
    alloc: Global,
    known: &Known<'_>,
    failures: &Failures,
    place: usize,
    child: usize,
) -> Result<Vec<StageId>, AllocError>
    ensures { IfOk result (λ sources. sources.items ≡ handed_by (plain_known known.now) (failing failures.now) place child) }
{
    let mut sources = Vec::new(alloc);
    let outcome = end_outcome(alloc, known, failures, place)?;
    if outcome.failure.is_none() {
        sources.push(has_at(&known.holdings, place))?;
        let first = first_attempt(&known.relations.attempts, child);
        sources.push(call_end(&known.relations.attempts, first))?;
    }
    Ok(sources)
}

/// The sources of the join by which the span at a place hands a failure on; none where it doesn't.
fn handed_sources(
    alloc: Global,
    known: &Known<'_>,
    failures: &Failures,
    place: usize,
) -> Result<Vec<StageId>, AllocError>
    ensures { IfOk result (λ sources. sources.items ≡ handed_sources (plain_known known.now) (failing failures.now) place) }
{
    if gave_up(known, place) || !has_ended(&known.relations.intervals, place) {
        return Ok(Vec::new(alloc));
    }
    match thrower(known, failures, place) {
        Some(child) => handed_by(alloc, known, failures, place, child),
        None => Ok(Vec::new(alloc)),
    }
}

/// The sources of the joins by which spans hand failures on.
pub(crate) fn all_handed(
    alloc: Global,
    known: &Known<'_>,
    failures: &Failures,
) -> Result<Vec<Vec<StageId>>, AllocError>
    ensures { IfOk result (λ all. plain_joins all.items ≡ all_handed (plain_known known.now) (failing failures.now)) }
{
    let mut all = Vec::with_capacity(alloc, known.relations.intervals.len())?;
    for place in 0..known.relations.intervals.len() {
        let sources = handed_sources(alloc, known, failures, place)?;
        all.push(sources)?;
    }
    Ok(all)
}
