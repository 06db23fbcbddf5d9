//! Until when links out of calls count that were given up.
//!
//! It goes by lines of ancestors, of which each is made of two of half its length: so it takes no longer where spans lie
//! deep in each other.
ghost use Rattle.std.specs.Prelude.{◌≡◌, ℕ, IfOk, IsTrue, None, length, map};
ghost use Rattle.std.specs.List.{range_with_len};
ghost use Rattle.trace_relations.specs.Relations.{plain};
ghost use Rattle.trace_stages.specs.Beginnings.{bound_at};
ghost use Rattle.trace_stages.specs.BoundLines.{AreWhole, line_at, line_of_one, line_of_two};
ghost use Rattle.trace_stages.specs.Bounds.{bound, callers_end, earlier_moment, is_bounded};

use crate::places::{interval_at, parent_at};
use std::alloc::{AllocError, Global};
use trace_relations::{Interval, Moment, Relations};

/// How often lines of one span are doubled at most: no span has more than 65,536 ancestors.
const DOUBLINGS: usize = 16;

/// What is known of the line of ancestors that begins with a span.
#[derive(Clone, Copy)]
pub(crate) struct BoundLine {
    /// When the first caller ended that gave one of its spans up.
    pub bound: Option<Moment>,
    /// The span after the line.
    pub after: Option<usize>,
}

/// The earlier of two moments, of which each may be none.
fn earlier_moment(first: Option<Moment>, second: Option<Moment>) -> Option<Moment>
    ensures { result ≡ earlier_moment first second }
{
    match (first, second) {
        (Some(first), Some(second)) if second.is_before(first) => Some(second),
        (None, moment) => moment,
        (moment, _) => moment,
    }
}

/// When the caller ended that gave a span up.
fn callers_end(relations: &Relations, place: usize) -> Option<Moment>
    ensures { result ≡ callers_end (plain relations.now) place }
{
    let caller = parent_at(&relations.given_up, place)?;
    interval_at(&relations.intervals, caller).end_moment()
}

/// The line that begins with the span at a place.
fn line_at(relations: &Relations, lines: &[BoundLine], place: usize) -> BoundLine
    ensures { result ≡ line_at (plain relations.now) lines.now place }
{
    match lines.get(place) {
        Some(line) => *line,
        None => BoundLine {
            bound: callers_end(relations, place),
            after: None,
        },
    }
}

/// The line of one span.
fn line_of_one(relations: &Relations, place: usize) -> BoundLine
    ensures { result ≡ line_of_one (plain relations.now) place }
{
    BoundLine {
        bound: callers_end(relations, place),
        after: parent_at(&relations.parents, place),
    }
}

/// The lines of one span each.
fn lines_of_one(alloc: Global, relations: &Relations) -> Result<Vec<BoundLine>, AllocError>
    ensures { IfOk result (λ lines. (place : ℕ) → line_at (plain relations.now) lines.items place ≡ line_of_one (plain relations.now) place) }
{
    let mut lines = Vec::with_capacity(alloc, relations.parents.len())?;
    for place in 0..relations.parents.len() {
        lines.push(line_of_one(relations, place))?;
    }
    Ok(lines)
}

/// The line and the next as one.
fn line_of_two(relations: &Relations, lines: &[BoundLine], place: usize) -> BoundLine
    ensures { result ≡ line_of_two (plain relations.now) lines.now place }
{
    let line = line_at(relations, lines, place);
    match line.after {
        Some(next) => {
            let next = line_at(relations, lines, next);
            BoundLine {
                bound: earlier_moment(line.bound, next.bound),
                after: next.after,
            }
        }
        None => line,
    }
}

/// The lines of twice as many spans.
fn doubled(
    alloc: Global,
    relations: &Relations,
    lines: &[BoundLine],
) -> Result<Vec<BoundLine>, AllocError>
    ensures { IfOk result (λ more. (place : ℕ) → line_at (plain relations.now) more.items place ≡ line_of_two (plain relations.now) lines.now place) }
{
    let mut more = Vec::with_capacity(alloc, lines.len())?;
    for place in 0..lines.len() {
        more.push(line_of_two(relations, lines, place))?;
    }
    Ok(more)
}

/// Whether each line has all ancestors, so that no span comes after it.
fn are_whole(relations: &Relations, lines: &[BoundLine]) -> bool
    ensures { IsTrue result → (place : ℕ) → (line_at (plain relations.now) lines.now place).after ≡ None }
{
    for place in 0..lines.len() {
        if line_at(relations, lines, place).after.is_some() {
            return false;
        }
    }
    true
}

/// The lines of spans with all their ancestors.
fn whole_lines(alloc: Global, relations: &Relations) -> Result<Vec<BoundLine>, AllocError>
    ensures { IfOk result (λ lines. AreWhole (plain relations.now) lines.items) }
{
    let mut lines = lines_of_one(alloc, relations)?;
    for _doubling in 0..DOUBLINGS {
        if are_whole(relations, &lines) {
            return Ok(lines);
        }
        let more = doubled(alloc, relations, &lines)?;
        lines = more;
    }
    Ok(lines)
}

/// The bound of the span at a place.
fn bound_of(relations: &Relations, lines: &[BoundLine], place: usize) -> Option<Moment>
    requires { AreWhole (plain relations.now) lines.now }
    ensures { result ≡ bound (plain relations.now) place }
{
    let own = callers_end(relations, place);
    match parent_at(&relations.parents, place) {
        Some(parent) => earlier_moment(own, line_at(relations, lines, parent).bound),
        None => own,
    }
}

/// When the first caller ended that gave up a call in which a span lies, of each span.
pub(crate) fn bounds_of(
    alloc: Global,
    relations: &Relations,
) -> Result<Vec<Option<Moment>>, AllocError>
    ensures { IfOk result (λ bounds. bounds.items ≡ map (bound (plain relations.now)) (range_with_len 0 (length relations.now.intervals.items))) }
{
    let lines = whole_lines(alloc, relations)?;
    let mut bounds = Vec::with_capacity(alloc, relations.intervals.len())?;
    for place in 0..relations.intervals.len() {
        bounds.push(bound_of(relations, &lines, place))?;
    }
    Ok(bounds)
}

/// The bound at a place.
pub(crate) fn bound_at(bounds: &[Option<Moment>], place: usize) -> Option<Moment>
    ensures { result ≡ bound_at bounds.now place }
{
    match bounds.get(place) {
        Some(bound) => *bound,
        None => None,
    }
}

/// Whether a span ended before a bound, where there is one.
pub(crate) fn is_bounded(interval: Interval, bound: Option<Moment>) -> bool
    ensures { result ≡ is_bounded interval bound }
{
    match bound {
        Some(bound) => interval.ended_before(bound),
        None => true,
    }
}
