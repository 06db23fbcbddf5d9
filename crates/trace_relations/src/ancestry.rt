//! Lines of ancestors: one span, its parent, that one's parent, and so on.
ghost use Rattle.std.specs.Prelude.{◌≡◌, ℕ, IfOk, IsTrue, None};
ghost use Rattle.trace_relations.specs.Ancestry.{comes_first, first_of, parent_at};
ghost use Rattle.trace_relations.specs.Lines.{line_at, line_of_one, line_of_two};

use crate::moment::{Interval, interval_at};
use std::alloc::{AllocError, Global};

/// What is known of the line that begins with a span.
#[derive(Clone, Copy)]
pub(crate) struct Line {
    /// The span of the line that starts first.
    pub first: usize,
    /// The span after the line.
    pub after: Option<usize>,
}

/// The parent of the span at a place.
pub(crate) fn parent_at(parents: &[Option<usize>], place: usize) -> Option<usize>
    ensures { result ≡ parent_at parents.now place }
{
    match parents.get(place) {
        Some(parent) => *parent,
        None => None,
    }
}

/// Whether a span starts before another, or at the same tick and comes before it in the file.
fn comes_first(intervals: &[Interval], place: usize, other: usize) -> bool
    ensures { result ≡ comes_first intervals.now place other }
{
    let start = interval_at(intervals, place).start;
    let other_start = interval_at(intervals, other).start;
    start < other_start || (start == other_start && place < other)
}

/// The one of two spans that starts first.
fn first_of(intervals: &[Interval], place: usize, other: usize) -> usize
    ensures { result ≡ first_of intervals.now place other }
{
    if comes_first(intervals, other, place) {
        other
    } else {
        place
    }
}

/// The line that begins with the span at a place.
pub(crate) fn line_at(lines: &[Line], place: usize) -> Line
    ensures { result ≡ line_at lines.now place }
{
    match lines.get(place) {
        Some(line) => *line,
        None => Line {
            first: place,
            after: None,
        },
    }
}

/// The line and the next as one.
fn line_of_two(intervals: &[Interval], lines: &[Line], place: usize) -> Line
    ensures { result ≡ line_of_two intervals.now lines.now place }
{
    let line = line_at(lines, place);
    match line.after {
        Some(next) => {
            let next = line_at(lines, next);
            Line {
                first: first_of(intervals, line.first, next.first),
                after: next.after,
            }
        }
        None => line,
    }
}

/// The lines of one span each.
pub(crate) fn lines_of_one(
    alloc: Global,
    parents: &[Option<usize>],
) -> Result<Vec<Line>, AllocError>
    ensures { IfOk result (λ lines. (place : ℕ) → line_at lines.items place ≡ line_of_one parents.now place) }
{
    let mut lines = Vec::with_capacity(alloc, parents.len())?;
    for place in 0..parents.len() {
        let line = Line {
            first: place,
            after: parent_at(parents, place),
        };
        lines.push(line)?;
    }
    Ok(lines)
}

/// Whether each line has all ancestors, so that no span comes after it.
///
/// Few traces have more than some generations: whoever doubles lines is done where they are whole, and needs no longer
/// ones.
pub(crate) fn are_whole(lines: &[Line]) -> bool
    ensures { IsTrue result → (place : ℕ) → (line_at lines.now place).after ≡ None }
{
    for place in 0..lines.len() {
        if line_at(lines, place).after.is_some() {
            return false;
        }
    }
    true
}

/// The lines of twice as many spans.
pub(crate) fn doubled(
    alloc: Global,
    intervals: &[Interval],
    lines: &[Line],
) -> Result<Vec<Line>, AllocError>
    ensures { IfOk result (λ more. (place : ℕ) → line_at more.items place ≡ line_of_two intervals.now lines.now place) }
{
    let mut more = Vec::with_capacity(alloc, lines.len())?;
    for place in 0..lines.len() {
        more.push(line_of_two(intervals, lines, place))?;
    }
    Ok(more)
}
