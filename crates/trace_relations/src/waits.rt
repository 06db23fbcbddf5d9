//! What spans wait for.
ghost use Rattle.std.specs.Prelude.{◌≡◌, IfOk};
ghost use Rattle.trace_relations.specs.Waits.{caller_named, ends_within, is_named, takes_from_queue, waiting_parent, waiting_parents};

use crate::ancestry::parent_at;
use crate::calls::is_queued;
use crate::moment::{Interval, interval_at};
use crate::references::References;
use std::alloc::{AllocError, Global};
use trace_spans::Span;

/// Whether a child takes a message that its parent put into a queue.
fn takes_from_queue(spans: &[Span], child: usize, parent: usize) -> bool
    ensures { result ≡ takes_from_queue spans.now child parent }
{
    match (spans.get(parent), spans.get(child)) {
        (Some(caller), Some(span)) => is_queued(caller, span),
        _ => false,
    }
}

/// Whether a child ended, and not after its parent.
fn ends_within(child: Interval, parent: Interval) -> bool
    ensures { result ≡ ends_within child parent }
{
    match (child.end_moment(), parent.end_moment()) {
        (Some(child), Some(parent)) => !parent.is_before(child),
        (Some(_), None) => true,
        (None, _) => false,
    }
}

/// Whether a child of a parent is named as one.
pub(crate) fn is_named(references: &[References], place: usize) -> bool
    ensures { result ≡ is_named references.now place }
{
    match references.get(place) {
        Some(of_place) => of_place.is_named(),
        None => false,
    }
}

/// The caller of the span at a place: the parent that it names.
pub(crate) fn caller_named(references: &[References], place: usize) -> Option<usize>
    ensures { result ≡ caller_named references.now place }
{
    references.get(place)?.named_parent()
}

/// The parent that waits for the span at a place.
fn waiting_parent(
    spans: &[Span],
    intervals: &[Interval],
    references: &[References],
    parents: &[Option<usize>],
    place: usize,
) -> Option<usize>
    ensures { result ≡ waiting_parent spans.now intervals.now references.now parents.now place }
{
    let parent = parent_at(parents, place)?;
    let child_interval = interval_at(intervals, place);
    let parent_interval = interval_at(intervals, parent);
    if is_named(references, place)
        && !takes_from_queue(spans, place, parent)
        && ends_within(child_interval, parent_interval)
    {
        Some(parent)
    } else {
        None
    }
}

/// The parent that waits for each span.
pub(crate) fn waiting_parents(
    alloc: Global,
    spans: &[Span],
    intervals: &[Interval],
    references: &[References],
    parents: &[Option<usize>],
) -> Result<Vec<Option<usize>>, AllocError>
    ensures { IfOk result (λ waiting. waiting.items ≡ waiting_parents spans.now intervals.now references.now parents.now) }
{
    let mut waiting = Vec::with_capacity(alloc, spans.len())?;
    for place in 0..spans.len() {
        waiting.push(waiting_parent(spans, intervals, references, parents, place))?;
    }
    Ok(waiting)
}
