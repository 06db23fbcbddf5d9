//! What a trace is, in short.
ghost use Rattle.std.specs.Prelude.{◌≡◌, IfOk, Some, option_map};
ghost use Rattle.trace_spans.specs.Summaries.{between, earlier, first_time, is_before, is_known_before, last_time, later, name_of, names_parents, root_of, root_with, summary_of};

use crate::span::Span;
use crate::text::Text;
use crate::trace::Trace;
use std::alloc::{AllocError, Global};

/// What a trace is, in short.
#[derive(Drop, Debug)]
pub struct Summary {
    /// Its id, without leading zeros.
    pub id: Text,
    /// The name of its root: of the spans that name no parent, or of all where each names one, the earliest.
    pub root: Text,
    /// Its earliest time in nanoseconds since 1970, if one is known.
    pub start: Option<u64>,
    /// The nanoseconds from its earliest time to its latest.
    pub length: u64,
    pub spans: usize,
    /// How many of its spans failed.
    pub failures: usize,
}

/// The earlier of two times, where both are known.
fn earlier(time: Option<u64>, other: Option<u64>) -> Option<u64>
    ensures { result ≡ earlier time other }
{
    match (time, other) {
        (Some(time), Some(other)) => Some(time.min(other)),
        (Some(time), None) | (None, Some(time)) => Some(time),
        (None, None) => None,
    }
}

/// The later of two times, where both are known.
fn later(time: Option<u64>, other: Option<u64>) -> Option<u64>
    ensures { result ≡ later time other }
{
    match (time, other) {
        (Some(time), Some(other)) => Some(time.max(other)),
        (Some(time), None) | (None, Some(time)) => Some(time),
        (None, None) => None,
    }
}

/// The first time that a span tells.
fn first_time(span: &Span) -> Option<u64>
    ensures { result ≡ first_time span.now }
{
    earlier(span.start, span.end)
}

/// The last time that a span tells.
fn last_time(span: &Span) -> Option<u64>
    ensures { result ≡ last_time span.now }
{
    later(span.start, span.end)
}

/// Whether a time is known, and before another that is or isn't.
fn is_known_before(time: Option<u64>, other: Option<u64>) -> bool
    ensures { result ≡ is_known_before time other }
{
    match (time, other) {
        (Some(time), Some(other)) => time < other,
        (Some(_), None) => true,
        (None, _) => false,
    }
}

/// Whether a span names parents.
fn names_parents(span: &Span) -> bool
    ensures { result ≡ names_parents span.now.parents }
{
    !span.parents.as_slice().is_empty()
}

/// Whether a span is rather the root than another: one that names no parent than one that does, then the earlier.
fn is_before(span: &Span, other: &Span) -> bool
    ensures { result ≡ is_before span.now other.now }
{
    match (names_parents(span), names_parents(other)) {
        (false, true) => true,
        (true, false) => false,
        (true, true) | (false, false) => is_known_before(first_time(span), first_time(other)),
    }
}

/// Of what is the root so far and one more span, the one that is rather the root.
fn rather_root<'a>(root: Option<&'a Span>, span: &'a Span) -> &'a Span
    ensures { Some result.now ≡ root_with (option_map (λ before. before.now) root.entry) span.now }
{
    let Some(before) = root else {
        return span;
    };
    if is_before(span, before) {
        span
    } else {
        before
    }
}

/// The root among spans.
#[tactic(auto, unfolding(crate::specs::Summaries::root_of))]
fn root_of(spans: &[Span]) -> Option<&Span>
    ensures { option_map (λ span. span.now) result ≡ root_of spans.now }
{
    let mut root: Option<&Span> = None;
    for span in spans {
        root = Some(rather_root(root, span));
    }
    root
}

/// The name of the root among spans, empty where there are none.
fn root_name(spans: &[Span]) -> &str
    ensures { result.now ≡ name_of (root_of spans.now) }
{
    match root_of(spans) {
        Some(span) => span.name.as_str(),
        None => "",
    }
}

/// How long it is from one time to another, if both are known.
fn between(start: Option<u64>, end: Option<u64>) -> u64
    ensures { result ≡ between start end }
{
    match (start, end) {
        (Some(start), Some(end)) => end.saturating_sub(start),
        (Some(_), None) | (None, _) => 0,
    }
}

/// What a trace is, in short.
#[tactic(auto, unfolding(crate::specs::Summaries::summary_of))]
pub fn summary_of(alloc: Global, trace: &Trace) -> Result<Summary, AllocError>
    ensures { IfOk result (λ summary. summary ≡ summary_of trace.now) }
{
    let spans = trace.spans.as_slice();
    let mut start = None;
    let mut end = None;
    for span in spans {
        start = earlier(start, first_time(span));
        end = later(end, last_time(span));
    }
    Ok(Summary {
        id: Text::new(alloc, trace.id.as_str())?,
        root: Text::new(alloc, root_name(spans))?,
        start,
        length: between(start, end),
        spans: spans.len(),
        failures: spans.iter().filter(|span| span.failed).count(),
    })
}
