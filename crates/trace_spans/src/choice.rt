//! Which of the spans count: those of the trace that is asked for, but for repeats.
ghost use Rattle.std.specs.Prelude.{◌≡◌, List, IfOk, nat_eq, option_copied};
ghost use Rattle.std.specs.List.{starts_with};
ghost use Rattle.trace_spans.specs.Choice.{chosen_trace, has_spans, is_among, only_trace, spans_of_trace, traces_of};
ghost use Rattle.trace_spans.specs.Marks.{AreMarksOf, AreNoted};
ghost use Rattle.trace_spans.specs.Reads.{IsRead};
ghost use Rattle.trace_spans.specs.declared.span.Span.{Span};

use crate::fault::Fault;
use crate::identifier::{compared, is_id};
use crate::span::{Span, Spans};
use crate::text::{Text, TextList};
use std::alloc::{AllocError, Global};
use std::collections::HashSet;

/// The most traces that a refusal names.
const MOST_NAMED: usize = 16;

/// What tells a span from its repeats.
#[derive(PartialEq, Eq, Hash, Drop)]
struct Mark {
    id: String,
    shared: bool,
    service: String,
    name: String,
    start: Option<u64>,
    end: Option<u64>,
}

impl Mark {
    ghost use Rattle.trace_spans.specs.Marks.{IsMarkOf};

    fn of(alloc: Global, span: &Span) -> Result<Mark, AllocError>
        ensures { IfOk result (λ mark. IsMarkOf mark span.now) }
    {
        Ok(Mark {
            id: compared(alloc, span.id.as_str())?.into_string(),
            shared: span.shared,
            service: String::from_str(alloc, span.service.as_str())?,
            name: String::from_str(alloc, span.name.as_str())?,
            start: span.start,
            end: span.end,
        })
    }
}

/// Notes a span among the marks of earlier ones, and answers whether it repeats none of them.
fn note(alloc: Global, marks: &mut HashSet<Mark>, span: &Span) -> Result<bool, AllocError>
    ensures { (earlier : List Span) → AreMarksOf marks.old earlier → IfOk result (λ is_new. AreNoted marks.new earlier span.now is_new) }
{
    let mark = Mark::of(alloc, span)?;
    Ok(marks.insert(mark)?)
}

/// Whether a text is among texts.
#[tactic(auto, unfolding(crate::specs::Choice::is_among))]
fn is_among(texts: &TextList, wanted: &Text) -> bool
    ensures { result ≡ is_among texts.now wanted.now }
{
    texts.as_slice().iter().any(|text| text.same(wanted))
}

/// Whether a text begins with another.
fn begins_with(text: &Text, beginning: &str) -> bool
    ensures { result ≡ starts_with nat_eq text.now beginning.now }
{
    text.as_str().as_bytes().starts_with(beginning.as_bytes())
}

/// The traces of spans whose ids begin so, in the order of their first spans, 16 at most.
#[tactic(auto, unfolding(crate::specs::Choice::traces_of))]
fn traces_of(alloc: Global, beginning: &str, spans: &Spans) -> Result<TextList, AllocError>
    ensures { IfOk result (λ traces. traces ≡ traces_of beginning.now spans.now) }
{
    let mut traces = TextList::new(alloc);
    for span in spans.as_slice() {
        if traces.as_slice().len() < MOST_NAMED
            && begins_with(&span.trace, beginning)
            && !is_among(&traces, &span.trace)
        {
            traces.push(Text::new(alloc, span.trace.as_str())?)?;
        }
    }
    Ok(traces)
}

/// The only trace whose id begins so.
#[tactic(auto, unfolding(crate::specs::Choice::only_trace))]
fn only_trace(alloc: Global, beginning: &str, spans: &Spans) -> Result<Text, Fault>
    ensures { IsRead result (only_trace (traces_of beginning.now spans.now)) }
{
    let traces = traces_of(alloc, beginning, spans)?;
    match traces.as_slice() {
        [] => Err(Fault::NoTrace),
        [only] => Ok(Text::new(alloc, only.as_str())?),
        _ => Err(Fault::SeveralTraces(traces)),
    }
}

/// Whether a trace has spans.
fn has_spans(trace: &Text, spans: &Spans) -> bool
    ensures { result ≡ has_spans trace.now spans.now }
{
    spans.as_slice().iter().any(|span| span.trace.same(trace))
}

/// The trace that is asked for, by its id or a beginning of it that no other has; or the only one.
#[tactic(auto, unfolding(crate::specs::Choice::chosen_trace))]
pub(crate) fn chosen_trace(
    alloc: Global,
    wanted: Option<&str>,
    spans: &Spans,
) -> Result<Text, Fault>
    ensures { IsRead result (chosen_trace (option_copied wanted.entry) spans.now) }
{
    let Some(wanted) = wanted else {
        return only_trace(alloc, "", spans);
    };
    if !is_id(wanted) {
        return Err(Fault::NoTrace);
    }
    let trace = compared(alloc, wanted)?;
    if has_spans(&trace, spans) {
        return Ok(trace);
    }
    only_trace(alloc, trace.as_str(), spans)
}

/// The spans of a trace, but for repeats of earlier ones.
#[tactic(auto, unfolding(crate::specs::Choice::spans_of_trace))]
pub(crate) fn spans_of_trace(alloc: Global, trace: &Text, spans: Spans) -> Result<Spans, AllocError>
    ensures { IfOk result (λ chosen. chosen ≡ spans_of_trace trace.now spans) }
{
    let mut marks = HashSet::new(alloc);
    let mut chosen = Spans::new(alloc);
    for span in spans.into_vec() {
        if span.trace.same(trace) && note(alloc, &mut marks, &span)? {
            chosen.push(span)?;
        }
    }
    Ok(chosen)
}
