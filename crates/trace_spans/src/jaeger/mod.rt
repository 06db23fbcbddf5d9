//! Jaeger JSON.
ghost use Rattle.std.specs.Prelude.{◌++◌, Ok, None};
ghost use Rattle.serde_json.specs.Data.{no_items, item};
ghost use Rattle.trace_spans.specs.Jaeger.{jaeger_spans, jaeger_told, spans_of_items};
ghost use Rattle.trace_spans.specs.Members.{has, then_on};
ghost use Rattle.trace_spans.specs.Reads.{IsReadAs};

mod members;
mod processes;
mod references;
mod span;
mod traces;

use crate::fault::Fault;
use crate::format::Format;
use crate::member::Member;
use crate::object::{has, items_or_none};
use crate::span::Spans;
use json_trees::Tree;
use span::read_span;
use std::alloc::Global;
use traces::add_trace;

/// What Jaeger's interface answers, one of its traces, or one of its spans.
pub(crate) struct Jaeger;

/// Adds the spans of an answer of Jaeger's interface. Those of all traces go into one list.
#[tactic(auto, unfolding(crate::specs::Jaeger::jaeger_spans))]
fn add_answer(alloc: Global, text: &Tree<'_, '_>, spans: &mut Spans) -> Result<(), Fault>
    ensures { IsReadAs (λ _. spans.new) result (then_on (jaeger_spans text.now) (λ more. Ok (spans.old ++ more))) }
{
    let mut traces = items_or_none(text, Member::Data)?;
    while let Some(trace) = traces.next() {
        add_trace(alloc, &trace, spans)?;
    }
    Ok(())
}

/// Adds a span that stands alone.
fn add_alone(alloc: Global, text: &Tree<'_, '_>, spans: &mut Spans) -> Result<(), Fault>
    ensures { IsReadAs (λ _. spans.new) result (then_on (spans_of_items None (item text.now no_items)) (λ more. Ok (spans.old ++ more))) }
{
    let span = read_span(alloc, None, text)?;
    spans.push(span)?;
    Ok(())
}

impl Format for Jaeger {
    ghost use Rattle.trace_spans.specs.Jaeger.{jaeger_told};

    ghost told = { jaeger_told };

    #[tactic(auto, unfolding(crate::specs::Jaeger::jaeger_told))]
    fn add_spans(alloc: Global, text: &Tree<'_, '_>, spans: &mut Spans) -> Result<bool, Fault> {
        if has(text, Member::Data) {
            add_answer(alloc, text, spans)?;
            return Ok(true);
        }
        if !has(text, Member::JaegerTrace) {
            return Ok(false);
        }
        if has(text, Member::Spans) {
            add_trace(alloc, text, spans)?;
            return Ok(true);
        }
        if has(text, Member::JaegerSpan) {
            add_alone(alloc, text, spans)?;
            return Ok(true);
        }
        Ok(false)
    }
}
