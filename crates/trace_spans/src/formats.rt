//! The formats that are read, and the spans that a text tells in one of them.
ghost use Rattle.std.specs.Prelude.{◌++◌, Ok};
ghost use Rattle.trace_spans.specs.Formats.{added};
ghost use Rattle.trace_spans.specs.Members.{then_on};
ghost use Rattle.trace_spans.specs.Reads.{IsReadAs};
ghost use Rattle.trace_spans.specs.Spans.{spans_of_items, spans_of_list, spans_of_text, told_in_a_format};

use crate::fault::Fault;
use crate::format::Format;
use crate::jaeger::Jaeger;
use crate::otlp::{OtherSignals, Otlp};
use crate::span::Spans;
use crate::strangers::strange;
use crate::zipkin::Zipkin;
use json_trees::{Items, Tree};
use std::alloc::Global;

/// Adds the spans of a text in the first format that it is of, and answers whether it is of one.
#[tactic(auto, unfolding(crate::specs::Spans::told_in_a_format))]
fn add_formatted(alloc: Global, text: &Tree<'_, '_>, spans: &mut Spans) -> Result<bool, Fault>
    ensures { IsReadAs (λ is. (is, spans.new)) result (added (told_in_a_format text.now) spans.old) }
{
    if Zipkin::add_spans(alloc, text, spans)? {
        return Ok(true);
    }
    if Otlp::add_spans(alloc, text, spans)? {
        return Ok(true);
    }
    if Jaeger::add_spans(alloc, text, spans)? {
        return Ok(true);
    }
    OtherSignals::add_spans(alloc, text, spans)
}

/// Adds the spans of a text to those before them. A list that is of no format is a list of texts.
#[cycle(texts)]
pub(crate) fn add_text(alloc: Global, text: &Tree<'_, '_>, spans: &mut Spans) -> Result<(), Fault>
    ensures { IsReadAs (λ _. spans.new) result (then_on (spans_of_text text.now) (λ more. Ok (spans.old ++ more))) }
{
    if add_formatted(alloc, text, spans)? {
        return Ok(());
    }
    match text.as_array() {
        Some(items) => add_list(alloc, text, items, spans),
        None => Err(Fault::NotATrace(strange(alloc, text))),
    }
}

/// Adds the spans of the texts that a text has for items; there have to be some.
#[cycle(texts)]
fn add_list(
    alloc: Global,
    text: &Tree<'_, '_>,
    mut items: Items<'_, '_>,
    spans: &mut Spans,
) -> Result<(), Fault>
    ensures { IsReadAs (λ _. spans.new) result (then_on (spans_of_list items.entry) (λ more. Ok (spans.old ++ more))) }
{
    let Some(first) = items.next() else {
        return Err(Fault::NotATrace(strange(alloc, text)));
    };
    add_text(alloc, &first, spans)?;
    add_items(alloc, items, spans)
}

/// Adds the spans of texts.
#[cycle(texts)]
fn add_items(alloc: Global, mut items: Items<'_, '_>, spans: &mut Spans) -> Result<(), Fault>
    ensures { IsReadAs (λ _. spans.new) result (then_on (spans_of_items items.entry) (λ more. Ok (spans.old ++ more))) }
{
    'items: while let Some(item) = items.next() {
        add_text(alloc, &item, spans)?;
    }
    Ok(())
}
