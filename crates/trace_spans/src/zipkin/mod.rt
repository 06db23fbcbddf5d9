//! Zipkin's second form.
ghost use Rattle.std.specs.Prelude.{◌≡◌, ◌++◌, List, Ok, is_some};
ghost use Rattle.trace_spans.specs.Halves.{ToldHalf};
ghost use Rattle.trace_spans.specs.HalfMarks.{AreHalves};
ghost use Rattle.trace_spans.specs.Members.{then_on};
ghost use Rattle.trace_spans.specs.Reads.{IsReadAs};
ghost use Rattle.trace_spans.specs.Zipkin.{are_spans, is_span, spans_of_items, zipkin_spans, zipkin_told};

mod endpoint;
mod halves;
mod members;
mod span;

use crate::fault::Fault;
use crate::format::Format;
use crate::member::Member;
use crate::object::has;
use crate::span::Spans;
use halves::Halves;
use json_trees::{Items, Tree};
use span::read_span;
use std::alloc::Global;

/// A list of spans.
pub(crate) struct Zipkin;

/// Whether a value has the members that each of Zipkin's spans has.
#[tactic(auto, unfolding(crate::specs::Zipkin::is_span))]
fn is_span(value: &Tree<'_, '_>) -> bool
    ensures { result ≡ is_span value.now }
{
    has(value, Member::OtlpTrace) && has(value, Member::ZipkinSpan)
}

/// Whether all items are spans.
fn are_spans(mut items: Items<'_, '_>) -> bool
    ensures { result ≡ are_spans items.entry }
{
    while let Some(item) = items.next() {
        if !is_span(&item) {
            return false;
        }
    }
    true
}

/// Whether a text is a list that isn't empty, whose items all are spans.
#[tactic(auto, unfolding(crate::specs::Zipkin::zipkin_told))]
fn is_told(text: &Tree<'_, '_>) -> bool
    ensures { result ≡ is_some (zipkin_told text.now) }
{
    let Some(mut items) = text.as_array() else {
        return false;
    };
    let Some(first) = items.next() else {
        return false;
    };
    is_span(&first) && are_spans(items)
}

/// Adds the spans of a list in which these halves are of servers.
fn add_items(
    alloc: Global,
    halves: &Halves,
    mut items: Items<'_, '_>,
    spans: &mut Spans,
) -> Result<(), Fault>
    ensures { (known : List ToldHalf) → AreHalves halves.now.all known → IsReadAs (λ _. spans.new) result (then_on (spans_of_items known items.entry) (λ more. Ok (spans.old ++ more))) }
{
    while let Some(item) = items.next() {
        let span = read_span(alloc, halves, &item)?;
        spans.push(span)?;
    }
    Ok(())
}

/// Adds the spans of a list.
#[tactic(auto, unfolding(crate::specs::Zipkin::zipkin_spans))]
fn add_list(
    alloc: Global,
    items: Items<'_, '_>,
    again: Items<'_, '_>,
    spans: &mut Spans,
) -> Result<(), Fault>
    requires { again ≡ items }
    ensures { IsReadAs (λ _. spans.new) result (then_on (zipkin_spans items.entry) (λ more. Ok (spans.old ++ more))) }
{
    let halves = Halves::of(alloc, items)?;
    add_items(alloc, &halves, again, spans)
}

impl Format for Zipkin {
    ghost use Rattle.trace_spans.specs.Zipkin.{zipkin_told};

    ghost told = { zipkin_told };

    #[tactic(auto, unfolding(crate::specs::Zipkin::zipkin_told))]
    fn add_spans(alloc: Global, text: &Tree<'_, '_>, spans: &mut Spans) -> Result<bool, Fault> {
        if !is_told(text) {
            return Ok(false);
        }
        let Some(items) = text.as_array() else {
            return Ok(false);
        };
        let Some(again) = text.as_array() else {
            return Ok(false);
        };
        add_list(alloc, items, again, spans)?;
        Ok(true)
    }
}
