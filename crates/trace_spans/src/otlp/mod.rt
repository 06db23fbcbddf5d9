//! OTLP/JSON.
ghost use Rattle.std.specs.Prelude.{◌≡◌, ◌||◌, ◌++◌, Ok};
ghost use Rattle.trace_spans.specs.Members.{has, then_on};
ghost use Rattle.trace_spans.specs.Otlp.{spans_of_list, told_alone, told_by, told_within};
ghost use Rattle.trace_spans.specs.Formats.{added};
ghost use Rattle.trace_spans.specs.Reads.{IsReadAs};

mod members;
mod resource;
mod signals;
mod span;

use crate::fault::Fault;
use crate::format::Format;
use crate::member::Member;
use crate::object::{has, items_or_none, member};
use crate::span::Spans;
use json_trees::Tree;
use resource::add_resource;
pub(crate) use signals::OtherSignals;
use std::alloc::Global;

/// The spans of resources and their scopes: an export of OTLP, what Jaeger's third interface and Tempo's two answer, or
/// one resource.
pub(crate) struct Otlp;

/// Adds the spans of a list of resources.
#[tactic(auto, unfolding(crate::specs::Otlp::spans_of_list))]
fn add_list(
    alloc: Global,
    text: &Tree<'_, '_>,
    list: Member,
    spans: &mut Spans,
) -> Result<(), Fault>
    ensures { IsReadAs (λ _. spans.new) result (then_on (spans_of_list list text.now) (λ more. Ok (spans.old ++ more))) }
{
    let mut resources = items_or_none(text, list)?;
    while let Some(resource) = resources.next() {
        add_resource(alloc, list, &resource, spans)?;
    }
    Ok(())
}

/// Adds the spans of a list of resources, if the text has the list.
#[tactic(auto, unfolding(crate::specs::Otlp::told_by))]
fn add_listed(
    alloc: Global,
    text: &Tree<'_, '_>,
    list: Member,
    spans: &mut Spans,
) -> Result<bool, Fault>
    ensures { IsReadAs (λ is. (is, spans.new)) result (added (told_by list text.now) spans.old) }
{
    if !has(text, list) {
        return Ok(false);
    }
    add_list(alloc, text, list, spans)?;
    Ok(true)
}

/// Adds the spans of a list of resources, if a member of the text has the list.
#[tactic(auto, unfolding(crate::specs::Otlp::told_within))]
fn add_wrapped(
    alloc: Global,
    text: &Tree<'_, '_>,
    wrapping: Member,
    spans: &mut Spans,
) -> Result<bool, Fault>
    ensures { IsReadAs (λ is. (is, spans.new)) result (added (told_within wrapping text.now) spans.old) }
{
    match member(text, wrapping) {
        Some(wrapped) => add_listed(alloc, &wrapped, Member::ResourceSpans, spans),
        None => Ok(false),
    }
}

/// Whether a text has a list of scopes.
fn has_scopes(text: &Tree<'_, '_>) -> bool
    ensures { result ≡ (has Member.ScopeSpans text.now || has Member.InstrumentationLibrarySpans text.now) }
{
    has(text, Member::ScopeSpans) || has(text, Member::InstrumentationLibrarySpans)
}

/// Adds the spans of a text that is itself an element of `resourceSpans`.
#[tactic(auto, unfolding(crate::specs::Otlp::told_alone))]
fn add_alone(alloc: Global, text: &Tree<'_, '_>, spans: &mut Spans) -> Result<bool, Fault>
    ensures { IsReadAs (λ is. (is, spans.new)) result (added (told_alone text.now) spans.old) }
{
    if !has_scopes(text) {
        return Ok(false);
    }
    add_resource(alloc, Member::ResourceSpans, text, spans)?;
    Ok(true)
}

impl Format for Otlp {
    ghost use Rattle.trace_spans.specs.Otlp.{otlp_told};

    ghost told = { otlp_told };

    #[tactic(auto, unfolding(crate::specs::Otlp::otlp_told))]
    fn add_spans(alloc: Global, text: &Tree<'_, '_>, spans: &mut Spans) -> Result<bool, Fault> {
        if add_listed(alloc, text, Member::ResourceSpans, spans)? {
            return Ok(true);
        }
        if add_listed(alloc, text, Member::Batches, spans)? {
            return Ok(true);
        }
        if add_wrapped(alloc, text, Member::Result, spans)? {
            return Ok(true);
        }
        if add_wrapped(alloc, text, Member::Trace, spans)? {
            return Ok(true);
        }
        add_alone(alloc, text, spans)
    }
}
