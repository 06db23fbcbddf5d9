//! Resources, and the spans of their scopes.
ghost use Rattle.std.specs.Prelude.{◌++◌, Ok};
ghost use Rattle.trace_spans.specs.Members.{then_on};
ghost use Rattle.trace_spans.specs.Otlp.{attribute_by, clock_in, spans_of_resource, spans_of_scope, spans_of_scope_list};
ghost use Rattle.trace_spans.specs.Reads.{IsRead, IsReadAs};

use crate::clock::Clock;
use crate::exception::{tag_with_key, text_of_tag};
use crate::fault::Fault;
use crate::member::Member;
use crate::object::{item_object, items_or_none, object_or_null};
use crate::otlp::span::read_span;
use crate::span::Spans;
use crate::tags::TagForm;
use json_trees::Tree;
use std::alloc::Global;

/// An attribute of a resource, which is empty where it has none of that key that is a text.
#[tactic(auto, unfolding(crate::specs::Otlp::attribute_by))]
fn attribute_of<'a>(resource: &Option<Tree<'_, 'a>>, key: &str) -> Result<&'a str, Fault>
    ensures { IsReadAs (λ text. text.now) result (attribute_by key.now resource.now) }
{
    let Some(resource) = resource else {
        return Ok("");
    };
    let tag = tag_with_key(resource, Member::Attributes, key)?;
    Ok(text_of_tag(TagForm::Otlp, &tag))
}

/// The clock of a resource.
#[tactic(auto, unfolding(crate::specs::Otlp::clock_in))]
fn clock_of(alloc: Global, resource_spans: &Tree<'_, '_>) -> Result<Clock, Fault>
    ensures { IsRead result (clock_in resource_spans.now) }
{
    let resource = object_or_null(resource_spans, Member::Resource)?;
    let service = attribute_of(&resource, "service.name")?;
    let instance = attribute_of(&resource, "service.instance.id")?;
    let host = attribute_of(&resource, "host.name")?;
    Ok(Clock::new(alloc, service, instance, host)?)
}

/// Adds the spans of a scope to those before them.
#[tactic(auto, unfolding(crate::specs::Otlp::spans_of_scope))]
fn add_scope(
    alloc: Global,
    clock: &Clock,
    list: Member,
    scope: &Tree<'_, '_>,
    spans: &mut Spans,
) -> Result<(), Fault>
    ensures { IsReadAs (λ _. spans.new) result (then_on (spans_of_scope clock.now list scope.now) (λ more. Ok (spans.old ++ more))) }
{
    item_object(scope, list)?;
    let mut items = items_or_none(scope, Member::Spans)?;
    while let Some(item) = items.next() {
        let span = read_span(alloc, clock, &item)?;
        spans.push(span)?;
    }
    Ok(())
}

/// Adds the spans of a list of scopes to those before them.
#[tactic(auto, unfolding(crate::specs::Otlp::spans_of_scope_list))]
fn add_scopes(
    alloc: Global,
    clock: &Clock,
    list: Member,
    resource: &Tree<'_, '_>,
    spans: &mut Spans,
) -> Result<(), Fault>
    ensures { IsReadAs (λ _. spans.new) result (then_on (spans_of_scope_list clock.now list resource.now) (λ more. Ok (spans.old ++ more))) }
{
    let mut items = items_or_none(resource, list)?;
    while let Some(item) = items.next() {
        add_scope(alloc, clock, list, &item, spans)?;
    }
    Ok(())
}

/// Adds the spans of a resource to those before them; in the list that this is it stands.
#[tactic(auto, unfolding(crate::specs::Otlp::spans_of_resource))]
pub(crate) fn add_resource(
    alloc: Global,
    list: Member,
    resource: &Tree<'_, '_>,
    spans: &mut Spans,
) -> Result<(), Fault>
    ensures { IsReadAs (λ _. spans.new) result (then_on (spans_of_resource list resource.now) (λ more. Ok (spans.old ++ more))) }
{
    item_object(resource, list)?;
    let clock = clock_of(alloc, resource)?;
    add_scopes(alloc, &clock, Member::ScopeSpans, resource, spans)?;
    add_scopes(
        alloc,
        &clock,
        Member::InstrumentationLibrarySpans,
        resource,
        spans,
    )
}
