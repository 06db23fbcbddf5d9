//! The spans of OTLP/JSON.
ghost use Rattle.std.specs.Prelude.{◌≡◌, ◌++◌, Ok};
ghost use Rattle.serde_json.specs.Data.{no_items, item};
ghost use Rattle.trace_spans.specs.declared.tags.TagForm.TheVariants as form;
ghost use Rattle.trace_spans.specs.Exceptions.{exception_if};
ghost use Rattle.trace_spans.specs.Members.{member_of, then_on};
ghost use Rattle.trace_spans.specs.Otlp.{failed_in, is_failure, kind_in, links_in, links_of, otlp_span, parents_in, time_in};
ghost use Rattle.trace_spans.specs.OtlpMembers.{otlp_members_of};
ghost use Rattle.trace_spans.specs.Reads.{IsRead, IsReadAs};

use crate::aiming::target_of;
use crate::clock::Clock;
use crate::exception::exception_of;
use crate::fault::Fault;
use crate::identifier::{compared_id, found_compared_id, found_span_id};
use crate::kinds::{kind_named, kind_numbered};
use crate::member::Member;
use crate::object::{found_items, found_number, found_object, found_text, item_object, member};
use crate::otlp::members::OtlpMembers;
use crate::placing::in_span;
use crate::span::{Kind, Span};
use crate::tags::{TagForm, Tags};
use crate::text::{Text, TextList};
use json_trees::Tree;
use std::alloc::Global;

/// The status code of a span that failed.
const FAILED: u64 = 2;

/// A time, if it is known: 0 stands for none.
#[tactic(auto, unfolding(crate::specs::Otlp::time_in))]
fn time_of(
    span: &Tree<'_, '_>,
    found: &Option<Tree<'_, '_>>,
    asked: Member,
) -> Result<Option<u64>, Fault>
    requires { found.now ≡ member_of asked span.now }
    ensures { IsRead result (time_in asked span.now) }
{
    match found_number(span, found, asked)? {
        Some(0) => Ok(None),
        time => Ok(time),
    }
}

/// The kind of a span, by its number or its name.
#[tactic(auto, unfolding(crate::specs::Otlp::kind_in))]
fn kind_of(span: &Tree<'_, '_>, members: &OtlpMembers<'_, '_>) -> Result<Kind, Fault>
    requires { members.now ≡ otlp_members_of span.now }
    ensures { IsRead result (kind_in span.now) }
{
    let Some(value) = &members.kind else {
        return Ok(Kind::Other);
    };
    if let Some(name) = value.as_str() {
        return Ok(kind_named(name));
    }
    match value.as_u64() {
        Some(number) => Ok(kind_numbered(number)),
        None => Err(Fault::of_shape(Member::Kind)),
    }
}

/// Whether a status says that its span failed, by the code's number or its name.
#[tactic(auto, unfolding(crate::specs::Otlp::is_failure))]
fn is_failure(status: &Tree<'_, '_>) -> Result<bool, Fault>
    ensures { IsRead result (is_failure status.now) }
{
    let Some(code) = member(status, Member::Code) else {
        return Ok(false);
    };
    if let Some(name) = code.as_str() {
        return Ok(name == "STATUS_CODE_ERROR");
    }
    match code.as_u64() {
        Some(number) => Ok(number == FAILED),
        None => Err(Fault::of_shape(Member::Code)),
    }
}

/// Whether a span failed.
#[tactic(auto, unfolding(crate::specs::Otlp::failed_in))]
fn has_failed(span: &Tree<'_, '_>, members: &OtlpMembers<'_, '_>) -> Result<bool, Fault>
    requires { members.now ≡ otlp_members_of span.now }
    ensures { IsRead result (failed_in span.now) }
{
    match found_object(span, &members.status, Member::Status)? {
        Some(status) => is_failure(status),
        None => Ok(false),
    }
}

/// The parent that a span names, if it names one.
#[tactic(auto, unfolding(crate::specs::Otlp::parents_in))]
fn parents_of(
    alloc: Global,
    span: &Tree<'_, '_>,
    members: &OtlpMembers<'_, '_>,
) -> Result<TextList, Fault>
    requires { members.now ≡ otlp_members_of span.now }
    ensures { IsRead result (parents_in span.now) }
{
    let mut parents = TextList::new(alloc);
    let parent = found_compared_id(alloc, span, &members.parent, Member::OtlpParent)?;
    if !parent.as_str().is_empty() {
        parents.push(parent)?;
    }
    Ok(parents)
}

/// Adds a link of a span to those before it, if it is into the trace.
fn add_link(
    alloc: Global,
    trace: &Text,
    link: &Tree<'_, '_>,
    links: &mut TextList,
) -> Result<(), Fault>
    ensures { IsReadAs (λ _. links.new) result (then_on (links_of trace.now (item link.now no_items)) (λ more. Ok (links.old ++ more))) }
{
    item_object(link, Member::Links)?;
    let linked = compared_id(alloc, link, Member::OtlpTrace)?;
    let id = compared_id(alloc, link, Member::OtlpSpan)?;
    if linked.same(trace) {
        links.push(id)?;
    }
    Ok(())
}

/// The links of a span into its trace.
#[tactic(auto, unfolding(crate::specs::Otlp::links_in))]
fn links_of(
    alloc: Global,
    trace: &Text,
    span: &Tree<'_, '_>,
    members: &OtlpMembers<'_, '_>,
) -> Result<TextList, Fault>
    requires { members.now ≡ otlp_members_of span.now }
    ensures { IsRead result (links_in trace.now span.now) }
{
    let mut items = found_items(span, &members.links, Member::Links)?;
    let mut links = TextList::new(alloc);
    while let Some(link) = items.next() {
        add_link(alloc, trace, &link, &mut links)?;
    }
    Ok(links)
}

/// The name of the exception with which a span failed.
fn exception_if_failed(
    alloc: Global,
    failed: bool,
    span: &Tree<'_, '_>,
) -> Result<Option<Text>, Fault>
    ensures { IsRead result (exception_if failed form.Otlp span.now) }
{
    if failed {
        exception_of(alloc, TagForm::Otlp, span)
    } else {
        Ok(None)
    }
}

/// The members of a span whose times this clock told.
#[tactic(auto, unfolding(crate::specs::Otlp::otlp_span))]
fn read_members(alloc: Global, clock: &Clock, span: &Tree<'_, '_>) -> Result<Span, Fault>
    ensures { IsRead result (otlp_span clock.now span.now) }
{
    item_object(span, Member::Spans)?;
    let members = OtlpMembers::of(span);
    let trace = found_compared_id(alloc, span, &members.trace, Member::OtlpTrace)?;
    let id = found_span_id(alloc, span, &members.id, Member::OtlpSpan)?;
    let name = found_text(span, &members.name, Member::Name)?;
    let start = time_of(span, &members.start, Member::StartTimeUnixNano)?;
    let end = time_of(span, &members.end, Member::EndTimeUnixNano)?;
    let parents = parents_of(alloc, span, &members)?;
    let links = links_of(alloc, &trace, span, &members)?;
    let kind = kind_of(span, &members)?;
    let failed = has_failed(span, &members)?;
    let exception = exception_if_failed(alloc, failed, span)?;
    let tags = Tags::found(TagForm::Otlp, span, &members.attributes, Member::Attributes)?;
    Ok(Span {
        trace,
        id,
        shared: false,
        service: Text::new(alloc, clock.service())?,
        name: Text::new(alloc, name)?,
        kind,
        clock: clock.share()?,
        target: target_of(alloc, &tags)?,
        start,
        end,
        parents,
        links,
        failed,
        exception,
    })
}

/// A span whose times this clock told.
pub(crate) fn read_span(alloc: Global, clock: &Clock, span: &Tree<'_, '_>) -> Result<Span, Fault>
    ensures { IsRead result (otlp_span clock.now span.now) }
{
    match read_members(alloc, clock, span) {
        Ok(told) => Ok(told),
        Err(fault) => Err(in_span(alloc, fault, span, Member::OtlpSpan, Member::Name)),
    }
}
