//! The spans of Zipkin's second form.
ghost use Rattle.std.specs.Prelude.{◌≡◌, IfOk, List};
ghost use Rattle.json_trees.specs.Named.{put_all};
ghost use Rattle.serde_json.specs.Data.{no_members};
ghost use Rattle.serde_json.specs.Find.{as_bool, as_str};
ghost use Rattle.trace_spans.specs.Halves.{ToldHalf};
ghost use Rattle.trace_spans.specs.HalfMarks.{AreHalves};
ghost use Rattle.trace_spans.specs.Reads.{IsRead};
ghost use Rattle.trace_spans.specs.Tags.{tags_among};
ghost use Rattle.trace_spans.specs.Zipkin.{exception_by, failed_by, is_false, kind_in, name_of, parents_by, tags_of, zipkin_span};
ghost use Rattle.trace_spans.specs.ZipkinMembers.{zipkin_members_of};

use crate::aiming::target_of;
use crate::exception::exception_name;
use crate::fault::Fault;
use crate::identifier::{compared, found_compared_id, found_span_id};
use crate::key::half_key;
use crate::kinds::kind_named;
use crate::member::Member;
use crate::micros::{found_end, found_start};
use crate::object::{found_text, item_object, unless_null};
use crate::placing::in_span;
use crate::span::{Kind, Span};
use crate::tags::{Tags, text_of};
use crate::text::{Text, TextList};
use crate::zipkin::endpoint::clock_of;
use crate::zipkin::halves::{Halves, is_shared};
use crate::zipkin::members::ZipkinMembers;
use json_trees::{Members, Tree};
use std::alloc::{AllocError, Global};

/// The tags that are members of an object.
fn tags_among<'t, 'a>(mut members: Members<'t, 'a>) -> Tags<'t, 'a>
    ensures { result ≡ tags_among (put_all members.entry no_members) }
{
    let mut tags = Tags::none();
    'members: while let Some((key, value)) = members.next() {
        tags.put(key, unless_null(value));
    }
    tags
}

/// The tags of a span, from the look-up that found them or not.
fn tags_of<'t, 'a>(found: &Option<Tree<'t, 'a>>) -> Result<Tags<'t, 'a>, Fault>
    ensures { IsRead result (tags_of found.now) }
{
    let Some(value) = found else {
        return Ok(Tags::none());
    };
    match value.members() {
        Some(members) => Ok(tags_among(members)),
        None => Err(Fault::of_shape(Member::Tags)),
    }
}

/// Whether a value is false, or the text `false`.
fn is_false(value: &Tree<'_, '_>) -> bool
    ensures { result ≡ is_false (as_bool value.now) (as_str value.now) }
{
    match value.as_bool() {
        Some(truth) => !truth,
        None => match value.as_str() {
            Some(text) => text == "false",
            None => false,
        },
    }
}

/// Whether a span with these tags failed: it has a tag `error` that isn't `false`.
#[tactic(auto, unfolding(crate::specs::Zipkin::failed_by))]
fn has_failed(tags: &Tags<'_, '_>) -> bool
    ensures { result ≡ failed_by tags.now }
{
    match &tags.error {
        Some(error) => !is_false(error),
        None => false,
    }
}

/// The name of an exception that a tag is, if it is one.
fn exception_in(alloc: Global, value: &Option<Tree<'_, '_>>) -> Result<Option<Text>, AllocError>
    ensures { IfOk result (λ name. name ≡ name_of value.now) }
{
    match text_of(value) {
        Some(text) => exception_name(alloc, text),
        None => Ok(None),
    }
}

/// The name of the exception with which a span with these tags failed.
#[tactic(auto, unfolding(crate::specs::Zipkin::exception_by))]
fn exception_of(
    alloc: Global,
    failed: bool,
    tags: &Tags<'_, '_>,
) -> Result<Option<Text>, AllocError>
    ensures { IfOk result (λ name. name ≡ exception_by failed tags.now) }
{
    if !failed {
        return Ok(None);
    }
    match exception_in(alloc, &tags.exception_type)? {
        Some(name) => Ok(Some(name)),
        None => exception_in(alloc, &tags.error_type),
    }
}

/// The kind of a span.
#[tactic(auto, unfolding(crate::specs::Zipkin::kind_in))]
fn kind_of(span: &Tree<'_, '_>, members: &ZipkinMembers<'_, '_>) -> Result<Kind, Fault>
    requires { members.now ≡ zipkin_members_of span.now }
    ensures { IsRead result (kind_in span.now) }
{
    Ok(kind_named(found_text(span, &members.kind, Member::Kind)?))
}

/// The parents of a span, by the id that it names: a server's half is below the client's, and what the server calls
/// below the server's.
#[tactic(auto, unfolding(crate::specs::Zipkin::parents_by))]
fn parents_of(
    alloc: Global,
    halves: &Halves,
    shared: bool,
    trace: &Text,
    id: &Text,
    parent: Text,
    service: &str,
) -> Result<TextList, AllocError>
    ensures { (known : List ToldHalf) → AreHalves halves.now.all known → IfOk result (λ parents. parents ≡ parents_by known shared trace.now id.now parent service.now) }
{
    let mut parents = TextList::new(alloc);
    if shared {
        parents.push(compared(alloc, id.as_str())?)?;
    } else if !parent.as_str().is_empty() {
        let key = if halves.has(alloc, trace, &parent, service)? {
            half_key(parent)?
        } else {
            parent
        };
        parents.push(key)?;
    }
    Ok(parents)
}

/// The members of a span in a list in which these halves are of servers.
#[tactic(auto, unfolding(crate::specs::Zipkin::zipkin_span, crate::specs::Zipkin::tags_in, crate::specs::Halves::is_shared))]
fn read_members(alloc: Global, halves: &Halves, span: &Tree<'_, '_>) -> Result<Span, Fault>
    ensures { (known : List ToldHalf) → AreHalves halves.now.all known → IsRead result (zipkin_span known span.now) }
{
    item_object(span, Member::Spans)?;
    let members = ZipkinMembers::of(span);
    let trace = found_compared_id(alloc, span, &members.trace, Member::OtlpTrace)?;
    let id = found_span_id(alloc, span, &members.id, Member::ZipkinSpan)?;
    let name = found_text(span, &members.name, Member::Name)?;
    let kind = kind_of(span, &members)?;
    let parent = found_compared_id(alloc, span, &members.parent, Member::ZipkinParent)?;
    let clock = clock_of(alloc, span, &members.endpoint)?;
    let start = found_start(span, &members.start, Member::Timestamp)?;
    let end = found_end(span, &members.duration, start)?;
    let tags = tags_of(&members.tags)?;
    let failed = has_failed(&tags);
    let exception = exception_of(alloc, failed, &tags)?;
    let shared = is_shared(&members.shared);
    let parents = parents_of(alloc, halves, shared, &trace, &id, parent, clock.service())?;
    Ok(Span {
        trace,
        id,
        shared,
        service: Text::new(alloc, clock.service())?,
        name: Text::new(alloc, name)?,
        kind,
        clock,
        target: target_of(alloc, &tags)?,
        start,
        end,
        parents,
        links: TextList::new(alloc),
        failed,
        exception,
    })
}

/// A span in a list in which these halves are of servers.
pub(crate) fn read_span(alloc: Global, halves: &Halves, span: &Tree<'_, '_>) -> Result<Span, Fault>
    ensures { (known : List ToldHalf) → AreHalves halves.now.all known → IsRead result (zipkin_span known span.now) }
{
    match read_members(alloc, halves, span) {
        Ok(told) => Ok(told),
        Err(fault) => Err(in_span(alloc, fault, span, Member::ZipkinSpan, Member::Name)),
    }
}
