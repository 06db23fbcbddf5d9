//! The spans of Jaeger JSON.
ghost use Rattle.std.specs.Prelude.{◌≡◌, Some, option_and_then, option_map};
ghost use Rattle.serde_json.specs.Find.{as_str};
ghost use Rattle.trace_spans.specs.declared.member.Member.TheVariants as member;
ghost use Rattle.trace_spans.specs.declared.tags.TagForm.TheVariants as form;
ghost use Rattle.trace_spans.specs.Exceptions.{exception_if};
ghost use Rattle.trace_spans.specs.Jaeger.{clock_in, failed_by, is_text, is_true, jaeger_span, kind_by, named_clock};
ghost use Rattle.trace_spans.specs.JaegerMembers.{jaeger_members_of};
ghost use Rattle.trace_spans.specs.Reads.{IsRead};

use crate::aiming::target_of;
use crate::clock::Clock;
use crate::exception::exception_of;
use crate::fault::Fault;
use crate::identifier::{found_compared_id, found_span_id};
use crate::jaeger::members::JaegerMembers;
use crate::jaeger::processes::{Processes, clock_of};
use crate::jaeger::references::{References, references_of};
use crate::kinds::kind_named;
use crate::member::Member;
use crate::micros::{found_end, found_start};
use crate::object::{found_object, found_text, item_object};
use crate::placing::in_span;
use crate::span::{Kind, Span};
use crate::tags::{TagForm, Tags, text_of};
use crate::text::Text;
use json_trees::Tree;
use std::alloc::Global;

/// Whether a value is true, or the text `true`.
fn is_true(value: &Option<Tree<'_, '_>>) -> bool
    ensures { result ≡ is_true value.now }
{
    let Some(value) = value else {
        return false;
    };
    match value.as_bool() {
        Some(truth) => truth,
        None => match value.as_str() {
            Some(text) => text == "true",
            None => false,
        },
    }
}

/// Whether a value is this text.
fn is_text(value: &Option<Tree<'_, '_>>, wanted: &str) -> bool
    ensures { result ≡ is_text wanted.now (option_and_then as_str value.now) }
{
    match text_of(value) {
        Some(text) => text == wanted,
        None => false,
    }
}

/// Whether a span with these tags failed.
#[tactic(auto, unfolding(crate::specs::Jaeger::failed_by))]
fn has_failed(tags: &Tags<'_, '_>) -> bool
    ensures { result ≡ failed_by tags.now }
{
    is_true(&tags.error) || is_text(&tags.status_code, "ERROR")
}

/// The kind of a span with these tags.
#[tactic(auto, unfolding(crate::specs::Jaeger::kind_by))]
fn kind_of(tags: &Tags<'_, '_>) -> Kind
    ensures { result ≡ kind_by tags.now }
{
    match text_of(&tags.kind) {
        Some(name) => kind_named(name),
        None => Kind::Other,
    }
}

/// The clock of the process that a span names among these, of which no part is told where there is none.
#[tactic(auto, unfolding(crate::specs::Jaeger::named_clock))]
fn named_clock(
    alloc: Global,
    processes: Option<&Processes<'_, '_>>,
    span: &Tree<'_, '_>,
    members: &JaegerMembers<'_, '_>,
) -> Result<Clock, Fault>
    requires { members.now ≡ jaeger_members_of span.now }
    ensures { IsRead result (named_clock (option_map (λ p. p.now) processes.entry) span.now) }
{
    let name = found_text(span, &members.process, Member::Process)?;
    let Some(processes) = processes else {
        return Ok(Clock::new(alloc, "", "", "")?);
    };
    match processes.get(name) {
        Some(process) => process.clock(alloc),
        None => Ok(Clock::new(alloc, "", "", "")?),
    }
}

/// The clock of a span's process: that in the span itself, or the one that it names.
#[tactic(auto, unfolding(crate::specs::Jaeger::clock_in))]
fn clock_of_span(
    alloc: Global,
    processes: Option<&Processes<'_, '_>>,
    span: &Tree<'_, '_>,
    members: &JaegerMembers<'_, '_>,
) -> Result<Clock, Fault>
    requires { members.now ≡ jaeger_members_of span.now }
    ensures { IsRead result (clock_in (option_map (λ p. p.now) processes.entry) span.now) }
{
    match found_object(span, &members.own_process, Member::OwnProcess)? {
        Some(process) => clock_of(alloc, process),
        None => named_clock(alloc, processes, span, members),
    }
}

/// The name of the exception with which a span failed.
fn exception_if_failed(
    alloc: Global,
    failed: bool,
    span: &Tree<'_, '_>,
) -> Result<Option<Text>, Fault>
    ensures { IsRead result (exception_if failed form.Jaeger span.now) }
{
    if failed {
        exception_of(alloc, TagForm::Jaeger, span)
    } else {
        Ok(None)
    }
}

/// The members of a span of a trace with these processes.
#[tactic(auto, unfolding(crate::specs::Jaeger::jaeger_span))]
fn read_members(
    alloc: Global,
    processes: Option<&Processes<'_, '_>>,
    span: &Tree<'_, '_>,
) -> Result<Span, Fault>
    ensures { IsRead result (jaeger_span (option_map (λ p. p.now) processes.entry) span.now) }
{
    item_object(span, Member::Spans)?;
    let members = JaegerMembers::of(span);
    let trace = found_compared_id(alloc, span, &members.trace, Member::JaegerTrace)?;
    let id = found_span_id(alloc, span, &members.id, Member::JaegerSpan)?;
    let name = found_text(span, &members.name, Member::OperationName)?;
    let start = found_start(span, &members.start, Member::StartTime)?;
    let end = found_end(span, &members.duration, start)?;
    let references = references_of(alloc, &trace, span, &members)?;
    let clock = clock_of_span(alloc, processes, span, &members)?;
    let tags = Tags::found(TagForm::Jaeger, span, &members.tags, Member::Tags)?;
    let failed = has_failed(&tags);
    let exception = exception_if_failed(alloc, failed, span)?;
    let References { parents, links } = references;
    Ok(Span {
        trace,
        id,
        shared: false,
        service: Text::new(alloc, clock.service())?,
        name: Text::new(alloc, name)?,
        kind: kind_of(&tags),
        clock,
        target: target_of(alloc, &tags)?,
        start,
        end,
        parents,
        links,
        failed,
        exception,
    })
}

/// A span of a trace with these processes.
pub(crate) fn read_span(
    alloc: Global,
    processes: Option<&Processes<'_, '_>>,
    span: &Tree<'_, '_>,
) -> Result<Span, Fault>
    ensures { IsRead result (jaeger_span (option_map (λ p. p.now) processes.entry) span.now) }
{
    match read_members(alloc, processes, span) {
        Ok(told) => Ok(told),
        Err(fault) => Err(in_span(
            alloc,
            fault,
            span,
            Member::JaegerSpan,
            Member::OperationName,
        )),
    }
}
