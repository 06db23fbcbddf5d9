//! Which stage is the reply of a trace.
ghost use Rattle.std.specs.Prelude.{◌≡◌, false, All, IfNone, IfOk, IfSome, Some, find, option_copied, slice_get};
ghost use Rattle.std.specs.Option.{option_map};
ghost use Rattle.trace_stages.specs.declared.stage.StageName.TheVariants.{Whole};
ghost use Rattle.trace_groups.specs.Replies.{answers_for, is_named, is_root};
ghost use Rattle.trace_groups.specs.Stages.{is_end_of};

use crate::group_names::span_name;
use std::alloc::{AllocError, Global};
use trace_relations::Relations;
use trace_spans::Span;
use trace_stages::{ImportedStage, StageName};

/// Whether a span has a name: alone, or behind its service and a dot.
fn is_named(alloc: Global, name: &str, span: &Span) -> Result<bool, AllocError>
    ensures { IfOk result (λ is. is ≡ is_named name.now span.now) }
{
    if span.name.as_str() == name {
        return Ok(true);
    }
    let whole = span_name(alloc, span)?;
    Ok(whole.bytes() == name.as_bytes())
}

/// Whether the span at a place has no parent.
fn is_root(parents: &[Option<usize>], place: usize) -> bool
    ensures { result ≡ is_root parents.now place }
{
    match parents.get(place) {
        Some(parent) => parent.is_none(),
        None => false,
    }
}

/// Whether the span at a place is one that is asked for: one of this name, or a root where no name is asked for.
fn answers_for(
    alloc: Global,
    spans: &[Span],
    parents: &[Option<usize>],
    wanted: Option<&str>,
    place: usize,
) -> Result<bool, AllocError>
    ensures { IfOk result (λ is. is ≡ answers_for spans.now parents.now (option_copied wanted.entry) place) }
{
    match (wanted, spans.get(place)) {
        (Some(name), Some(span)) => is_named(alloc, name, span),
        (None, Some(_)) => Ok(is_root(parents, place)),
        (_, None) => Ok(false),
    }
}

/// The span whose end is the reply of a trace: of those of the name that is asked for, or of the roots, the first to start.
pub fn replying_span(
    alloc: Global,
    spans: &[Span],
    relations: &Relations,
    wanted: Option<&str>,
) -> Result<Option<usize>, AllocError>
    ensures { IfOk result (λ span. span ≡ find (answers_for spans.now relations.now.parents.items (option_copied wanted.entry)) relations.now.order.items) }
{
    let parents = relations.parents.as_slice();
    let order = relations.order.as_slice();
    for place in order {
        if answers_for(alloc, spans, parents, wanted, *place)? {
            return Ok(Some(*place));
        }
    }
    Ok(None)
}

/// Whether a stage is the one that ends when a span did.
fn is_end_of(span: usize, name: StageName) -> bool
    ensures { result ≡ is_end_of span name }
{
    match name {
        StageName::Whole(place) => place == span,
        _ => false,
    }
}

/// The place of the stage that ends when a span did.
pub fn reply_place(stages: &[ImportedStage], span: usize) -> Option<usize>
    ensures found { IfSome result (λ place. option_map (λ stage. stage.name) (slice_get stages.now place) ≡ Some (Whole span)) }
    ensures none { IfNone result (All (λ stage. is_end_of span stage.name ≡ false) stages.now) }
{
    for place in 0..stages.len() {
        let stage = &stages[place];
        if is_end_of(span, stage.name) {
            return Some(place);
        }
    }
    None
}
