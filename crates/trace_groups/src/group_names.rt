//! The names of groups of spans.
ghost use Rattle.std.specs.Prelude.{◌≡◌, IfOk, map};
ghost use Rattle.trace_groups.specs.GroupNames.{group_name, service_of, span_name, text_or};

use fleet_summary::{GroupBy, Name};
use std::alloc::{AllocError, Global};
use trace_spans::Span;

/// A text, or a word where it is empty.
fn text_or<'a>(word: &'a str, text: &'a str) -> &'a str
    ensures { result.now ≡ text_or word.now text.now }
{
    if text.is_empty() { word } else { text }
}

/// The service of a span.
fn service_of(span: &Span) -> &str
    ensures { result.now ≡ service_of span.now }
{
    text_or("service", span.service.as_str())
}

/// The service of a span, a dot, and the name, both whole.
pub(crate) fn span_name(alloc: Global, span: &Span) -> Result<Name, AllocError>
    ensures { IfOk result (λ name. name ≡ span_name span.now) }
{
    let mut bytes = Vec::new(alloc);
    bytes.extend_from_slice(service_of(span).as_bytes())?;
    bytes.extend_from_slice(b".")?;
    bytes.extend_from_slice(text_or("span", span.name.as_str()).as_bytes())?;
    Name::new(alloc, bytes.as_slice())
}

/// The name of the group of a span.
fn group_name(alloc: Global, by: GroupBy, span: &Span) -> Result<Name, AllocError>
    ensures { IfOk result (λ name. name ≡ group_name by span.now) }
{
    match by {
        GroupBy::Span => span_name(alloc, span),
        GroupBy::Service => Name::new(alloc, service_of(span).as_bytes()),
    }
}

/// The names of the groups of spans, one for each.
pub(crate) fn group_names(
    alloc: Global,
    by: GroupBy,
    spans: &[Span],
) -> Result<Vec<Name>, AllocError>
    ensures { IfOk result (λ names. names.items ≡ map (group_name by) spans.now) }
{
    let mut names = Vec::with_capacity(alloc, spans.len())?;
    for span in spans {
        names.push(group_name(alloc, by, span)?)?;
    }
    Ok(names)
}
