//! The names of spans, but for their numbers.
ghost use Rattle.std.specs.Prelude.{◌≡◌, IfOk, map};
ghost use Rattle.trace_stages.specs.Names.{base_name};

use crate::span_names::words::words_or;
use std::alloc::{AllocError, Global};
use trace_spans::{Span, Text, TextList};

/// The most characters of a service.
const MOST_OF_SERVICE: usize = 20;

/// The most characters of a service and a span together.
const MOST_TOGETHER: usize = 46;

/// The name of a span's stage, but for its number; the words are made in the place of others.
#[tactic(auto, unfolding(crate::specs::Names::base_name))]
fn base_name(
    alloc: Global,
    service: &mut String,
    own: &mut String,
    span: &Span,
) -> Result<Text, AllocError>
    ensures { IfOk result (λ name. name ≡ base_name span.now) }
{
    words_or(service, "service", MOST_OF_SERVICE, span.service.as_str())?;
    let most = MOST_TOGETHER.saturating_sub(service.len());
    words_or(own, "span", most, span.name.as_str())?;
    let room = service.len().saturating_add(own.len()).saturating_add(1);
    let mut name = String::with_capacity(alloc, room)?;
    name.push_str(service.as_str())?;
    name.push_str(".")?;
    name.push_str(own.as_str())?;
    Ok(Text::of(name))
}

/// The name of each span's stage, but for its number.
pub(crate) fn base_names(alloc: Global, spans: &[Span]) -> Result<TextList, AllocError>
    ensures { IfOk result (λ names. names ≡ map base_name spans.now) }
{
    let mut names = TextList::new(alloc);
    let mut service = String::new(alloc);
    let mut own = String::new(alloc);
    for span in spans {
        names.push(base_name(alloc, &mut service, &mut own, span)?)?;
    }
    Ok(names)
}
