//! How spans went, and with which exceptions they failed.
ghost use Rattle.std.specs.Prelude.{◌≡◌, ℕ, List, IfOk, OnOk, bytes_eq, if◌then◌else◌, Some, None, is_some, map, length};
ghost use Rattle.std.specs.HashMap.{get_by_text};
ghost use Rattle.std.specs.List.{range_with_len};
ghost use Rattle.std.specs.Option.{option_or};
ghost use Rattle.trace_spans.specs.declared.span.Span.{Span};
ghost use Rattle.trace_stages.specs.Fates.{AreFirst, exception_told, fate, fate_at, fate_told};

use crate::stage::Exception;
use std::alloc::{AllocError, Global};
use std::collections::HashMap;
use trace_spans::{Span, Text};

/// What a failed span throws where it tells no exception.
const SPAN_FAILED: &str = "SpanFailed";

/// How a span went.
#[derive(Clone, Copy, PartialEq, Eq, Debug)]
pub enum Fate {
    Succeeded,
    /// It failed, and told no exception.
    Failed,
    Threw(Exception),
}

/// Whether a span told the name of an exception before.
fn is_noted(firsts: &HashMap<String, usize>, name: &Text) -> bool
    ensures { result ≡ is_some (get_by_text firsts.now name.now) }
{
    firsts.get(name.as_str()).is_some()
}

/// Notes a span that tells the name of an exception, unless another told it before.
fn note(
    alloc: Global,
    firsts: &mut HashMap<String, usize>,
    name: &Text,
    place: usize,
) -> Result<(), AllocError>
    ensures { OnOk result ((other : List ℕ) → get_by_text firsts.new other ≡ option_or (get_by_text firsts.old other) (if bytes_eq name.now other then Some place else None)) }
{
    if is_noted(firsts, name) {
        return Ok(());
    }
    let name = String::from_str(alloc, name.as_str())?;
    firsts.insert(name, place)?;
    Ok(())
}

/// The first span that tells each name of an exception.
fn firsts_of(alloc: Global, spans: &[Span]) -> Result<HashMap<String, usize>, AllocError>
    ensures { IfOk result (λ firsts. AreFirst firsts spans.now) }
{
    let mut firsts = HashMap::new(alloc);
    for (place, span) in spans.iter().enumerate() {
        if let Some(name) = &span.exception {
            note(alloc, &mut firsts, name, place)?;
        }
    }
    Ok(firsts)
}

/// The exception of a name that the span at a place tells.
fn exception_told(firsts: &HashMap<String, usize>, place: usize, name: &Text) -> Exception
    ensures { (spans : List Span) → AreFirst firsts.now spans → result ≡ exception_told spans place name.now }
{
    if name.as_str() == SPAN_FAILED {
        return Exception::SpanFailed;
    }
    Exception::Of(firsts.get(name.as_str()).copied().unwrap_or(place))
}

/// How a failed span went.
fn fate_told(firsts: &HashMap<String, usize>, place: usize, span: &Span) -> Fate
    ensures { (spans : List Span) → AreFirst firsts.now spans → result ≡ fate_told spans place span.now.exception }
{
    match &span.exception {
        None => Fate::Failed,
        Some(name) => Fate::Threw(exception_told(firsts, place, name)),
    }
}

/// How the span at a place went.
fn fate_of_span(firsts: &HashMap<String, usize>, spans: &[Span], place: usize) -> Fate
    ensures { AreFirst firsts.now spans.now → result ≡ fate spans.now place }
{
    match spans.get(place) {
        Some(span) if span.failed => fate_told(firsts, place, span),
        _ => Fate::Succeeded,
    }
}

/// How each span went.
pub(crate) fn fates_of(alloc: Global, spans: &[Span]) -> Result<Vec<Fate>, AllocError>
    ensures { IfOk result (λ fates. fates.items ≡ map (fate spans.now) (range_with_len 0 (length spans.now))) }
{
    let firsts = firsts_of(alloc, spans)?;
    let mut fates = Vec::with_capacity(alloc, spans.len())?;
    for place in 0..spans.len() {
        fates.push(fate_of_span(&firsts, spans, place))?;
    }
    Ok(fates)
}

/// How the span at a place went, of those that are known.
pub(crate) fn fate_at(fates: &[Fate], place: usize) -> Fate
    ensures { result ≡ fate_at fates.now place }
{
    match fates.get(place) {
        Some(fate) => *fate,
        None => Fate::Succeeded,
    }
}
