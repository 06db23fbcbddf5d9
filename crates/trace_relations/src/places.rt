//! Which span an id means.
ghost use Rattle.std.specs.Prelude.{◌≡◌, IfOk, is_some};
ghost use Rattle.std.specs.HashMap.{get_by_text};
ghost use Rattle.trace_relations.specs.Parents.{IsPlacing};

use std::alloc::{AllocError, Global};
use std::collections::HashMap;
use trace_spans::{Span, key_of};

/// Whether an id has a place.
fn has_place(places: &HashMap<String, usize>, id: &str) -> bool
    ensures { result ≡ is_some (get_by_text places.now id.now) }
{
    places.get(id).is_some()
}

/// The first place of each id, as it is compared.
pub(crate) fn places_of(alloc: Global, spans: &[Span]) -> Result<HashMap<String, usize>, AllocError>
    ensures { IfOk result (λ places. IsPlacing places spans.now) }
{
    let mut places = HashMap::with_capacity(alloc, spans.len())?;
    for (place, span) in spans.iter().enumerate() {
        let id = key_of(alloc, span)?.into_string();
        if !has_place(&places, id.as_str()) {
            places.insert(id, place)?;
        }
    }
    Ok(places)
}
