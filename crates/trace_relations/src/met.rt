//! Spans that were met, each once.
ghost use Rattle.std.specs.Prelude.{◌≡◌, ℕ, List, [], OnOk};
ghost use Rattle.trace_relations.specs.MetPlaces.{HasMet};
ghost use Rattle.trace_relations.specs.Parents.{is_none_met, with_place};

use std::alloc::{AllocError, Global};
use std::collections::HashSet;

/// Places of spans in the order in which they were met, each once.
#[derive(Drop)]
pub(crate) struct Met {
    places: Vec<usize>,
    known: HashSet<usize>,
}

/// None was met.
pub(crate) fn none_met(alloc: Global) -> Met
    ensures { HasMet result [] }
{
    Met {
        places: Vec::new(alloc),
        known: HashSet::new(alloc),
    }
}

/// Meets a span.
pub(crate) fn meet(met: &mut Met, place: usize) -> Result<(), AllocError>
    ensures { (places : List ℕ) → HasMet met.old places → OnOk result (HasMet met.new (with_place places place)) }
{
    if met.known.contains(&place) {
        return Ok(());
    }
    met.known.insert(place)?;
    met.places.push(place)?;
    Ok(())
}

/// Whether none was met.
pub(crate) fn is_none_met(met: &Met) -> bool
    ensures { (places : List ℕ) → HasMet met.now places → result ≡ is_none_met places }
{
    met.places.is_empty()
}

/// The places, in order.
pub(crate) fn places_met(met: Met) -> Vec<usize>
    ensures { (places : List ℕ) → HasMet met places → result.items ≡ places }
{
    met.places
}
