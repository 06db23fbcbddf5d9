//! Which spans the references of spans mean.
ghost use Rattle.std.specs.Prelude.{◌≡◌, ℕ, List, [], ◌∷◌, IfOk, OnOk, slice_get};
ghost use Rattle.trace_relations.specs.MeantPlaces.{places_in};
ghost use Rattle.trace_relations.specs.MetPlaces.{HasMet};
ghost use Rattle.trace_relations.specs.Parents.{IsPlacing, all_references, named_in, other_place, references_of, references_of_parents, with_meant};
ghost use Rattle.trace_spans.specs.declared.span.Span.{Span};

use crate::met::{Met, is_none_met, meet, none_met, places_met};
use crate::places::places_of;
use std::alloc::{AllocError, Global};
use std::collections::HashMap;
use std::marker::Model;
use trace_spans::{Span, Text, TextList};

/// The other spans that are meant. Mostly it is one, the parent: that is kept in the value itself, so that no memory is
/// asked for.
#[derive(Drop)]
enum Meant {
    One([usize; 1]),
    Several(Vec<usize>),
}

impl Meant {
    /// The places, in order.
    fn as_slice(&self) -> &[usize]
        ensures { result.now ≡ places_in self.now }
    {
        match self {
            Meant::One(places) => places,
            Meant::Several(places) => places.as_slice(),
        }
    }
}

/// What the references of a span mean: other spans of the trace, each once.
#[derive(Drop)]
pub struct References {
    /// The first is the parent, the others are links.
    meant: Meant,
    /// Whether the parent is named as one, and isn't a link.
    is_named: bool,
}

impl Model for References {
    ghost use Rattle.std.specs.Prelude.{ℕ, List, Bool};
    ghost use Rattle.trace_relations.specs.MeantPlaces.{places_in};

    ghost Value = { List ℕ × Bool };

    ghost view = { λ references. (places_in references.meant, references.is_named) };
}

impl References {
    /// The parent, which may be a link.
    pub fn parent(&self) -> Option<usize>
        ensures { result ≡ slice_get self.now.0 0 }
    {
        self.meant.as_slice().first().copied()
    }

    /// The parent, where it is named as one.
    pub fn named_parent(&self) -> Option<usize>
        ensures { result ≡ named_in self.now }
    {
        if self.is_named { self.parent() } else { None }
    }

    /// Whether the parent is named as one.
    pub fn is_named(&self) -> bool
        ensures { result ≡ self.now.1 }
    {
        self.is_named
    }

    /// The spans that are meant: the parent, and then the links.
    pub fn meant(&self) -> &[usize]
        ensures { result.now ≡ self.now.0 }
    {
        self.meant.as_slice()
    }
}

/// The place of another span than the one at a place that an id means.
fn other_place(places: &HashMap<String, usize>, place: usize, id: &Text) -> Option<usize>
    ensures { (spans : List Span) → IsPlacing places.now spans → result ≡ other_place spans place id.now }
{
    let found = places.get(id.as_str()).copied()?;
    if found == place { None } else { Some(found) }
}

/// Meets the other spans that ids mean.
fn meet_meant(
    places: &HashMap<String, usize>,
    place: usize,
    met: &mut Met,
    ids: &TextList,
) -> Result<(), AllocError>
    ensures { (spans : List Span) (others : List ℕ) → IsPlacing places.now spans → HasMet met.old others → OnOk result (HasMet met.new (with_meant spans place others ids.now)) }
{
    for id in ids.as_slice() {
        if let Some(other) = other_place(places, place, id) {
            meet(met, other)?;
        }
    }
    Ok(())
}

/// What the references of the span at a place mean that has one, to a parent.
fn references_of_one(
    alloc: Global,
    places: &HashMap<String, usize>,
    place: usize,
    parent: &Text,
) -> References
    ensures { (spans : List Span) → IsPlacing places.now spans → result ≡ references_of_parents spans place (parent.now ∷ []) }
{
    match other_place(places, place, parent) {
        Some(other) => References {
            meant: Meant::One([other]),
            is_named: true,
        },
        None => References {
            meant: Meant::Several(Vec::new(alloc)),
            is_named: false,
        },
    }
}

/// What the references of the span at a place mean that has several.
fn references_of_some(
    alloc: Global,
    places: &HashMap<String, usize>,
    place: usize,
    span: &Span,
) -> Result<References, AllocError>
    ensures { (spans : List Span) → IsPlacing places.now spans → IfOk result (λ references. references ≡ references_of spans place span.now) }
{
    let mut met = none_met(alloc);
    meet_meant(places, place, &mut met, &span.parents)?;
    let is_named = !is_none_met(&met);
    meet_meant(places, place, &mut met, &span.links)?;
    Ok(References {
        meant: Meant::Several(places_met(met)),
        is_named,
    })
}

/// What the references of the span at a place mean.
///
/// Most spans have a parent and no links: for those no table is made of what was met.
fn references_of(
    alloc: Global,
    places: &HashMap<String, usize>,
    place: usize,
    span: &Span,
) -> Result<References, AllocError>
    ensures { (spans : List Span) → IsPlacing places.now spans → IfOk result (λ references. references ≡ references_of spans place span.now) }
{
    match (span.parents.as_slice(), span.links.as_slice()) {
        ([parent], []) => Ok(references_of_one(alloc, places, place, parent)),
        _ => references_of_some(alloc, places, place, span),
    }
}

/// What the references of each span mean.
pub(crate) fn all_references(alloc: Global, spans: &[Span]) -> Result<Vec<References>, AllocError>
    ensures { IfOk result (λ references. references.items ≡ all_references spans.now) }
{
    let places = places_of(alloc, spans)?;
    let mut all = Vec::with_capacity(alloc, spans.len())?;
    for (place, span) in spans.iter().enumerate() {
        let references = references_of(alloc, &places, place, span)?;
        all.push(references)?;
    }
    Ok(all)
}
