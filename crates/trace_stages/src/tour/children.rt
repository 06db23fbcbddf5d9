//! The children of spans, in an order.
ghost use Rattle.std.specs.Prelude.{◌≡◌, ℕ, ◌<◌, ◌==◌, ◌++◌, [], ◌∷◌, IfOk, OnOk, if◌then◌else◌, vec_len};
ghost use Rattle.trace_stages.specs.Visits.{HasChildren, children_at, parent_at, roots};

use std::alloc::{AllocError, Global};

/// The parent of the span at a place, where it is a span.
fn parent_at(parents: &[Option<usize>], place: usize) -> Option<usize>
    ensures { result ≡ parent_at parents.now place }
{
    let parent = match parents.get(place) {
        Some(parent) => (*parent)?,
        None => return None,
    };
    if parent < parents.len() {
        Some(parent)
    } else {
        None
    }
}

/// The spans without parents, in the order of places.
pub(crate) fn roots(
    alloc: Global,
    parents: &[Option<usize>],
    order: &[usize],
) -> Result<Vec<usize>, AllocError>
    ensures { IfOk result (λ places. places.items ≡ roots parents.now order.now) }
{
    let mut places = Vec::new(alloc);
    for place in order {
        if parent_at(parents, *place).is_none() {
            places.push(*place)?;
        }
    }
    Ok(places)
}

/// No children of so many spans.
fn no_children(alloc: Global, count: usize) -> Result<Vec<Vec<usize>>, AllocError>
    ensures { IfOk result (λ all. (vec_len all ≡ count) × ((place : ℕ) → children_at all.items place ≡ [])) }
{
    let mut all = Vec::with_capacity(alloc, count)?;
    for _place in 0..count {
        all.push(Vec::new(alloc))?;
    }
    Ok(all)
}

/// Adds a child of a span.
fn add_child(all: &mut Vec<Vec<usize>>, parent: usize, place: usize) -> Result<(), AllocError>
    requires { parent < vec_len all.old }
    ensures kept { OnOk result (vec_len all.new ≡ vec_len all.old) }
    ensures added { OnOk result ((other : ℕ) → children_at all.new.items other ≡ (if other == parent then children_at all.old.items other ++ place ∷ [] else children_at all.old.items other)) }
{
    all[parent].push(place)?;
    Ok(())
}

/// The children of each span, in the order of places.
pub(crate) fn all_children(
    alloc: Global,
    parents: &[Option<usize>],
    order: &[usize],
) -> Result<Vec<Vec<usize>>, AllocError>
    ensures { IfOk result (λ all. HasChildren parents.now order.now all.items) }
{
    let mut all = no_children(alloc, parents.len())?;
    for place in order {
        if let Some(parent) = parent_at(parents, *place) {
            add_child(&mut all, parent, *place)?;
        }
    }
    Ok(all)
}

/// The children of the span at a place.
pub(crate) fn children_at(all: &[Vec<usize>], place: usize) -> &[usize]
    ensures { result.now ≡ children_at all.now place }
{
    match all.get(place) {
        Some(children) => children.as_slice(),
        None => &[],
    }
}
