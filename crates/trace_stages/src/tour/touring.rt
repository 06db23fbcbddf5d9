//! The visits of spans, from the roots on.
ghost use Rattle.std.specs.Prelude.{◌≡◌, ℕ, ◌+◌, ◌++◌, List, IfOk, OnOk, Option, length, map, reverse};
ghost use Rattle.trace_stages.specs.Visits.{HasChildren, entering, pending, visits, visits_coming};

use crate::tour::children::{children_at, roots};
use crate::tour::visit::Visit;
use std::alloc::{AllocError, Global};

/// No span has so many ancestors.
const MOST_GENERATIONS: u32 = 65_536;

/// What is to come: a span is entered, with so many generations below it, or left.
#[derive(Clone, Copy)]
enum Coming {
    Enter(usize, u32),
    Leave(usize),
}

/// Puts spans before what is to come, so that the first of them comes first.
fn put_first(coming: &mut Vec<Coming>, places: &[usize], generations: u32) -> Result<(), AllocError>
    ensures { OnOk result (reverse coming.new.items ≡ map (entering generations) places.now ++ reverse coming.old.items) }
{
    for passed in 0..places.len() {
        let place = places[places.len() - 1 - passed];
        coming.push(Coming::Enter(place, generations))?;
    }
    Ok(())
}

/// Makes the next visit.
fn visit(
    all: &[Vec<usize>],
    visits: &mut Vec<Visit>,
    coming: &mut Vec<Coming>,
    next: Coming,
) -> Result<(), AllocError>
    ensures one { OnOk result (length visits.new.items ≡ length visits.old.items + 1) }
    ensures same { (parents : List (Option ℕ)) (order : List ℕ) → HasChildren parents order all.now → OnOk result (visits.new.items ++ pending parents order coming.new.items ≡ visits.old.items ++ (visits_coming parents order next ++ pending parents order coming.old.items)) }
{
    match next {
        Coming::Leave(place) => visits.push(Visit::Leaves(place))?,
        Coming::Enter(place, generations) => {
            visits.push(Visit::Enters(place))?;
            coming.push(Coming::Leave(place))?;
            if generations > 0 {
                put_first(coming, children_at(all, place), generations - 1)?;
            }
        }
    }
    Ok(())
}

/// For how many visits room is made at first: as a rule each span of an order is entered and left, where there is a root.
fn first_room(first: &[usize], order: &[usize]) -> usize {
    if first.is_empty() {
        0
    } else {
        order.len().saturating_mul(2)
    }
}

/// The visits of all spans, in an order, whose children are these.
pub(crate) fn visits_of(
    alloc: Global,
    parents: &[Option<usize>],
    order: &[usize],
    all: &[Vec<usize>],
) -> Result<Vec<Visit>, AllocError>
    requires { HasChildren parents.now order.now all.now }
    ensures { IfOk result (λ all. all.items ≡ visits parents.now order.now) }
{
    let first = roots(alloc, parents, order)?;
    let mut visits = Vec::with_capacity(alloc, first_room(&first, order))?;
    let mut coming = Vec::new(alloc);
    put_first(&mut coming, &first, MOST_GENERATIONS)?;
    while let Some(next) = coming.pop() {
        visit(all, &mut visits, &mut coming, next)?;
    }
    Ok(visits)
}
