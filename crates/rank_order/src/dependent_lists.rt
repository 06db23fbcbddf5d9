//! Lists of dependents.
ghost use Rattle.std.specs.Prelude.{◌≡◌, ◌<◌, ◌≤◌, ◌+◌, ◌-◌, ◌||◌, ◌==◌, ◌↔◌, IsTrue, true, ℕ, Bool, [], length, map, All, slice_index, slice_index_or, IfOk, OnOk};
ghost use Rattle.stage_graph.specs.Plain.{all_places, dependents};
ghost use Rattle.rank_order.specs.DependentLists.{AreDependents, AreDependentLists, uses_by_feeds, uses_before, with_feeds, listed};

use crate::lists::add;
use crate::representation::OrderRepresentation;
use share_tree::{Held, Keeps};
use stage_graph::{Graph, Places};
use std::alloc::{AllocError, Global};
use std::ops::Deref;

/// The dependents of a place by these lists, and none past their end.
#[tactic(auto, using(crate::proofs::Setting::read_none))]
#[inline(always)]
pub(crate) fn dependents_at<K: Keeps<Held<Places>>>(dependents: &K, place: u32) -> &[u32]
    ensures { result.now ≡ slice_index_or (K.items dependents.now) place [] }
{
    match dependents.get(place as usize) {
        Some(its_dependents) => its_dependents.deref().as_slice(),
        None => &[],
    }
}

/// Whether the last of the places is this one.
fn ends_with(its_dependents: &[u32], dependent: u32) -> bool
    ensures { IsTrue result ↔ (0 < length its_dependents.now) × (slice_index its_dependents.now (length its_dependents.now - 1) ≡ dependent) }
{
    match its_dependents.last() {
        Some(last) => *last == dependent,
        None => false,
    }
}

/// Adds a dependent that is no earlier than the others, unless it is the last of them already.
fn add_once(its_dependents: &mut Vec<u32>, dependent: u32) -> Result<(), AllocError>
    ensures { OnOk result ((uses : ℕ → Bool) → ((other : ℕ) → uses other ≡ true → other ≤ dependent)
        → AreDependents uses its_dependents.old.items → AreDependents (λ other. uses other || other == dependent) its_dependents.new.items) }
{
    if !ends_with(its_dependents, dependent) {
        its_dependents.push(dependent)?;
    }
    Ok(())
}

/// Adds a dependent to the lists of its feeds.
fn add_dependent(lists: &mut Vec<Vec<u32>>, feeds: &[u32], dependent: u32) -> Result<(), AllocError>
    requires { All (λ feed. feed < length lists.old.items) feeds.now }
    ensures long { OnOk result (length lists.new.items ≡ length lists.old.items) }
    ensures its_dependents { OnOk result ((uses : ℕ → ℕ → Bool) (count : ℕ) → ((place other : ℕ) → uses place other ≡ true → other ≤ dependent)
        → AreDependentLists uses count (listed lists.old.items) → AreDependentLists (with_feeds uses dependent feeds.now) count (listed lists.new.items)) }
{
    for feed in feeds {
        add_once(&mut lists[*feed as usize], dependent)?;
    }
    Ok(())
}

/// Adds a stage to the lists of its feeds.
fn add_stage<R: OrderRepresentation>(
    lists: &mut Vec<Vec<u32>>,
    graph: &Graph<R>,
    dependent: u32,
) -> Result<(), AllocError>
    requires { length lists.old.items ≡ length graph.now.places }
    ensures long { OnOk result (length lists.new.items ≡ length lists.old.items) }
    ensures its_dependents { OnOk result (AreDependentLists (uses_before graph.now.places dependent) (length graph.now.places) (listed lists.old.items)
        → AreDependentLists (uses_before graph.now.places (dependent + 1)) (length graph.now.places) (listed lists.new.items)) }
{
    if let Some(stage) = graph.stage(dependent) {
        add_dependent(lists, stage.sources.as_slice(), dependent)?;
        add_dependent(lists, stage.inner.as_slice(), dependent)?;
    }
    Ok(())
}

/// The lists of a graph's dependents, each as a vector.
fn lists_of<R: OrderRepresentation>(
    alloc: Global,
    graph: &Graph<R>,
) -> Result<Vec<Vec<u32>>, AllocError>
    ensures { IfOk result (λ lists. AreDependentLists (uses_by_feeds graph.now.places) (length graph.now.places) (listed lists.items)) }
{
    let mut lists = Vec::with_capacity(alloc, graph.len())?;
    for _place in 0..graph.len() {
        lists.push(Vec::new(alloc))?;
    }
    for dependent in 0..graph.len() {
        add_stage(&mut lists, graph, dependent as u32)?;
    }
    Ok(lists)
}

/// The dependents of each place of a graph, by one pass over its stages.
pub(crate) fn dependents_of<R: OrderRepresentation>(
    alloc: Global,
    graph: &Graph<R>,
) -> Result<R::Dependents, AllocError>
    ensures { IfOk result (λ lists. R.Dependents.items lists ≡ map (dependents graph.now.places) (all_places graph.now.places)) }
{
    // With its length a graph says that it is sound, as every graph is.
    let _ = graph.len();
    let lists = lists_of(alloc, graph)?;
    let mut kept = R::Dependents::empty(alloc);
    for its_dependents in lists {
        add(
            &mut kept,
            Held::new(alloc, Places::from_vec(its_dependents))?,
        )?;
    }
    Ok(kept)
}
