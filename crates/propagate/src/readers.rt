//! Marks of the places that have to be computed: the edited stages, and those that read a stage which changed.
ghost use Rattle.std.specs.Prelude.{◌≡◌, ◌<◌, ◌&&◌, ◌||◌, ◌==◌, ℕ, List, IfOk, OnOk, All, is_some, length, map, Some, true, false};
ghost use Rattle.std.specs.List.{list_any};
ghost use Rattle.stage_graph.specs.Plain.{stage_at, feeds_at, IsLive};
ghost use Rattle.stage_graph.specs.Walk.{rank};
ghost use Rattle.stage_ops.specs.declared.state.State.{State};
ghost use Rattle.stage_ops.specs.States.{state_at};
ghost use Rattle.rank_order.specs.Lists.{is_among};
ghost use Rattle.rank_order.specs.Marks.{has_place, is_marked, AreMarks};
ghost use Rattle.stage_graph.specs.Plain.{dependents};
ghost use Rattle.propagate.specs.Reach.{has_read, is_told};

use crate::kept::KeptState;
use crate::reads::has_read;
use crate::representation::StateRepresentation;
use crate::states::States;
use crate::telling::Telling;
use rank_order::{Marks, Order, OrderRepresentation};
use share_tree::Held;
use stage_graph::Graph;
use std::alloc::{AllocError, Global};

/// The dependents of a place: the places whose stages have it as a feed.
#[inline(always)]
pub(crate) fn dependents_of<R: OrderRepresentation>(order: &Order<R>, place: u32) -> &[u32]
    requires { IsLive order.now.graph.places place }
    ensures { result.now ≡ dependents order.now.graph.places place }
{
    match order.dependents(place) {
        Ok(dependents) => dependents,
        Err(_) => unreachable!(),
    }
}

/// Marks a place, if a stage stands there.
#[inline(always)]
fn mark<R: OrderRepresentation>(
    marks: &mut Marks,
    order: &Order<R>,
    place: u32,
) -> Result<(), AllocError>
    ensures marked { OnOk result ((other : ℕ) → is_marked (rank order.now.graph.places) marks.new other
        ≡ (is_marked (rank order.now.graph.places) marks.old other || (is_some (stage_at order.now.graph.places place) && other == place))) }
    ensures marks { OnOk result (AreMarks (rank order.now.graph.places) marks.old → AreMarks (rank order.now.graph.places) marks.new) }
{
    match order.rank(place) {
        Ok(rank) => marks.insert(rank, place),
        Err(_) => Ok(()),
    }
}

/// Marks a place that is not marked, if a stage stands there.
#[inline(always)]
fn mark_new<R: OrderRepresentation>(
    marks: &mut Marks,
    order: &Order<R>,
    place: u32,
) -> Result<(), AllocError>
    requires { has_place marks.old place ≡ false }
    ensures marked { OnOk result ((other : ℕ) → is_marked (rank order.now.graph.places) marks.new other
        ≡ (is_marked (rank order.now.graph.places) marks.old other || (is_some (stage_at order.now.graph.places place) && other == place))) }
    ensures marks { OnOk result (AreMarks (rank order.now.graph.places) marks.old → AreMarks (rank order.now.graph.places) marks.new) }
{
    match order.rank(place) {
        Ok(rank) => marks.add(rank, place),
        Err(_) => Ok(()),
    }
}

/// The marks of the edited places where stages stand.
pub(crate) fn first_marks<R: OrderRepresentation>(
    alloc: Global,
    order: &Order<R>,
    edited: &[u32],
) -> Result<Marks, AllocError>
    ensures marked { IfOk result (λ marks. (place : ℕ) → is_marked (rank order.now.graph.places) marks place
        ≡ (is_some (stage_at order.now.graph.places place) && is_among place edited.now)) }
    ensures marks { IfOk result (AreMarks (rank order.now.graph.places)) }
{
    let mut marks = Marks::new(alloc);
    for place in edited {
        mark(&mut marks, order, *place)?;
    }
    Ok(marks)
}

/// Whether the stage at a place has read one of its feeds.
fn is_reader<R: StateRepresentation>(
    graph: &Graph<R>,
    states: &States<R>,
    feed: u32,
    place: u32,
) -> bool
    requires count { length states.now ≡ length graph.now.places }
    requires feed { is_among feed (feeds_at graph.now.places place) ≡ true }
    ensures { result ≡ has_read graph.now.places (state_at states.now) feed place }
{
    match graph.stage(place) {
        Some(stage) => has_read(stage, states.reads(place), feed),
        None => false,
    }
}

/// Marks the stage at a place if it has read one of its feeds. One that reads several places which changed is looked up at the first
/// of them alone: it is computed after all of them, so at the others it is marked.
#[inline(always)]
fn mark_reader<R: StateRepresentation>(
    marks: &mut Marks,
    graph: &Graph<R>,
    order: &Order<R>,
    states: &States<R>,
    feed: u32,
    place: u32,
) -> Result<(), AllocError>
    requires order { order.now.graph ≡ graph.now }
    requires count { length states.now ≡ length graph.now.places }
    requires feed { is_among feed (feeds_at graph.now.places place) ≡ true }
    requires marks { AreMarks (rank graph.now.places) marks.old }
    ensures marked { OnOk result ((other : ℕ) → is_marked (rank graph.now.places) marks.new other
        ≡ (is_marked (rank graph.now.places) marks.old other || (has_read graph.now.places (state_at states.now) feed place && other == place))) }
    ensures marks { OnOk result (AreMarks (rank graph.now.places) marks.old → AreMarks (rank graph.now.places) marks.new) }
{
    if marks.has(place) {
        return Ok(());
    }
    if is_reader(graph, states, feed, place) {
        return mark_new(marks, order, place);
    }
    Ok(())
}

/// Marks the stages that have read a feed, which are among its dependents.
fn mark_readers<R: StateRepresentation>(
    marks: &mut Marks,
    graph: &Graph<R>,
    order: &Order<R>,
    states: &States<R>,
    feed: u32,
    listed: &[u32],
) -> Result<(), AllocError>
    requires order { order.now.graph ≡ graph.now }
    requires count { length states.now ≡ length graph.now.places }
    requires listed { listed.now ≡ dependents graph.now.places feed }
    requires marks { AreMarks (rank graph.now.places) marks.old }
    ensures marked { OnOk result ((place : ℕ) → is_marked (rank graph.now.places) marks.new place
        ≡ (is_marked (rank graph.now.places) marks.old place
        || (is_among feed (feeds_at graph.now.places place) && has_read graph.now.places (state_at states.now) feed place))) }
    ensures marks { OnOk result (AreMarks (rank graph.now.places) marks.old → AreMarks (rank graph.now.places) marks.new) }
{
    for dependent in listed {
        mark_reader(marks, graph, order, states, feed, *dependent)?;
    }
    Ok(())
}

/// Marks the stages that have read a place of the level whose state has changed.
pub(crate) fn mark_level<'a, R: StateRepresentation>(
    marks: &mut Marks,
    telling: &mut Telling<'a>,
    graph: &Graph<R>,
    order: &'a Order<R>,
    states: &States<R>,
    level: &[u32],
    results: &[Option<Held<KeptState>>],
) -> Result<(), AllocError>
    requires order { order.now.graph ≡ graph.now }
    requires count { length states.now ≡ length graph.now.places }
    requires live { All (IsLive graph.now.places) level.now }
    requires within { All (λ place. place < length states.now) level.now }
    requires each { length results.now ≡ length level.now }
    requires marks { AreMarks (rank graph.now.places) marks.old }
    ensures marked { OnOk result ((state : ℕ → State) → results.now ≡ map (λ place. Some (state place)) level.now → (place : ℕ)
        → is_marked (rank graph.now.places) marks.new place
        ≡ (is_marked (rank graph.now.places) marks.old place || list_any (is_told graph.now.places (state_at states.now) state place) level.now)) }
    ensures marks { OnOk result (AreMarks (rank graph.now.places) marks.old → AreMarks (rank graph.now.places) marks.new) }
{
    telling.find(order, states, level, results)?;
    for at in 0..level.len() {
        if let Some(told) = telling.told[at] {
            mark_readers(marks, graph, order, states, level[at], told.dependents)?;
        }
    }
    Ok(())
}
