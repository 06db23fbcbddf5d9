//! Kept orders of graphs: ranks and dependents after a step, or the cycle that it closes.
ghost use Rattle.std.specs.Prelude.{◌≡◌, IfOk};
ghost use Rattle.stage_graph.specs.Walk.{IsRanked};
ghost use Rattle.stage_graph.specs.Kept.{IsChangeBy};

use crate::edits::edits_of;
use rank_order::{Order, OrderRepresentation, PatchFault};
use recording::read_recording;
use share_tree::Held;
use stage_graph::{Edits, Fault, Graph, NoStage};
use std::alloc::{AllocError, Global};
use std::process::Abort;
use std::test::Fail;
use test_kit::{CHAIN, REWIRE_A, REWIRED};

fn loaded<R: OrderRepresentation>(alloc: Global, recording: &str) -> Result<Held<Graph<R>>, Fail>
    ensures { IfOk result (λ graph. IsRanked graph.places) }
{
    let graph = read_recording::<R>(alloc, recording.as_bytes())?;
    Ok(Held::new(alloc, graph)?)
}

/// The graph that the edits make, which may have a cycle.
fn changed<R: OrderRepresentation>(
    alloc: Global,
    graph: &Held<Graph<R>>,
    edits: &Edits,
) -> Result<Held<Graph<R>>, Fault>
    ensures { IfOk result (IsChangeBy edits.now graph.now) }
{
    match graph.change(alloc, edits) {
        Ok(changed) => Ok(Held::new(alloc, changed)?),
        Err(fault) => Err(fault),
    }
}

/// A stage: its place, its rank and its dependents.
fn stage_drawn(
    alloc: Global,
    place: u32,
    rank: u32,
    its_dependents: &[u32],
) -> Result<String, Fail> {
    Ok(format!(in alloc; "{place} rank {rank} {its_dependents:?};")?)
}

/// A place where neither query finds a stage.
fn empty_drawn<R: OrderRepresentation>(
    alloc: Global,
    order: &Order<R>,
    place: u32,
) -> Result<String, Fail> {
    match order.dependents(place) {
        Ok(_) => Err(Fail::from("one of two queries finds a stage")),
        Err(NoStage) => Ok(format!(in alloc; "{place} empty;")?),
    }
}

/// The rank and the dependents of a place, or that no stage stands there.
fn place_drawn<R: OrderRepresentation>(
    alloc: Global,
    order: &Order<R>,
    place: u32,
) -> Result<String, Fail> {
    match order.rank(place) {
        Ok(rank) => stage_drawn(alloc, place, rank, order.dependents(place)?),
        Err(NoStage) => empty_drawn(alloc, order, place),
    }
}

/// The same of each of so many places.
fn drawn<R: OrderRepresentation>(
    alloc: Global,
    order: &Order<R>,
    places: u32,
) -> Result<String, Fail> {
    let mut text = String::new(alloc);
    for place in 0..places {
        text.push_str(place_drawn(alloc, order, place)?.as_str())?;
    }
    Ok(text)
}

/// The cycle, and the order that is kept.
fn fault_drawn(alloc: Global, fault: PatchFault, kept: &str) -> Result<String, Fail> {
    match fault {
        PatchFault::Cycle(path) => {
            let path = path.as_slice();
            Ok(format!(in alloc; "cycle {path:?};{kept}")?)
        }
        PatchFault::Memory => Err(Fail::from(AllocError)),
    }
}

/// The order, drawn, or the cycle and the order that is kept.
fn answer_drawn<R: OrderRepresentation>(
    alloc: Global,
    answer: Result<Order<R>, PatchFault>,
    places: u32,
    kept: &str,
) -> Result<String, Fail> {
    match answer {
        Ok(order) => drawn(alloc, &order, places),
        Err(fault) => fault_drawn(alloc, fault, kept),
    }
}

/// The order of the graph after edits, or the cycle and the order that is kept.
fn order_after<R: OrderRepresentation>(
    alloc: Global,
    graph: &Held<Graph<R>>,
    order: &Order<R>,
    edits: &Edits,
    kept: &str,
) -> Result<String, Fail>
    requires { order.now.graph ≡ graph.now }
{
    let changed = changed(alloc, graph, edits)?;
    let answer = order.patch(alloc, &changed, edits);
    answer_drawn(alloc, answer, changed.len() as u32, kept)
}

/// The order of the graph after edits; the order before them stays as it was.
fn told_and_kept<R: OrderRepresentation>(
    rt: &impl Abort,
    alloc: Global,
    graph: &Held<Graph<R>>,
    order: &Order<R>,
    edits: &Edits,
) -> Result<String, Fail>
    requires { order.now.graph ≡ graph.now }
{
    let before = drawn(alloc, order, graph.len() as u32)?;
    let text = order_after(alloc, graph, order, edits, before.as_str())?;
    let after = drawn(alloc, order, graph.len() as u32)?;
    assert!(rt; after.as_str() == before.as_str());
    Ok(text)
}

/// The order of a graph after a step.
fn patched_graph<R: OrderRepresentation>(
    rt: &impl Abort,
    alloc: Global,
    graph: &Held<Graph<R>>,
    step: &str,
) -> Result<String, Fail>
    requires { IsRanked graph.now.places }
{
    let edits = edits_of(alloc, step)?;
    let order = Order::build(alloc, graph)?;
    told_and_kept(rt, alloc, graph, &order, &edits)
}

/// The order of the recording's graph after a step.
fn patched<R: OrderRepresentation>(
    rt: &impl Abort,
    alloc: Global,
    recording: &str,
    step: &str,
) -> Result<String, Fail> {
    let graph: Held<Graph<R>> = loaded(alloc, recording)?;
    patched_graph(rt, alloc, &graph, step)
}

/// Each step has this order.
fn patched_so<R: OrderRepresentation>(
    rt: &impl Abort,
    alloc: Global,
    recording: &str,
    rows: &[(&str, &str)],
) -> Result<(), Fail> {
    for (step, wanted) in rows {
        let found = patched::<R>(rt, alloc, recording, step)?;
        assert!(rt; found.as_str() == *wanted);
    }
    Ok(())
}

/// Whether an order says of a place that no stage stands there.
fn is_refused<R: OrderRepresentation>(order: &Order<R>, place: u32) -> bool {
    order.rank(place) == Err(NoStage) && order.dependents(place) == Err(NoStage)
}

fn order_of_no_stage<R: OrderRepresentation>(rt: &impl Abort, alloc: Global) -> Result<(), Fail> {
    let graph: Held<Graph<R>> = loaded(alloc, CHAIN)?;
    let order = Order::build(alloc, &graph)?;
    assert!(rt; is_refused(&order, 3));
    assert!(rt; !is_refused(&order, 2));
    Ok(())
}

fn cycle<R: OrderRepresentation>(rt: &impl Abort, alloc: Global) -> Result<(), Fail> {
    let rows = [
        (
            r#"{"do":"rewire","session":1,"stage":"a","sources":["b"],"inner":[]}"#,
            "cycle [1, 2, 1];0 rank 0 [1];1 rank 1 [2];2 rank 2 [];",
        ),
        (
            r#"{"do":"rewire","session":1,"stage":"a","sources":["a"],"inner":[]}"#,
            "cycle [1, 1];0 rank 0 [1];1 rank 1 [2];2 rank 2 [];",
        ),
    ];
    patched_so::<R>(rt, alloc, CHAIN, &rows)
}

fn rewire_propagates<R: OrderRepresentation>(rt: &impl Abort, alloc: Global) -> Result<(), Fail> {
    let rows = [(
        REWIRE_A,
        "0 rank 0 [1];1 rank 1 [2];2 rank 2 [3, 4];3 rank 3 [4, 5];4 rank 4 [];5 rank 4 [];",
    )];
    patched_so::<R>(rt, alloc, REWIRED, &rows)
}

/// What holds of kept orders.
pub(crate) fn hold<R: OrderRepresentation, H: Abort>(rt: &H, alloc: Global) -> Result<(), Fail> {
    order_of_no_stage::<R>(rt, alloc)?;
    cycle::<R>(rt, alloc)?;
    rewire_propagates::<R>(rt, alloc)
}
