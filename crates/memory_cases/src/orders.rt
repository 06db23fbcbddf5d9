//! Orders that are patched.
ghost use Rattle.std.specs.Prelude.{IfOk};
ghost use Rattle.stage_graph.specs.Kept.{IsChangeBy};
ghost use Rattle.stage_graph.specs.Walk.{IsRanked};

use crate::refusals::Window;
use crate::scene::Scene;
use crate::sources::{edits_of, held_graph_of};
use crate::texts::push_order;
use crate::told::Told;
use crate::turn::{Turn, shown};
use anyhow::{Result, bail};
use rank_order::{Order, OrderRepresentation, PatchFault};
use share_tree::Held;
use stage_graph::{Edits, Graph};
use std::alloc::Global;

/// The graph that edits make.
fn changed<R: OrderRepresentation>(
    alloc: Global,
    graph: &Held<Graph<R>>,
    edits: &Edits,
) -> Result<Held<Graph<R>>>
    ensures { IfOk result (IsChangeBy edits.now graph.now) }
{
    match graph.change(alloc, edits) {
        Ok(changed) => Ok(Held::new(alloc, changed)?),
        Err(fault) => bail!("{fault}"),
    }
}

/// Tells an order, or why there is none.
fn push_patched<R: OrderRepresentation>(
    text: &mut Told,
    answer: &Result<Order<R>, PatchFault>,
) -> bool {
    match answer {
        Ok(order) => push_order(text, order),
        Err(PatchFault::Cycle(path)) => text.push_numbers(path.as_slice()),
        Err(PatchFault::Memory) => return true,
    }
    false
}

/// The patch of an order.
fn push_answer<R: OrderRepresentation>(
    window: &mut Window,
    text: &mut Told,
    order: &Order<R>,
    changed: &Held<Graph<R>>,
    edits: &Edits,
) -> bool
    requires { IsChangeBy edits.now order.now.graph changed.now }
{
    window.begin();
    let answer = order.patch(window.alloc, changed, edits);
    window.end();
    push_patched(text, &answer)
}

/// The patch of an order for the graph that edits make, which may have a cycle.
fn show_on<R: OrderRepresentation>(
    window: &mut Window,
    turn: &mut Turn,
    order: &Order<R>,
    changed: &Held<Graph<R>>,
    edits: &Edits,
)
    requires { IsChangeBy edits.now order.now.graph changed.now }
{
    shown!(
        turn,
        window,
        |text| push_order(text, order),
        |window, text| push_answer(window, text, order, changed, edits)
    )
}

/// The patch of a graph's order for edits.
fn show_of<R: OrderRepresentation>(
    window: &mut Window,
    turn: &mut Turn,
    graph: &Held<Graph<R>>,
    edits: &Edits,
) -> Result<()>
    requires { IsRanked graph.now.places }
{
    let changed = changed(window.alloc, graph, edits)?;
    let order = Order::build(window.alloc, graph)?;
    show_on(window, turn, &order, &changed, edits);
    Ok(())
}

/// The patch of the order of the recording's graph, for the edits of the step.
pub(crate) fn show<R: OrderRepresentation>(
    window: &mut Window,
    scene: Scene<'_>,
    turn: &mut Turn,
) -> Result<()> {
    let edits = edits_of(window.alloc, scene.step())?;
    let graph: Held<Graph<R>> = held_graph_of(window.alloc, scene.recording())?;
    show_of(window, turn, &graph, &edits)
}
