//! Graphs: edits of them, their orders, and evaluation from scratch.
ghost use Rattle.stage_graph.specs.Walk.{IsRanked};

use crate::refusals::Window;
use crate::scene::Scene;
use crate::sources::{edits_of, held_graph_of};
use crate::texts::{push_answers, push_graph, push_made, push_order, push_places};
use crate::told::Told;
use crate::turn::{Turn, shown};
use anyhow::Result;
use rank_order::{Order, OrderRepresentation};
use scratch_eval::{Answers, chain, dependents_of, evaluate};
use share_tree::Held;
use stage_graph::{Edits, Graph};
use stage_ops::{JavaOps, Meter};
use std::alloc::{AllocError, Global};

/// The marker of the meters.
#[derive(Drop)]
struct Counted;

/// A graph without cycles, its answers, and edits.
#[derive(Drop)]
struct Asked<'a, R: OrderRepresentation> {
    scene: Scene<'a>,
    graph: Held<Graph<R>>,
    answers: Answers,
    edits: &'a Edits,
    ghost ranked: { IsRanked graph.places },
}

/// The answers of a graph, evaluated from scratch.
fn evaluated<R: OrderRepresentation>(
    alloc: Global,
    graph: &Held<Graph<R>>,
) -> Result<Answers, AllocError>
    requires { IsRanked graph.now.places }
{
    let mut meter = Meter::new(Counted);
    evaluate(alloc, graph, &JavaOps, &mut meter)
}

/// The graph of the recording, and edits.
fn asked_by<'a, R: OrderRepresentation>(
    alloc: Global,
    scene: Scene<'a>,
    edits: &'a Edits,
) -> Result<Asked<'a, R>> {
    let graph = held_graph_of(alloc, scene.recording())?;
    let answers = evaluated(alloc, &graph)?;
    Ok(Asked {
        scene,
        graph,
        answers,
        edits,
    })
}

/// Tells an order.
fn push_built<R: OrderRepresentation>(
    text: &mut Told,
    answer: &Result<Order<R>, AllocError>,
) -> bool {
    match answer {
        Ok(order) => push_order(text, order),
        Err(_) => return true,
    }
    false
}

/// Tells the answers of a graph.
fn push_evaluated(text: &mut Told, answer: &Result<Answers, AllocError>) -> bool {
    match answer {
        Ok(answers) => push_answers(text, answers),
        Err(_) => return true,
    }
    false
}

impl<R: OrderRepresentation> Asked<'_, R> {
    /// The graph with the edits made, with or without cycles.
    fn push_edited(&self, window: &mut Window, text: &mut Told) -> bool {
        let alloc = window.alloc;
        window.begin();
        let made = match self.scene.call {
            "change" => self.graph.change(alloc, self.edits),
            _ => self.graph.apply(alloc, self.edits),
        };
        window.end();
        push_made(alloc, text, &made)
    }

    /// The graph's order.
    fn push_order(&self, window: &mut Window, text: &mut Told) -> bool {
        window.begin();
        let order = Order::build(window.alloc, &self.graph);
        window.end();
        push_built(text, &order)
    }

    /// The graph, evaluated from scratch.
    fn push_evaluated(&self, window: &mut Window, text: &mut Told) -> bool {
        window.begin();
        let answers = evaluated(window.alloc, &self.graph);
        window.end();
        push_evaluated(text, &answers)
    }

    /// Places that are asked for.
    fn push_places(&self, window: &mut Window, text: &mut Told) -> bool {
        let (alloc, place) = (window.alloc, self.scene.number);
        window.begin();
        let places = match self.scene.call {
            "chain" => chain(alloc, &self.answers, place),
            _ => dependents_of(alloc, &self.graph, place),
        };
        window.end();
        push_places(text, &places)
    }

    /// Tells the graph and its answers.
    fn push_value(&self, alloc: Global, text: &mut Told) {
        push_answers(text, &self.answers);
        push_graph(alloc, text, &self.graph);
    }

    /// The call.
    fn push_answer(&self, window: &mut Window, text: &mut Told) -> bool {
        match self.scene.call {
            "change" | "apply" => self.push_edited(window, text),
            "build" => self.push_order(window, text),
            "evaluate" => self.push_evaluated(window, text),
            _ => self.push_places(window, text),
        }
    }

    fn show(&self, window: &mut Window, turn: &mut Turn) {
        shown!(
            turn,
            window,
            |text| self.push_value(window.alloc, text),
            |window, text| self.push_answer(window, text)
        )
    }
}

/// A call about the recording's graph, or about what edits make of it.
fn show_with<R: OrderRepresentation>(
    window: &mut Window,
    scene: Scene<'_>,
    turn: &mut Turn,
    edits: &Edits,
) -> Result<()> {
    let asked: Asked<'_, R> = asked_by(window.alloc, scene, edits)?;
    asked.show(window, turn);
    Ok(())
}

/// A call about a graph, with the edits of the step.
pub(crate) fn show<R: OrderRepresentation>(
    window: &mut Window,
    scene: Scene<'_>,
    turn: &mut Turn,
) -> Result<()> {
    let edits = edits_of(window.alloc, scene.step())?;
    show_with::<R>(window, scene, turn, &edits)
}
