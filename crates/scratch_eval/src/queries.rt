//! Queries about one stage of a graph: who is to blame, and which stages depend on it.
ghost use Rattle.std.specs.Prelude.{◌≡◌, ℕ, ◌<◌, Option, Some, IfOk};
ghost use Rattle.stage_graph.specs.declared.stage.Stage.{Stage};
ghost use Rattle.stage_graph.specs.Plain.{PlainGraph, uses, dependents, stage_at};
ghost use Rattle.stage_graph.specs.Sound.{IsSound};
ghost use Rattle.stage_ops.specs.declared.state.State.{State};
ghost use Rattle.stage_ops.specs.States.{Completion};
ghost use Rattle.scratch_eval.specs.Answers.{AreAnswers};
ghost use Rattle.scratch_eval.specs.Queries.{AnswersOrMemory, chain_at, dependents_at};

use crate::answers::Answers;
use crate::blame::follow_blame;
use crate::fault::QueryFault;
use stage_graph::{Graph, Places, Representation};
use std::alloc::{AllocError, Global};

/// The chain of blame of a live stage: the stage itself where it completed by an exception, and then the chain of the
/// source whose exception it took over. It is empty where the stage is pending or holds a value.
pub fn chain(alloc: Global, answers: &Answers, place: u32) -> Result<Places, QueryFault>
    ensures { (step : Stage → (ℕ → Option Completion) → State) (graph : PlainGraph) → IsSound graph → AreAnswers step graph.places answers.now → AnswersOrMemory (chain_at step graph.places place) result }
{
    let Some(_) = answers.get(place) else {
        return Err(QueryFault::NoStage);
    };
    let chain = follow_blame(alloc, answers, answers.len(), place)?;
    Ok(chain)
}

/// The dependents of a place: the places whose stages have it among their feeds.
fn all_dependents<R: Representation>(
    alloc: Global,
    graph: &Graph<R>,
    place: u32,
) -> Result<Places, AllocError>
    ensures { IfOk result (λ found. found ≡ dependents graph.now.places place) }
{
    let mut found = Vec::new(alloc);
    for dependent in 0..graph.len() {
        let dependent = dependent as u32;
        if let Some(stage) = graph.stage(dependent) {
            if stage.has_feed(place) {
                found.push(dependent)?;
            }
        }
    }
    Ok(Places::from_vec(found))
}

/// The dependents of a live stage: those that have it among their feeds, each once, in the order of their places.
pub fn dependents_of<R: Representation>(
    alloc: Global,
    graph: &Graph<R>,
    place: u32,
) -> Result<Places, QueryFault>
    ensures { AnswersOrMemory (dependents_at graph.now.places place) result }
{
    if graph.stage(place).is_none() {
        return Err(QueryFault::NoStage);
    }
    let found = all_dependents(alloc, graph, place)?;
    Ok(found)
}
