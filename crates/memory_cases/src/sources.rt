//! What recordings and steps name.
ghost use Rattle.std.specs.Prelude.{IfOk};
ghost use Rattle.stage_graph.specs.Walk.{IsRanked};

use anyhow::{Result, bail};
use recording::{Step, read_recording, read_step};
use session_core::Event;
use share_tree::Held;
use stage_graph::{Edits, Graph, Representation};
use std::alloc::Global;

/// The graph of a recording that is not refused.
pub(crate) fn graph_of<R: Representation>(alloc: Global, recording: &str) -> Result<Graph<R>>
    ensures { IfOk result (λ graph. IsRanked graph.places) }
{
    match read_recording(alloc, recording.as_bytes()) {
        Ok(graph) => Ok(graph),
        Err(fault) => bail!("{fault}"),
    }
}

/// The same graph, held.
pub(crate) fn held_graph_of<R: Representation>(
    alloc: Global,
    recording: &str,
) -> Result<Held<Graph<R>>>
    ensures { IfOk result (λ graph. IsRanked graph.places) }
{
    let graph = graph_of(alloc, recording)?;
    Ok(Held::new(alloc, graph)?)
}

/// The step of a text that is not refused.
fn step_of(alloc: Global, step: &str) -> Result<Step> {
    match read_step(alloc, step.as_bytes()) {
        Ok(step) => Ok(step),
        Err(fault) => bail!("{fault}"),
    }
}

/// The edits of a step.
pub(crate) fn edits_of(alloc: Global, step: &str) -> Result<Edits> {
    match step_of(alloc, step)? {
        Step::Change { edits, .. } => Ok(edits),
        _ => bail!("the step edits nothing"),
    }
}

/// The same edits, held.
pub(crate) fn held_edits_of(alloc: Global, step: &str) -> Result<Held<Edits>> {
    let edits = edits_of(alloc, step)?;
    Ok(Held::new(alloc, edits)?)
}

/// The session, the base and the edits of a step. A commit without a base is of version 0.
pub(crate) fn commit_of(alloc: Global, step: &str) -> Result<(u32, u32, Held<Edits>)> {
    match step_of(alloc, step)? {
        Step::Change {
            session,
            base,
            edits,
            ..
        } => Ok((session, base.unwrap_or(0), Held::new(alloc, edits)?)),
        _ => bail!("the step edits nothing"),
    }
}

/// The event of a step. A commit without a base is of version 0.
pub(crate) fn event_of(alloc: Global, step: &str) -> Result<Event> {
    Ok(match step_of(alloc, step)? {
        Step::Open { session, version } => Event::Open { session, version },
        Step::Head { session } => Event::Head { session },
        Step::Undo { session } => Event::Undo { session },
        Step::Close { session } => Event::Close { session },
        Step::Change {
            session,
            base,
            edits,
            ..
        } => Event::Commit {
            session,
            base: base.unwrap_or(0),
            edit: Held::new(alloc, edits)?,
        },
        Step::Report { .. } => bail!("a report is no event"),
    })
}
