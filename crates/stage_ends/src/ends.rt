//! The ends of all stages.
ghost use Rattle.std.specs.Prelude.{◌≡◌, ◌≤◌, ◌^◌, ◌++◌, All, IfOk, OnOk, map};
ghost use Rattle.stage_ops.specs.Among.{IsEarlyEnd};
ghost use Rattle.stage_ops.specs.Ended.{acts_at};
ghost use Rattle.stage_ends.specs.Ends.{completed_at, end_fate, ends, fate_of, fates_at, fates_from, fates_of, missed};
ghost use Rattle.stage_ends.specs.Told.{IsTold, end_of, all_ends};

use crate::completed::{Completed, completed_at};
use crate::fate::{EndFate, Fate};
use propagate::StateRepresentation;
use stage_graph::{Act, End, Stage};
use std::alloc::{AllocError, Global};
use version_store::{StageView, Version};

/// What became of each end of each live stage, by place and then in the order of the stage's list.
pub fn ends_of<R: StateRepresentation>(
    alloc: Global,
    version: &Version<R>,
) -> Result<Vec<EndFate>, AllocError>
    ensures ends { IfOk result (λ found. found.items ≡ ends version.now.graph) }
    ensures each { IfOk result (λ found. map end_of found.items ≡ all_ends version.now.graph) }
    ensures told { IfOk result (λ found. All (IsTold version.now.graph) found.items) }
{
    let mut found = Vec::new(alloc);
    for place in 0..version.graph().len() as u32 {
        push_fates_at(&mut found, version, place)?;
    }
    Ok(found)
}

/// The same at a place.
fn push_fates_at<R: StateRepresentation>(
    found: &mut Vec<EndFate>,
    version: &Version<R>,
    place: u32,
) -> Result<(), AllocError>
    ensures { OnOk result (found.new.items ≡ found.old.items ++ fates_at version.now.graph place) }
{
    match version.stage(place) {
        Some(view) => push_fates_of(found, &view),
        None => Ok(()),
    }
}

/// The same of a stage.
fn push_fates_of<R: StateRepresentation>(
    found: &mut Vec<EndFate>,
    view: &StageView<'_, R>,
) -> Result<(), AllocError>
    ensures { OnOk result (found.new.items ≡ found.old.items ++ fates_of view.now.place view.now.stage.now (completed_at view.now.version.now.graph view.now.place)) }
{
    if view.stage.ends.as_slice().is_empty() {
        return Ok(());
    }
    match completed_at(view) {
        Some(completed) => {
            // With its length a graph says that it is sound, as every graph is.
            let _ = view.version.graph().len();
            push_fates(found, view.place, view.stage, &completed)
        }
        None => Ok(()),
    }
}

/// The same of a stage that completed so.
fn push_fates(
    found: &mut Vec<EndFate>,
    place: u32,
    stage: &Stage,
    completed: &Completed,
) -> Result<(), AllocError>
    requires { All IsEarlyEnd stage.now.ends }
    ensures { OnOk result (found.new.items ≡ found.old.items ++ fates_from place stage.now completed.now 0 stage.now.ends) }
{
    for (index, end) in stage.ends.as_slice().iter().enumerate() {
        found.push(end_fate(place, stage, completed, index, end))?;
    }
    Ok(())
}

/// What became of an end.
fn end_fate(place: u32, stage: &Stage, completed: &Completed, index: usize, end: &End) -> EndFate
    requires { acts_at end.now ≤ 2 ^ 41 }
    ensures { result ≡ end_fate place stage.now completed.now index end.now }
{
    let moment = acts_at(end);
    EndFate {
        place,
        index,
        moment,
        fate: fate_of(stage, completed, index, end.act, moment),
    }
}

/// The tick at which an end acts.
fn acts_at(end: &End) -> u64
    requires { acts_at end.now ≤ 2 ^ 41 }
    ensures { result ≡ acts_at end.now }
{
    match end.act {
        Act::Complete(_) | Act::CompleteExceptionally(_) | Act::Cancel => end.at,
        Act::OrTimeout { delay } | Act::CompleteOnTimeout { delay, .. } => end.at + delay,
    }
}

/// Whether an end that acts at a tick completed its stage.
fn fate_of(stage: &Stage, completed: &Completed, index: usize, act: Act, moment: u64) -> Fate
    ensures { result ≡ fate_of stage.now completed.now index act moment }
{
    if completed.is_by(index) {
        completed.struck(stage)
    } else {
        missed(act, moment.saturating_sub(completed.moment))
    }
}

/// What an end came to that acts this long after the completion.
fn missed(act: Act, by: u64) -> Fate
    ensures { result ≡ missed act by }
{
    match act {
        Act::Complete(_) | Act::CompleteExceptionally(_) | Act::Cancel => Fate::TooLate { by },
        Act::OrTimeout { .. } | Act::CompleteOnTimeout { .. } => Fate::NotReached { by },
    }
}
