//! The search for the most ticks longer that the action of a stage may run: by doubling, and then by halving.
ghost use Rattle.std.specs.Prelude.{◌≡◌, ◌+◌, ◌≤◌, ◌^◌, IfOk, IsSome, OnOk, Some, if◌then◌else◌, length};
ghost use Rattle.stage_graph.specs.Plain.{stage_at};
ghost use Rattle.stage_graph.specs.Sound.{IsSoundStage};
ghost use Rattle.time_sweep.specs.Starts.{IsStart};
ghost use Rattle.stage_slack.specs.Search.{below, doublings, most_ticks, searched};
ghost use Rattle.stage_slack.specs.Slacks.{most_longer, stays};

use crate::stays::{stays, stays_below};
use propagate::StateRepresentation;
use stage_graph::Stage;
use std::alloc::{AllocError, Global};
use time_sweep::{Changes, TrialStart};
use version_store::Version;

/// The most ticks that the action of a stage may run.
const LAST_TICK: u64 = 1 << 40;

/// The first power of two that is not below the most ticks, or where the target completes otherwise.
fn doubled<R: StateRepresentation>(
    alloc: Global,
    version: &Version<R>,
    start: &TrialStart<'_>,
    stage: &Stage,
    most: u64,
    changes: &mut Changes,
) -> Result<u64, AllocError>
    requires start { IsStart version.now.graph start.now }
    requires stands { stage_at version.now.graph.places stage.now.place ≡ Some stage.now }
    requires sound { IsSoundStage version.now.graph.places stage.now.place stage.now }
    requires acts { IsSome stage.now.action }
    requires most { stage.now.runs + most ≤ 2 ^ 40 }
    requires room { length changes.old.at.items ≡ length start.now.before.items }
    ensures power { IfOk result (λ past. past ≡ 2 ^ doublings (below most (stays version.now.graph start.now.target stage.now)) most 0) }
    ensures most { IfOk result (λ past. past ≤ 2 ^ 41) }
    ensures room { OnOk result (length changes.new.at.items ≡ length start.now.before.items) }
{
    let mut past = 1;
    'doubling: while stays_below(alloc, version, start, stage, most, past, changes)? {
        past *= 2;
    }
    Ok(past)
}

/// These ticks and a step more, if the target completes as before there too; and else these ticks.
fn raised<R: StateRepresentation>(
    alloc: Global,
    version: &Version<R>,
    start: &TrialStart<'_>,
    stage: &Stage,
    most: u64,
    ticks: u64,
    step: u64,
    changes: &mut Changes,
) -> Result<u64, AllocError>
    requires start { IsStart version.now.graph start.now }
    requires stands { stage_at version.now.graph.places stage.now.place ≡ Some stage.now }
    requires sound { IsSoundStage version.now.graph.places stage.now.place stage.now }
    requires acts { IsSome stage.now.action }
    requires most { stage.now.runs + most ≤ 2 ^ 40 }
    requires room { length changes.old.at.items ≡ length start.now.before.items }
    requires ticks { ticks + step ≤ 2 ^ 41 }
    ensures raised { IfOk result (λ raised. raised ≡ (if below most (stays version.now.graph start.now.target stage.now) (ticks + step) then ticks + step else ticks)) }
    ensures room { OnOk result (length changes.new.at.items ≡ length start.now.before.items) }
{
    let more = ticks + step;
    if stays_below(alloc, version, start, stage, most, more, changes)? {
        Ok(more)
    } else {
        Ok(ticks)
    }
}

/// What is found below the most ticks.
fn searched<R: StateRepresentation>(
    alloc: Global,
    version: &Version<R>,
    start: &TrialStart<'_>,
    stage: &Stage,
    most: u64,
    changes: &mut Changes,
) -> Result<u64, AllocError>
    requires start { IsStart version.now.graph start.now }
    requires stands { stage_at version.now.graph.places stage.now.place ≡ Some stage.now }
    requires sound { IsSoundStage version.now.graph.places stage.now.place stage.now }
    requires acts { IsSome stage.now.action }
    requires most { stage.now.runs + most ≤ 2 ^ 40 }
    requires room { length changes.old.at.items ≡ length start.now.before.items }
    ensures searched { IfOk result (λ ticks. ticks ≡ searched most (stays version.now.graph start.now.target stage.now)) }
    ensures room { OnOk result (length changes.new.at.items ≡ length start.now.before.items) }
{
    let past = doubled(alloc, version, start, stage, most, changes)?;
    let mut ticks = past / 2;
    let mut step = ticks.max(1);
    'halving: while step > 1 {
        step /= 2;
        ticks = raised(alloc, version, start, stage, most, ticks, step, changes)?;
    }
    Ok(ticks)
}

/// How many ticks longer the stage's action may run; none where the target completes as before even with as many as a
/// recording may say.
pub(crate) fn most_ticks<R: StateRepresentation>(
    alloc: Global,
    version: &Version<R>,
    start: &TrialStart<'_>,
    stage: &Stage,
    changes: &mut Changes,
) -> Result<Option<u64>, AllocError>
    requires start { IsStart version.now.graph start.now }
    requires stands { stage_at version.now.graph.places stage.now.place ≡ Some stage.now }
    requires sound { IsSoundStage version.now.graph.places stage.now.place stage.now }
    requires acts { IsSome stage.now.action }
    requires room { length changes.old.at.items ≡ length start.now.before.items }
    ensures ticks { IfOk result (λ ticks. ticks ≡ most_ticks (most_longer stage.now) (stays version.now.graph start.now.target stage.now)) }
    ensures room { OnOk result (length changes.new.at.items ≡ length start.now.before.items) }
{
    let most = LAST_TICK - stage.runs;
    if stays(alloc, version, start, stage, most, changes)? {
        return Ok(None);
    }
    let ticks = searched(alloc, version, start, stage, most, changes)?;
    Ok(Some(ticks))
}
