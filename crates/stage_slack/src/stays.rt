//! Whether a target completes as before where the action of a stage runs longer.
ghost use Rattle.std.specs.Prelude.{◌≡◌, ◌+◌, ◌≤◌, ◌^◌, IfOk, IsSome, OnOk, Some, length};
ghost use Rattle.stage_graph.specs.Plain.{stage_at};
ghost use Rattle.stage_graph.specs.Sound.{IsSoundStage};
ghost use Rattle.time_sweep.specs.Starts.{IsStart};
ghost use Rattle.time_sweep.specs.Sweep.{completion_of};
ghost use Rattle.stage_slack.specs.Search.{below};
ghost use Rattle.stage_slack.specs.Slacks.{longer, stays};

use crate::agreement::agree;
use propagate::StateRepresentation;
use stage_graph::Stage;
use std::alloc::{AllocError, Global};
use time_sweep::{Changes, TrialStart, completion_of};
use version_store::Version;

/// The stage, with an action that runs this many ticks longer.
fn longer(stage: &Stage, ticks: u64) -> Result<Stage, AllocError>
    requires { stage.now.runs + ticks ≤ 2 ^ 40 }
    ensures { IfOk result (λ made. made ≡ longer stage.now ticks) }
{
    let mut made = stage.again()?;
    made.runs = stage.runs + ticks;
    Ok(made)
}

/// Whether the target's outcome and moment are the same where the action of a stage runs this many ticks longer.
pub(crate) fn stays<R: StateRepresentation>(
    alloc: Global,
    version: &Version<R>,
    start: &TrialStart<'_>,
    stage: &Stage,
    ticks: u64,
    changes: &mut Changes,
) -> Result<bool, AllocError>
    requires start { IsStart version.now.graph start.now }
    requires stands { stage_at version.now.graph.places stage.now.place ≡ Some stage.now }
    requires sound { IsSoundStage version.now.graph.places stage.now.place stage.now }
    requires acts { IsSome stage.now.action }
    requires ticks { stage.now.runs + ticks ≤ 2 ^ 40 }
    requires room { length changes.old.at.items ≡ length start.now.before.items }
    ensures same { IfOk result (λ same. same ≡ stays version.now.graph start.now.target stage.now ticks) }
    ensures room { OnOk result (length changes.new.at.items ≡ length start.now.before.items) }
{
    let changed = longer(stage, ticks)?;
    let new = start.completion_with(alloc, version, &changed, changes)?;
    let old = completion_of(version, start.target());
    Ok(agree(&old, &new))
}

/// The same, where these are fewer ticks than the most.
pub(crate) fn stays_below<R: StateRepresentation>(
    alloc: Global,
    version: &Version<R>,
    start: &TrialStart<'_>,
    stage: &Stage,
    most: u64,
    ticks: u64,
    changes: &mut Changes,
) -> Result<bool, AllocError>
    requires start { IsStart version.now.graph start.now }
    requires stands { stage_at version.now.graph.places stage.now.place ≡ Some stage.now }
    requires sound { IsSoundStage version.now.graph.places stage.now.place stage.now }
    requires acts { IsSome stage.now.action }
    requires most { stage.now.runs + most ≤ 2 ^ 40 }
    requires room { length changes.old.at.items ≡ length start.now.before.items }
    ensures same { IfOk result (λ same. same ≡ below most (stays version.now.graph start.now.target stage.now) ticks) }
    ensures room { OnOk result (length changes.new.at.items ≡ length start.now.before.items) }
{
    if ticks >= most {
        return Ok(false);
    }
    stays(alloc, version, start, stage, ticks, changes)
}
