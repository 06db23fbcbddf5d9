//! The trials of one stage.
ghost use Rattle.std.specs.Prelude.{◌≡◌, IfOk, OnOk, Some, filter_map, length};
ghost use Rattle.std.specs.Option.{option_map};
ghost use Rattle.stage_graph.specs.Plain.{stage_at};
ghost use Rattle.stage_graph.specs.Sound.{IsSoundStage};
ghost use Rattle.time_sweep.specs.Starts.{IsStart};
ghost use Rattle.reply_rescue.specs.Found.{Gives};
ghost use Rattle.reply_rescue.specs.Rescues.{rescue_by, saves, trial_at, trials_at};

use crate::change::Change;
use crate::changed::changed;
use crate::changes::changes_with;
use crate::failure::failure_change;
use crate::reply::{Reply, reply_of};
use crate::rescue::{Rescue, Rescues};
use act_expr::Value;
use propagate::StateRepresentation;
use stage_graph::Stage;
use std::alloc::{AllocError, Global};
use time_sweep::{Changes, TrialStart};
use version_store::Version;

/// What is sought by the trials, and what they start from.
#[derive(Drop)]
pub(crate) struct Sought<'a> {
    pub(crate) start: TrialStart<'a>,
    /// The tick by which the target is to have a value, if one is given.
    pub(crate) by: Option<u64>,
    /// The value with which a stage completes whose exception did not arise.
    pub(crate) value: Value,
}

/// The rescue that a trial is in which the target has this value.
fn rescue_by(place: u32, change: Change, reply: &Option<Reply>) -> Option<Rescue>
    ensures { result ≡ option_map (rescue_by (trial_at place change)) reply.now }
{
    match reply {
        Some(reply) => Some(Rescue {
            place,
            change,
            value: reply.value,
            moment: reply.moment,
        }),
        None => None,
    }
}

/// The rescue by a change of a stage, if the target has a value in time where it is made.
fn saves<R: StateRepresentation>(
    alloc: Global,
    version: &Version<R>,
    sought: &Sought<'_>,
    stage: &Stage,
    change: Change,
    room: &mut Changes,
) -> Result<Option<Rescue>, AllocError>
    requires start { IsStart version.now.graph sought.now.start }
    requires stands { stage_at version.now.graph.places stage.now.place ≡ Some stage.now }
    requires sound { IsSoundStage version.now.graph.places stage.now.place stage.now }
    requires room { length room.old.at.items ≡ length sought.now.start.before.items }
    ensures saves { IfOk result (λ saved. saved ≡ saves version.now.graph sought.now.start.target sought.now.by (trial_at stage.now.place change)) }
    ensures room { OnOk result (length room.new.at.items ≡ length sought.now.start.before.items) }
{
    let made = changed(alloc, stage, change)?;
    let done = sought.start.completion_with(alloc, version, &made, room)?;
    let reply = reply_of(sought.by, &done);
    Ok(rescue_by(stage.place, change, &reply))
}

/// The rescues by some changes of a stage.
fn saved_by<R: StateRepresentation>(
    alloc: Global,
    version: &Version<R>,
    sought: &Sought<'_>,
    stage: &Stage,
    changes: &[Change],
) -> Result<Vec<Rescue>, AllocError>
    requires start { IsStart version.now.graph sought.now.start }
    requires stands { stage_at version.now.graph.places stage.now.place ≡ Some stage.now }
    requires sound { IsSoundStage version.now.graph.places stage.now.place stage.now }
    ensures { IfOk result (λ saved. saved.items
        ≡ filter_map (λ change. saves version.now.graph sought.now.start.target sought.now.by (trial_at stage.now.place change)) changes.now) }
{
    let mut saved = Vec::new(alloc);
    // Without a trial no room for one is needed.
    if changes.is_empty() {
        return Ok(saved);
    }
    let mut room = sought.start.room(alloc)?;
    for change in changes {
        if let Some(rescue) = saves(alloc, version, sought, stage, *change, &mut room)? {
            saved.push(rescue)?;
        }
    }
    Ok(saved)
}

/// What the trials of the stage at a place give.
pub(crate) fn rescues_at<R: StateRepresentation>(
    alloc: Global,
    version: &Version<R>,
    sought: &Sought<'_>,
    place: u32,
) -> Result<Rescues, AllocError>
    requires { IsStart version.now.graph sought.now.start }
    ensures { Gives (trials_at version.now.graph sought.now.value) (saves version.now.graph sought.now.start.target sought.now.by) place result }
{
    let Some(stage) = version.graph().stage(place) else {
        return Ok(Rescues {
            tried: 0,
            saved: Vec::new(alloc),
        });
    };
    let failure = failure_change(version, sought.value, place);
    let changes = changes_with(alloc, &failure, stage)?;
    let saved = saved_by(alloc, version, sought, stage, changes.as_slice())?;
    Ok(Rescues {
        tried: changes.len(),
        saved,
    })
}
