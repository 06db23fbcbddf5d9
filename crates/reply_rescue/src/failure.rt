//! The change by which the exception of a stage did not arise in it.
ghost use Rattle.std.specs.Prelude.{◌≡◌};
ghost use Rattle.stage_graph.specs.Plain.{IsLive};
ghost use Rattle.scratch_eval.specs.Path.{reason_at};
ghost use Rattle.version_store.specs.Queries.{state_of};
ghost use Rattle.failure_origins.specs.Failures.{arises_in, is_origin};
ghost use Rattle.reply_rescue.specs.Changes.{failure_change, undone};

use crate::change::Change;
use act_expr::{Outcome, Value};
use propagate::StateRepresentation;
use stage_ops::{Cause, Done};
use version_store::{NoStage, Version};

/// The completion of a stage; none while it is pending.
fn done_at<R: StateRepresentation>(version: &Version<R>, place: u32) -> Option<Done>
    requires { IsLive version.now.graph.places place }
    ensures { result ≡ (state_of version.now.graph place).done }
{
    match version.state(place) {
        Ok(state) => state.done,
        Err(NoStage) => unreachable!(),
    }
}

/// The cause of a stage's state.
fn cause_at<R: StateRepresentation>(version: &Version<R>, place: u32) -> Cause
    requires { IsLive version.now.graph.places place }
    ensures { result ≡ (reason_at version.now.graph place).cause }
{
    match version.reason(place) {
        Ok(reason) => reason.cause,
        Err(NoStage) => unreachable!(),
    }
}

/// Whether it is a completion by an exception that no source is blamed for.
fn arises_in(done: &Option<Done>) -> bool
    ensures { result ≡ arises_in done.now }
{
    match done {
        Some(done) => match done.outcome {
            Outcome::Value(_) => false,
            Outcome::Bare(_) | Outcome::Wrapped(_) => done.from.is_none(),
        },
        None => false,
    }
}

/// Whether an exception arose in a stage.
fn is_origin<R: StateRepresentation>(version: &Version<R>, place: u32) -> bool
    requires { IsLive version.now.graph.places place }
    ensures { result ≡ is_origin version.now.graph place }
{
    let done = done_at(version, place);
    arises_in(&done)
}

/// The change by which an exception of this cause did not arise: an end did not set it, or it was the value.
fn undone(value: Value, cause: Cause) -> Change
    ensures { result ≡ undone value cause }
{
    match cause {
        Cause::Ended(index) => Change::WithoutEnd { index },
        _ => Change::NoFailure { value },
    }
}

/// The change by which the exception that arose in a stage did not, if one did.
pub(crate) fn failure_change<R: StateRepresentation>(
    version: &Version<R>,
    value: Value,
    place: u32,
) -> Option<Change>
    requires { IsLive version.now.graph.places place }
    ensures { result ≡ failure_change version.now.graph value place }
{
    if is_origin(version, place) {
        Some(undone(value, cause_at(version, place)))
    } else {
        None
    }
}
