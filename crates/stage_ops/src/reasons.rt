//! The reason of a stage's state.
ghost use Rattle.std.specs.Prelude.{◌≡◌, ◌≤◌, ◌<◌, ◌^◌, All, Option, Some, None, length};
ghost use Rattle.std.specs.Option.{option_map, option_to_list};
ghost use Rattle.stage_ops.specs.Among.{IsLimited, IsEarlyEnd};
ghost use Rattle.stage_ops.specs.States.{seen_of, seen_at, state_at, IsBy};
ghost use Rattle.stage_ops.specs.Earliest.{earliest};
ghost use Rattle.stage_ops.specs.Pinned.{pinned};
ghost use Rattle.stage_ops.specs.Sources.{completed, latest, moment_of, source_at};
ghost use Rattle.stage_ops.specs.Reasons.{at_once, by_action, ended_reason, explained_moment, first_at, first_pending, reason_on, since_pick, since_trigger, trigger_cause, waited_for, with_pins_reason};
ghost use Rattle.stage_ops.specs.Waiting.{AwaitsWithin, sooner_of};

use crate::ends::{pinned, set_by};
use crate::natural::{Pick, Progress};
use crate::ops::Look;
use crate::reason::{Cause, Reason};
use crate::sources::{earliest, source_at};
use crate::state::Done;
use stage_graph::{Op, Stage};

/// A completion, and its reason.
#[derive(Clone, Copy)]
pub(crate) struct Explained {
    pub(crate) done: Done,
    pub(crate) reason: Reason,
}

/// Only the cause: no action of the stage came after it.
fn at_once(cause: Cause) -> Reason
    ensures { result ≡ at_once cause }
{
    Reason {
        cause,
        queued: 0,
        ran: 0,
    }
}

/// The cause, and then the stage's own action.
fn by_action(stage: &Stage, cause: Cause) -> Reason
    ensures { result ≡ by_action stage.now cause }
{
    Reason {
        cause,
        queued: stage.queued,
        ran: stage.runs,
    }
}

/// The latest of a moment and of the sources that have completed.
fn latest<L: Look>(look: &L, created: u64, places: &[u32]) -> u64
    requires places { All (λ place. place < length (L.states look.now)) places.now }
    requires moments { All (λ state. IsBy (2 ^ 62) (seen_of state)) (L.states look.now) }
    ensures { result ≡ latest created (completed (seen_at (state_at (L.states look.now))) places.now) }
{
    let mut last = created;
    for place in places {
        if let Some(source) = source_at(look, *place) {
            last = last.max(source.moment);
        }
    }
    last
}

/// The place of the first of the sources that completed at a tick.
fn first_at<L: Look>(look: &L, sources: &[u32], tick: u64) -> Option<u32>
    requires sources { All (λ place. place < length (L.states look.now)) sources.now }
    requires moments { All (λ state. IsBy (2 ^ 62) (seen_of state)) (L.states look.now) }
    ensures { result ≡ option_map (λ source. source.place) (first_at tick (completed (seen_at (state_at (L.states look.now))) sources.now)) }
{
    for place in sources {
        if let Some(source) = source_at(look, *place) {
            if source.moment == tick {
                return Some(source.place);
            }
        }
    }
    None
}

/// The first of the sources that is pending.
fn first_pending<L: Look>(look: &L, places: &[u32]) -> Option<u32>
    requires places { All (λ place. place < length (L.states look.now)) places.now }
    requires moments { All (λ state. IsBy (2 ^ 62) (seen_of state)) (L.states look.now) }
    ensures { result ≡ first_pending (seen_at (state_at (L.states look.now))) places.now }
{
    for place in places {
        if source_at(look, *place).is_none() {
            return Some(*place);
        }
    }
    None
}

/// The place of the earliest source, unless it completed before the creation.
fn earliest_source<L: Look>(stage: &Stage, look: &L) -> Option<u32>
    requires limits { IsLimited (length (L.states look.now)) stage.now }
    requires moments { All (λ state. IsBy (2 ^ 62) (seen_of state)) (L.states look.now) }
    ensures { let waited = option_to_list (earliest moment_of (completed (seen_at (state_at (L.states look.now))) stage.now.sources)) in
        result ≡ option_map (λ source. source.place) (first_at (latest stage.now.created waited) waited) }
{
    let Some(source) = earliest(look, stage.sources.as_slice()) else {
        return None;
    };
    if source.moment < stage.created {
        return None;
    }
    Some(source.place)
}

/// The place of the source whose completion was the trigger; none where the creation was.
fn trigger_source<L: Look>(stage: &Stage, look: &L) -> Option<u32>
    requires limits { IsLimited (length (L.states look.now)) stage.now }
    requires moments { All (λ state. IsBy (2 ^ 62) (seen_of state)) (L.states look.now) }
    ensures { let waited = waited_for stage.now.op stage.now (seen_at (state_at (L.states look.now))) in
        result ≡ option_map (λ source. source.place) (first_at (latest stage.now.created waited) waited) }
{
    let sources = stage.sources.as_slice();
    match stage.op {
        Op::Async | Op::Manual | Op::Completed(_) | Op::Failed(_) => None,
        Op::ThenCombine | Op::ThenAcceptBoth | Op::RunAfterBoth | Op::AllOf => {
            first_at(look, sources, latest(look, stage.created, sources))
        }
        _ => earliest_source(stage, look),
    }
}

/// Why the stage's trigger came when it did.
fn trigger_cause<L: Look>(stage: &Stage, look: &L) -> Cause
    requires limits { IsLimited (length (L.states look.now)) stage.now }
    requires moments { All (λ state. IsBy (2 ^ 62) (seen_of state)) (L.states look.now) }
    ensures { result ≡ trigger_cause stage.now (seen_at (state_at (L.states look.now))) }
{
    match trigger_source(stage, look) {
        Some(place) => Cause::After(place),
        None => Cause::Created,
    }
}

/// From the trigger on: the action, where it started.
fn since_trigger(stage: &Stage, cause: Cause, start: Option<u64>) -> Reason
    ensures { result ≡ since_trigger stage.now cause start }
{
    match start {
        Some(_) => by_action(stage, cause),
        None => at_once(cause),
    }
}

/// The later of the function's end and the picked stage's completion.
fn since_pick<L: Look>(stage: &Stage, pick: Pick, look: &L) -> Reason
    requires limits { IsLimited (length (L.states look.now)) stage.now }
    requires within { pick.place < length (L.states look.now) }
    requires moments { All (λ state. IsBy (2 ^ 62) (seen_of state)) (L.states look.now) }
    ensures { result ≡ since_pick stage.now (trigger_cause stage.now (seen_at (state_at (L.states look.now)))) pick (source_at (seen_at (state_at (L.states look.now))) pick.place) }
{
    match source_at(look, pick.place) {
        None => at_once(Cause::Waiting(pick.place)),
        Some(inner) if pick.end < inner.moment => at_once(Cause::Inner(pick.place)),
        Some(_) => by_action(stage, trigger_cause(stage, look)),
    }
}

/// The reason of a stage's state by its operation.
pub(crate) fn reason_on<L: Look>(stage: &Stage, progress: &Progress, look: &L) -> Reason
    requires limits { IsLimited (length (L.states look.now)) stage.now }
    requires within { AwaitsWithin (length (L.states look.now)) progress.now }
    requires moments { All (λ state. IsBy (2 ^ 62) (seen_of state)) (L.states look.now) }
    ensures { result ≡ reason_on stage.now (seen_at (state_at (L.states look.now))) progress.now }
{
    match progress {
        Progress::Waits => at_once(match first_pending(look, stage.sources.as_slice()) {
            Some(place) => Cause::Waiting(place),
            None => Cause::Open,
        }),
        Progress::Completes(done) => since_trigger(stage, trigger_cause(stage, look), done.start),
        Progress::Awaits(pick) => since_pick(stage, *pick, look),
    }
}

/// The same after the stage's pins.
fn with_pins(stage: &Stage, natural: &Option<Done>, reason: &Reason) -> Reason
    ensures { result ≡ with_pins_reason stage.now.pin_result stage.now.pin_moment natural.now reason.now }
{
    match (stage.pin_result, stage.pin_moment) {
        (Some(_), Some(_)) => at_once(Cause::Pinned),
        (None, Some(_)) if natural.is_some() => at_once(Cause::Pinned),
        _ => *reason,
    }
}

/// The earliest so far, after one more completion.
fn sooner(first: Option<Explained>, other: Explained) -> Explained
    ensures { result ≡ sooner_of explained_moment first other }
{
    match first {
        Some(first) if first.done.moment <= other.done.moment => first,
        _ => other,
    }
}

/// The same after the stage's ends.
fn with_ends(stage: &Stage, completion: Option<Done>, reason: &Reason) -> Reason
    requires { All IsEarlyEnd stage.now.ends }
    ensures { result ≡ ended_reason stage.now.ends completion reason.now }
{
    let mut first = None;
    if let Some(done) = completion {
        first = Some(Explained {
            done,
            reason: *reason,
        });
    }
    let mut index = 0;
    for end in stage.ends.as_slice() {
        let other = Explained {
            done: set_by(end),
            reason: at_once(Cause::Ended(index)),
        };
        first = Some(sooner(first, other));
        index += 1;
    }
    match first {
        Some(one) => one.reason,
        None => *reason,
    }
}

/// The reason of a stage's state, by its operation's progress and the reason of that.
pub(crate) fn settled(stage: &Stage, natural: Option<Done>, reason: Reason) -> Reason
    requires { All IsEarlyEnd stage.now.ends }
    ensures { result ≡ ended_reason stage.now.ends (pinned stage.now natural) (with_pins_reason stage.now.pin_result stage.now.pin_moment natural reason) }
{
    let after_pins = with_pins(stage, &natural, &reason);
    with_ends(stage, pinned(stage, natural), &after_pins)
}
