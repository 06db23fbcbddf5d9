//! Pins and ends.
ghost use Rattle.std.specs.Prelude.{◌≡◌, ◌≤◌, ◌^◌, All, Option, Some};
ghost use Rattle.stage_ops.specs.Among.{IsEarlyEnd};
ghost use Rattle.stage_ops.specs.Pinned.{set_to, pinned};
ghost use Rattle.stage_ops.specs.Ended.{acts_at, set_by, done_moment, ended};
ghost use Rattle.stage_ops.specs.Waiting.{sooner_of};

use crate::names::{cancellation, timeout};
use crate::state::Done;
use act_expr::Outcome;
use stage_graph::{Act, End, Stage};

/// A completion that a pin or an end sets.
#[inline(always)]
fn set_to(outcome: Outcome, moment: u64) -> Done
    ensures { result ≡ set_to outcome moment }
{
    Done {
        outcome,
        moment,
        from: None,
        start: None,
    }
}

/// The completion after the pins of a stage.
#[inline(always)]
pub(crate) fn pinned(stage: &Stage, done: Option<Done>) -> Option<Done>
    ensures { result ≡ pinned stage.now done }
{
    if stage.pin_result.is_none() && stage.pin_moment.is_none() {
        return done;
    }
    with_pins(stage, done)
}

/// The same, by which of both pins are set.
#[inline(always)]
fn with_pins(stage: &Stage, done: Option<Done>) -> Option<Done>
    ensures { result ≡ pinned stage.now done }
{
    match (stage.pin_result, stage.pin_moment, done) {
        (None, None, done) => done,
        (Some(outcome), Some(moment), _) => Some(set_to(outcome, moment)),
        (_, _, None) => None,
        (Some(outcome), None, Some(done)) => Some(set_to(outcome, done.moment)),
        (None, Some(moment), Some(done)) => Some(Done {
            moment,
            start: None,
            ..done
        }),
    }
}

/// The completion that an end sets.
#[inline(always)]
pub(crate) fn set_by(end: &End) -> Done
    requires { acts_at end.now ≤ 2 ^ 41 }
    ensures { result ≡ set_by end.now }
{
    match end.act {
        Act::Complete(value) => set_to(Outcome::Value(value), end.at),
        Act::CompleteExceptionally(name) => set_to(Outcome::Bare(name), end.at),
        Act::Cancel => set_to(Outcome::Bare(cancellation()), end.at),
        Act::OrTimeout { delay } => set_to(Outcome::Bare(timeout()), end.at + delay),
        Act::CompleteOnTimeout { delay, value } => set_to(Outcome::Value(value), end.at + delay),
    }
}

/// The earliest so far, after one more completion.
#[inline(always)]
fn sooner(first: Option<Done>, other: Done) -> Done
    ensures { result ≡ sooner_of done_moment first other }
{
    match first {
        Some(first) if first.moment <= other.moment => first,
        _ => other,
    }
}

/// The earliest of the completion and the ends.
#[inline(always)]
pub(crate) fn ended(stage: &Stage, done: Option<Done>) -> Option<Done>
    requires { All IsEarlyEnd stage.now.ends }
    ensures { result ≡ ended stage.now done }
{
    if stage.ends.as_slice().is_empty() {
        return done;
    }
    with_ends(stage, done)
}

/// The same, by one end after the other.
#[inline(always)]
fn with_ends(stage: &Stage, done: Option<Done>) -> Option<Done>
    requires { All IsEarlyEnd stage.now.ends }
    ensures { result ≡ ended stage.now done }
{
    let mut first = done;
    for end in stage.ends.as_slice() {
        first = Some(sooner(first, set_by(end)));
    }
    first
}
