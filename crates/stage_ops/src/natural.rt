//! The progress of a stage by its operation, before its pins and ends.
//!
//! The documentation's rule on exceptions is `hands_on`: "if a stage's computation terminates abruptly with an
//! (unchecked) exception or error, then all dependent stages requiring its completion complete exceptionally as well,
//! with a CompletionException holding the exception as its cause". `handle`, `whenComplete`, `exceptionally` and
//! `exceptionallyCompose` are handed the exception instead.
ghost use Rattle.std.specs.Prelude.{◌≡◌, ◌+◌, ◌<◌, ◌≤◌, ◌^◌, All, None, Some, length, slice_get};
ghost use Rattle.act_expr.specs.declared.expr.Answer.TheVariants.{Throws};
ghost use Rattle.stage_ops.specs.Actions.{answer_of, nothing};
ghost use Rattle.stage_ops.specs.Among.{IsLimited};
ghost use Rattle.stage_ops.specs.States.{seen_of, seen_at, state_at, IsBy};
ghost use Rattle.stage_ops.specs.Running.{at_trigger, after_action, runs, passes, hands_on, watched, start_of, end_of};
ghost use Rattle.stage_ops.specs.Picking.{awaits, picked, picks};
ghost use Rattle.stage_ops.specs.AfterOne.{after_value, after_failure, after_outcome, after_earliest};
ghost use Rattle.stage_ops.specs.AfterAll.{after_values, after_all};
ghost use Rattle.stage_ops.specs.Natural.{progress_of, finished};
ghost use Rattle.stage_ops.specs.Waiting.{AwaitsWithin};

use crate::actions::{answer_of, handed, instead, nothing, one_value, outcome_of, two_values};
use crate::names::index_out_of_bounds;
use crate::ops::Look;
use crate::sources::{Source, Waited, earliest, source_at, value_named, wait_for_all};
use crate::state::Done;
use act_expr::{Answer, ExName, Mode, Outcome, Value};
use stage_graph::{Op, Stage};

/// The inner stage that a function picked, and when the function started and ended.
#[derive(Clone, Copy)]
pub(crate) struct Pick {
    pub(crate) index: u32,
    pub(crate) place: u32,
    pub(crate) start: u64,
    pub(crate) end: u64,
}

/// The progress of an operation, by its sources.
#[derive(Clone, Copy)]
pub(crate) enum Progress {
    /// It waits for a source, or for an end.
    Waits,
    Completes(Done),
    /// It waits for the inner stage that its function picked.
    Awaits(Pick),
}

/// No action runs: the stage completes at the trigger.
#[inline(always)]
fn at_trigger(trigger: u64, outcome: Outcome, from: Option<u32>) -> Progress
    ensures { result ≡ at_trigger trigger outcome from }
{
    Progress::Completes(Done {
        outcome,
        moment: trigger,
        from,
        start: None,
    })
}

/// The action runs, and the stage completes when it ends.
#[inline(always)]
fn after_action(stage: &Stage, trigger: u64, outcome: Outcome, from: Option<u32>) -> Progress
    requires { end_of stage.now trigger < 2 ^ 64 }
    ensures { result ≡ after_action stage.now trigger outcome from }
{
    let start = trigger + stage.queued;
    Progress::Completes(Done {
        outcome,
        moment: start + stage.runs,
        from,
        start: Some(start),
    })
}

/// The action runs with this answer, which the stage takes over.
#[inline(always)]
fn runs(mode: Mode, stage: &Stage, trigger: u64, answer: Answer) -> Progress
    requires { end_of stage.now trigger < 2 ^ 64 }
    ensures { result ≡ runs mode stage.now trigger answer }
{
    after_action(stage, trigger, outcome_of(mode, answer), None)
}

/// A value passes at the trigger.
#[inline(always)]
fn passes(trigger: u64, value: Value) -> Progress
    ensures { result ≡ passes trigger value }
{
    at_trigger(trigger, Outcome::Value(value), None)
}

/// An exceptional source is handed on at the trigger, wrapped once.
#[inline(always)]
fn hands_on(trigger: u64, source: &Source) -> Progress
    ensures { result ≡ hands_on trigger source.now }
{
    at_trigger(trigger, source.outcome.wrap(), Some(source.place))
}

/// The form in which `whenComplete` hands on an exceptional source.
#[inline(always)]
fn watched(mode: Mode, outcome: Outcome) -> Outcome
    ensures { result ≡ watched mode outcome }
{
    match mode {
        Mode::Computed => outcome.wrap(),
        Mode::Literal => outcome,
    }
}

/// The function runs, and the inner stage at this index is waited for, if there is one.
#[inline(always)]
fn awaits(mode: Mode, stage: &Stage, trigger: u64, index: usize) -> Progress
    requires end { end_of stage.now trigger < 2 ^ 64 }
    requires few { length stage.now.inner ≤ 1024 }
    ensures { result ≡ awaits mode stage.now trigger index (slice_get stage.now.inner index) }
{
    let Some(place) = stage.inner.as_slice().get(index) else {
        return runs(mode, stage, trigger, Answer::Throws(index_out_of_bounds()));
    };
    let start = trigger + stage.queued;
    Progress::Awaits(Pick {
        index: index as u32,
        place: *place,
        start,
        end: start + stage.runs,
    })
}

/// The number that the function of a compose operation gave, as the index of an inner stage.
#[inline(always)]
fn picked(mode: Mode, stage: &Stage, trigger: u64, number: Value) -> Progress
    requires end { end_of stage.now trigger < 2 ^ 64 }
    requires few { length stage.now.inner ≤ 1024 }
    ensures { result ≡ picked mode stage.now trigger number }
{
    match number {
        Value::Null => runs(mode, stage, trigger, Answer::Throws(ExName::null_pointer())),
        Value::Num(index) => {
            if index < 0 {
                runs(mode, stage, trigger, Answer::Throws(index_out_of_bounds()))
            } else {
                awaits(mode, stage, trigger, index as usize)
            }
        }
    }
}

/// The function of a compose operation runs, and picks an inner stage.
#[inline(always)]
fn picks(mode: Mode, stage: &Stage, trigger: u64, answer: Answer) -> Progress
    requires end { end_of stage.now trigger < 2 ^ 64 }
    requires few { length stage.now.inner ≤ 1024 }
    ensures { result ≡ picks mode stage.now trigger answer }
{
    match answer {
        Answer::Gives(number) => picked(mode, stage, trigger, number),
        Answer::Throws(_) => runs(mode, stage, trigger, answer),
    }
}

/// How an operation continues from a normal source.
#[inline(always)]
fn after_value(mode: Mode, stage: &Stage, trigger: u64, value: Value) -> Progress
    requires end { end_of stage.now trigger < 2 ^ 64 }
    requires few { length stage.now.inner ≤ 1024 }
    ensures { result ≡ after_value stage.now.op mode stage.now trigger value }
{
    match stage.op {
        Op::ThenApply | Op::ApplyToEither | Op::Handle => {
            let answer = answer_of(stage, &one_value(value));
            runs(mode, stage, trigger, answer)
        }
        Op::ThenAccept | Op::AcceptEither => {
            let answer = answer_of(stage, &one_value(value));
            runs(mode, stage, trigger, instead(Value::Null, answer))
        }
        Op::ThenRun | Op::RunAfterEither => {
            let answer = answer_of(stage, &nothing());
            runs(mode, stage, trigger, instead(Value::Null, answer))
        }
        Op::WhenComplete => {
            let answer = answer_of(stage, &one_value(value));
            runs(mode, stage, trigger, instead(value, answer))
        }
        Op::ThenCompose => {
            let answer = answer_of(stage, &one_value(value));
            picks(mode, stage, trigger, answer)
        }
        Op::Copy | Op::Exceptionally | Op::ExceptionallyCompose | Op::AnyOf => {
            passes(trigger, value)
        }
        _ => Progress::Waits,
    }
}

/// How an operation continues from an exceptional source.
#[inline(always)]
fn after_failure(mode: Mode, stage: &Stage, trigger: u64, source: &Source) -> Progress
    requires end { end_of stage.now trigger < 2 ^ 64 }
    requires few { length stage.now.inner ≤ 1024 }
    ensures { result ≡ after_failure stage.now.op mode stage.now trigger source.now }
{
    match stage.op {
        Op::Handle | Op::Exceptionally => {
            let answer = answer_of(stage, &handed(source.outcome));
            runs(mode, stage, trigger, answer)
        }
        Op::WhenComplete => {
            let outcome = watched(mode, source.outcome);
            after_action(stage, trigger, outcome, Some(source.place))
        }
        Op::ExceptionallyCompose => {
            let answer = answer_of(stage, &handed(source.outcome));
            picks(mode, stage, trigger, answer)
        }
        _ => hands_on(trigger, source),
    }
}

/// How an operation continues from the source that decides it.
#[inline(always)]
fn after_outcome(mode: Mode, stage: &Stage, trigger: u64, source: &Source) -> Progress
    requires end { end_of stage.now trigger < 2 ^ 64 }
    requires few { length stage.now.inner ≤ 1024 }
    ensures { result ≡ after_outcome stage.now.op mode stage.now trigger source.now source.now.outcome }
{
    match source.outcome {
        Outcome::Value(value) => after_value(mode, stage, trigger, value),
        Outcome::Bare(_) | Outcome::Wrapped(_) => after_failure(mode, stage, trigger, source),
    }
}

/// The earliest source decides, and the stage waits until there is one.
#[inline(always)]
fn after_earliest<L: Look>(mode: Mode, stage: &Stage, look: &L) -> Progress
    requires limits { IsLimited (length (L.states look.now)) stage.now }
    requires moments { All (λ state. IsBy (2 ^ 62) (seen_of state)) (L.states look.now) }
    ensures { result ≡ after_earliest stage.now.op mode stage.now (seen_at (state_at (L.states look.now))) }
{
    let Some(source) = earliest(look, stage.sources.as_slice()) else {
        return Progress::Waits;
    };
    let trigger = stage.created.max(source.moment);
    after_outcome(mode, stage, trigger, &source)
}

/// How an operation continues from all of its sources, where each is normal.
#[inline(always)]
fn after_values(mode: Mode, stage: &Stage, trigger: u64, first: Value, second: Value) -> Progress
    requires { end_of stage.now trigger < 2 ^ 64 }
    ensures { result ≡ after_values stage.now.op mode stage.now trigger first second }
{
    match stage.op {
        Op::ThenCombine => {
            let answer = answer_of(stage, &two_values(first, second));
            runs(mode, stage, trigger, answer)
        }
        Op::ThenAcceptBoth => {
            let answer = answer_of(stage, &two_values(first, second));
            runs(mode, stage, trigger, instead(Value::Null, answer))
        }
        Op::RunAfterBoth => {
            let answer = answer_of(stage, &nothing());
            runs(mode, stage, trigger, instead(Value::Null, answer))
        }
        Op::AllOf => passes(trigger, Value::Null),
        _ => Progress::Waits,
    }
}

/// All sources are waited for, and the earliest exceptional one is handed on.
#[inline(always)]
fn after_all<L: Look>(mode: Mode, stage: &Stage, look: &L) -> Progress
    requires limits { IsLimited (length (L.states look.now)) stage.now }
    requires moments { All (λ state. IsBy (2 ^ 62) (seen_of state)) (L.states look.now) }
    ensures { result ≡ after_all stage.now.op mode stage.now (seen_at (state_at (L.states look.now))) }
{
    let Some(waited) = wait_for_all(look, stage.created, stage.sources.as_slice()) else {
        return Progress::Waits;
    };
    let Waited { trigger, failed } = waited;
    match failed {
        Some(source) => hands_on(trigger, &source),
        None => {
            let first = value_named(look, stage, 0);
            let second = value_named(look, stage, 1);
            after_values(mode, stage, trigger, first, second)
        }
    }
}

/// The action runs once the stage is created.
#[inline(always)]
fn runs_from_creation(mode: Mode, stage: &Stage) -> Progress
    requires { end_of stage.now stage.now.created < 2 ^ 64 }
    ensures { result ≡ runs mode stage.now stage.now.created (answer_of stage.now nothing) }
{
    let answer = answer_of(stage, &nothing());
    runs(mode, stage, stage.created, answer)
}

/// The progress of an operation, by its sources.
#[inline(always)]
pub(crate) fn progress_of<L: Look>(mode: Mode, stage: &Stage, look: &L) -> Progress
    requires limits { IsLimited (length (L.states look.now)) stage.now }
    requires moments { All (λ state. IsBy (2 ^ 62) (seen_of state)) (L.states look.now) }
    ensures { result ≡ progress_of stage.now.op mode stage.now (seen_at (state_at (L.states look.now))) }
{
    match stage.op {
        Op::Async => runs_from_creation(mode, stage),
        Op::Manual => Progress::Waits,
        Op::Completed(value) => passes(stage.created, value),
        Op::Failed(name) => at_trigger(stage.created, Outcome::Bare(name), None),
        Op::ThenCombine | Op::ThenAcceptBoth | Op::RunAfterBoth | Op::AllOf => {
            after_all(mode, stage, look)
        }
        _ => after_earliest(mode, stage, look),
    }
}

/// The completion, if a picked stage has completed too.
#[inline(always)]
pub(crate) fn finished<L: Look>(progress: &Progress, look: &L) -> Option<Done>
    requires within { AwaitsWithin (length (L.states look.now)) progress.now }
    requires moments { All (λ state. IsBy (2 ^ 62) (seen_of state)) (L.states look.now) }
    ensures { result ≡ finished (seen_at (state_at (L.states look.now))) progress.now }
{
    let pick = match progress {
        Progress::Waits => return None,
        Progress::Completes(done) => return Some(*done),
        Progress::Awaits(pick) => *pick,
    };
    match source_at(look, pick.place) {
        None => None,
        Some(inner) => Some(Done {
            outcome: inner.outcome.wrap(),
            moment: pick.end.max(inner.moment),
            from: inner.blamed(),
            start: Some(pick.start),
        }),
    }
}
