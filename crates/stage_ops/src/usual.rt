//! The usual stage: it has neither a pin nor an end, and none of the sources that it waits for has failed.
//!
//! An outcome has room for the name of an exception, so it is large. Of such a stage only values are passed on, and what its
//! action throws is lent; what it completes with is what `progress_of` says, which is asked of any other stage.
ghost use Rattle.std.specs.Prelude.{◌≡◌, ◌≤◌, ◌<◌, ◌^◌, [], ◌∷◌, All, Some, IfSome, IsTrue, length};
ghost use Rattle.std.specs.Option.{option_map};
ghost use Rattle.act_expr.specs.Outcome.{own};
ghost use Rattle.act_expr.specs.Throwing.{as_answer, name_of};
ghost use Rattle.stage_graph.specs.declared.op.Op.TheVariants.{AllOf};
ghost use Rattle.stage_ops.specs.Actions.{answer_of, instead, two_values};
ghost use Rattle.stage_ops.specs.Among.{IsLimited};
ghost use Rattle.stage_ops.specs.States.{seen_of, seen_at, state_at, IsBy};
ghost use Rattle.stage_ops.specs.Running.{end_of};
ghost use Rattle.stage_ops.specs.Earliest.{earliest};
ghost use Rattle.stage_ops.specs.Sources.{source_at, completed, moment_of};
ghost use Rattle.stage_ops.specs.Waiting.{sooner_of};
ghost use Rattle.stage_ops.specs.Usual.{as_source, pass_at, return_after, state_after, AreNormal, IsAfterValue, IsOwnAfterTwo, IsPlain, IsProgress, IsUsual};

use crate::actions::two_values;
use crate::ops::Look;
use crate::state::{Done, Reads, State};
use act_expr::{Mode, Outcome, Thrown, Value};
use stage_graph::{Op, Stage};

/// A source that has completed with a value.
#[derive(Clone, Copy)]
pub(crate) struct Normal {
    pub(crate) place: u32,
    pub(crate) value: Value,
    pub(crate) moment: u64,
}

/// A completion with a value, or with what the action threw; and when the action started, if one ran.
#[derive(Clone, Copy)]
pub(crate) struct Returned<'a> {
    pub(crate) given: Result<Value, Thrown<'a>>,
    pub(crate) moment: u64,
    pub(crate) start: Option<u64>,
}

/// The source at a place, once it has completed with a value.
#[inline(always)]
fn normal_at<L: Look>(look: &L, place: u32) -> Option<Normal>
    requires place { place < length (L.states look.now) }
    requires moments { All (λ state. IsBy (2 ^ 62) (seen_of state)) (L.states look.now) }
    ensures source { IfSome result (λ normal. source_at (seen_at (state_at (L.states look.now))) place ≡ Some (as_source normal)) }
    ensures early { IfSome result (λ normal. normal.moment ≤ 2 ^ 62) }
{
    let done = look.state(place).done?;
    match done.outcome {
        Outcome::Value(value) => Some(Normal {
            place,
            value,
            moment: done.moment,
        }),
        Outcome::Bare(_) | Outcome::Wrapped(_) => None,
    }
}

/// The source at a place, none in it while it is pending; none at all where it has failed.
#[inline(always)]
fn unless_failed<L: Look>(look: &L, place: u32) -> Option<Option<Normal>>
    requires place { place < length (L.states look.now) }
    requires moments { All (λ state. IsBy (2 ^ 62) (seen_of state)) (L.states look.now) }
    ensures source { IfSome result (λ found. source_at (seen_at (state_at (L.states look.now))) place ≡ option_map as_source found) }
    ensures early { IfSome result (λ found. IfSome found (λ normal. normal.moment ≤ 2 ^ 62)) }
{
    let Some(done) = look.state(place).done else {
        return Some(None);
    };
    let Outcome::Value(value) = done.outcome else {
        return None;
    };
    Some(Some(Normal {
        place,
        value,
        moment: done.moment,
    }))
}

/// The earliest so far, after one more source.
#[inline(always)]
fn sooner(first: Option<Normal>, other: Normal) -> Normal
    ensures { as_source result ≡ sooner_of moment_of (option_map as_source first) (as_source other) }
{
    match first {
        Some(first) if first.moment <= other.moment => first,
        _ => other,
    }
}

/// The earliest of the sources that have completed; none where one has failed, even if another completed before it.
fn earliest<L: Look>(look: &L, places: &[u32]) -> Option<Normal>
    requires places { All (λ place. place < length (L.states look.now)) places.now }
    requires moments { All (λ state. IsBy (2 ^ 62) (seen_of state)) (L.states look.now) }
    ensures source { IfSome result (λ normal. earliest moment_of (completed (seen_at (state_at (L.states look.now))) places.now) ≡ Some (as_source normal)) }
    ensures early { IfSome result (λ normal. normal.moment ≤ 2 ^ 62) }
{
    let mut first = None;
    for place in places {
        let found = unless_failed(look, *place)?;
        if let Some(source) = found {
            first = Some(sooner(first, source));
        }
    }
    first
}

/// The moment of the last of the sources and the creation, where all sources have completed with values.
fn latest<L: Look>(look: &L, created: u64, places: &[u32]) -> Option<u64>
    requires places { All (λ place. place < length (L.states look.now)) places.now }
    requires moments { All (λ state. IsBy (2 ^ 62) (seen_of state)) (L.states look.now) }
    ensures { IfSome result (AreNormal created (seen_at (state_at (L.states look.now))) places.now) }
{
    let mut trigger = created;
    for place in places {
        let source = normal_at(look, *place)?;
        trigger = trigger.max(source.moment);
    }
    Some(trigger)
}

/// The value that the stage's action gives for two values, or what it throws.
fn given(stage: &Stage, first: Value, second: Value) -> Result<Value, Thrown<'_>>
    ensures { as_answer result ≡ answer_of stage.now (two_values first second) }
{
    match &stage.action {
        None => Ok(Value::Null),
        Some(action) => action.value(&two_values(first, second)),
    }
}

/// The same, with this value in place of the action's own.
#[inline(always)]
fn given_instead(
    stage: &Stage,
    first: Value,
    second: Value,
    value: Value,
) -> Result<Value, Thrown<'_>>
    ensures { as_answer result ≡ instead value (answer_of stage.now (two_values first second)) }
{
    given(stage, first, second)?;
    Ok(value)
}

/// What a stage completes with after two normal sources.
#[inline(always)]
fn own_after_two(stage: &Stage, first: Value, second: Value) -> Option<Result<Value, Thrown<'_>>>
    ensures { IfSome result (IsOwnAfterTwo stage.now first second) }
{
    match stage.op {
        Op::ThenCombine => Some(given(stage, first, second)),
        Op::ThenAcceptBoth => Some(given_instead(stage, first, second, Value::Null)),
        Op::RunAfterBoth => Some(given_instead(stage, Value::Null, Value::Null, Value::Null)),
        _ => None,
    }
}

/// The action runs, and the stage completes with what it gave or threw when it ends.
#[inline(always)]
fn return_after<'a>(stage: &Stage, trigger: u64, given: Result<Value, Thrown<'a>>) -> Returned<'a>
    requires { end_of stage.now trigger < 2 ^ 64 }
    ensures { result ≡ return_after stage.now trigger given.entry }
{
    let start = trigger + stage.queued;
    Returned {
        given,
        moment: start + stage.runs,
        start: Some(start),
    }
}

/// A value passes at the trigger, and no action runs.
#[inline(always)]
fn pass_at<'a>(trigger: u64, value: Value) -> Returned<'a>
    ensures { result ≡ pass_at trigger value }
{
    Returned {
        given: Ok(value),
        moment: trigger,
        start: None,
    }
}

/// The completion after a source with this value that decides the stage.
#[inline(always)]
fn after_value(stage: &Stage, trigger: u64, value: Value) -> Option<Returned<'_>>
    requires { end_of stage.now trigger < 2 ^ 64 }
    ensures { IfSome result (IsAfterValue stage.now trigger value) }
{
    let own = match stage.op {
        Op::ThenApply | Op::ApplyToEither | Op::Handle => given(stage, value, Value::Null),
        Op::ThenAccept | Op::AcceptEither => {
            given_instead(stage, value, Value::Null, Value::Null)
        }
        Op::ThenRun | Op::RunAfterEither => {
            given_instead(stage, Value::Null, Value::Null, Value::Null)
        }
        Op::WhenComplete => given_instead(stage, value, Value::Null, value),
        Op::Copy | Op::Exceptionally | Op::ExceptionallyCompose | Op::AnyOf => {
            return Some(pass_at(trigger, value));
        }
        _ => return None,
    };
    Some(return_after(stage, trigger, own))
}

/// The completion after one source.
#[inline(always)]
fn after_one<'a, L: Look>(stage: &'a Stage, look: &L, place: u32) -> Option<Returned<'a>>
    requires limits { IsLimited (length (L.states look.now)) stage.now }
    requires moments { All (λ state. IsBy (2 ^ 62) (seen_of state)) (L.states look.now) }
    requires only { stage.now.sources ≡ place ∷ [] }
    ensures { IfSome result (IsProgress stage.now (seen_at (state_at (L.states look.now)))) }
{
    let source = normal_at(look, place)?;
    let trigger = stage.created.max(source.moment);
    match stage.op {
        Op::AllOf => Some(pass_at(trigger, Value::Null)),
        _ => after_value(stage, trigger, source.value),
    }
}

/// The completion after both of two sources.
#[inline(always)]
fn after_two<'a, L: Look>(
    stage: &'a Stage,
    look: &L,
    first: u32,
    second: u32,
) -> Option<Returned<'a>>
    requires limits { IsLimited (length (L.states look.now)) stage.now }
    requires moments { All (λ state. IsBy (2 ^ 62) (seen_of state)) (L.states look.now) }
    requires both { stage.now.sources ≡ first ∷ second ∷ [] }
    ensures { IfSome result (IsProgress stage.now (seen_at (state_at (L.states look.now)))) }
{
    let first = normal_at(look, first)?;
    let second = normal_at(look, second)?;
    let own = own_after_two(stage, first.value, second.value)?;
    let trigger = first.moment.max(second.moment.max(stage.created));
    Some(return_after(stage, trigger, own))
}

/// The completion after the earliest source.
#[inline(always)]
fn after_earliest<'a, L: Look>(stage: &'a Stage, look: &L) -> Option<Returned<'a>>
    requires limits { IsLimited (length (L.states look.now)) stage.now }
    requires moments { All (λ state. IsBy (2 ^ 62) (seen_of state)) (L.states look.now) }
    ensures { IfSome result (IsProgress stage.now (seen_at (state_at (L.states look.now)))) }
{
    let source = earliest(look, stage.sources.as_slice())?;
    after_value(stage, stage.created.max(source.moment), source.value)
}

/// The completion of a stage that waits for all of its sources, and runs no action.
#[inline(always)]
fn after_all<'a, L: Look>(stage: &'a Stage, look: &L) -> Option<Returned<'a>>
    requires limits { IsLimited (length (L.states look.now)) stage.now }
    requires moments { All (λ state. IsBy (2 ^ 62) (seen_of state)) (L.states look.now) }
    requires all { stage.now.op ≡ AllOf }
    ensures { IfSome result (IsProgress stage.now (seen_at (state_at (L.states look.now)))) }
{
    let trigger = latest(look, stage.created, stage.sources.as_slice())?;
    Some(pass_at(trigger, Value::Null))
}

/// The completion of a stage that waits for either of two sources, for any number of them, or for none. It is not inlined,
/// so that the code of the operations on one source and on both of two stays small where it is.
fn after_any_number<'a, L: Look>(stage: &'a Stage, look: &L) -> Option<Returned<'a>>
    requires limits { IsLimited (length (L.states look.now)) stage.now }
    requires moments { All (λ state. IsBy (2 ^ 62) (seen_of state)) (L.states look.now) }
    ensures { IfSome result (IsProgress stage.now (seen_at (state_at (L.states look.now)))) }
{
    match stage.op {
        Op::AllOf => after_all(stage, look),
        Op::AnyOf | Op::ApplyToEither | Op::AcceptEither | Op::RunAfterEither => {
            after_earliest(stage, look)
        }
        Op::Completed(value) => Some(pass_at(stage.created, value)),
        Op::Async => {
            let own = given(stage, Value::Null, Value::Null);
            Some(return_after(stage, stage.created, own))
        }
        _ => None,
    }
}

/// The completion after either or both of two sources.
#[inline(always)]
fn after_either_or_both<'a, L: Look>(
    stage: &'a Stage,
    look: &L,
    first: u32,
    second: u32,
) -> Option<Returned<'a>>
    requires limits { IsLimited (length (L.states look.now)) stage.now }
    requires moments { All (λ state. IsBy (2 ^ 62) (seen_of state)) (L.states look.now) }
    requires both { stage.now.sources ≡ first ∷ second ∷ [] }
    ensures { IfSome result (IsProgress stage.now (seen_at (state_at (L.states look.now)))) }
{
    match stage.op {
        Op::ThenCombine | Op::ThenAcceptBoth | Op::RunAfterBoth => {
            after_two(stage, look, first, second)
        }
        _ => after_any_number(stage, look),
    }
}

/// The completion of a stage by its sources.
#[inline(always)]
fn after_sources<'a, L: Look>(stage: &'a Stage, look: &L) -> Option<Returned<'a>>
    requires limits { IsLimited (length (L.states look.now)) stage.now }
    requires moments { All (λ state. IsBy (2 ^ 62) (seen_of state)) (L.states look.now) }
    ensures { IfSome result (IsProgress stage.now (seen_at (state_at (L.states look.now)))) }
{
    match stage.sources.as_slice() {
        [place] => after_one(stage, look, *place),
        [first, second] => after_either_or_both(stage, look, *first, *second),
        _ => after_any_number(stage, look),
    }
}

/// Whether a stage has neither a pin nor an end.
#[inline(always)]
fn is_plain(stage: &Stage) -> bool
    ensures { IsTrue result → IsPlain stage.now }
{
    stage.pin_result.is_none() && stage.pin_moment.is_none() && stage.ends.as_slice().is_empty()
}

/// The completion of a usual stage; none where the stage may be another one.
#[inline(always)]
pub(crate) fn usual<'a, L: Look>(stage: &'a Stage, look: &L) -> Option<Returned<'a>>
    requires limits { IsLimited (length (L.states look.now)) stage.now }
    requires moments { All (λ state. IsBy (2 ^ 62) (seen_of state)) (L.states look.now) }
    ensures { IfSome result (IsUsual stage.now (seen_at (state_at (L.states look.now)))) }
{
    if is_plain(stage) {
        after_sources(stage, look)
    } else {
        None
    }
}

/// The outcome of a stage whose own action threw this. It is not inlined: the name of an exception is large, and most actions give
/// a value.
#[cold]
#[inline(never)]
fn thrown_outcome(mode: Mode, thrown: Thrown<'_>) -> Outcome
    ensures { result ≡ own mode (name_of thrown.entry) }
{
    Outcome::own(mode, thrown.name())
}

/// The state of a stage that has read its sources and has this completion.
#[inline(always)]
pub(crate) fn state_after(mode: Mode, returned: Returned<'_>) -> State
    ensures { result ≡ state_after mode returned.entry }
{
    let outcome = match returned.given {
        Ok(value) => Outcome::Value(value),
        Err(thrown) => thrown_outcome(mode, thrown),
    };
    State {
        done: Some(Done {
            outcome,
            moment: returned.moment,
            from: None,
            start: returned.start,
        }),
        reads: Reads::Sources,
    }
}
