//! The forms that the members of stages and steps have: counts, values, outcomes, ends, and the names of operations.
ghost use Rattle.std.specs.Prelude.{◌≡◌};
ghost use Rattle.recording.specs.Tables.{beside};
ghost use Rattle.recording.specs.Forms.{value_in, op_names, op_name_in, outcome_in, act_names, act_of, act_in, end_in, ends_in};

use crate::expression::exception_in;
use crate::from_json::FromJson;
use crate::unread::Unread;
use act_expr::Outcome;
use json_trees::Tree;
use stage_graph::{Act, End, Ends, Op};
use std::alloc::Global;

/// The name of an operation. For the last two, another member has the value or the exception.
#[derive(Clone, Copy, PartialEq, Eq, Debug)]
pub(crate) enum OpName {
    Plain(Op),
    Completed,
    Failed,
}

/// The name of what an end does.
#[derive(Clone, Copy, PartialEq, Eq, Debug)]
pub(crate) enum ActName {
    Complete,
    CompleteExceptionally,
    Cancel,
    OrTimeout,
    CompleteOnTimeout,
}

impl OpName {
    /// The operation that a text names, if it names one.
    pub(crate) fn new(text: &str) -> Option<OpName>
        ensures { result ≡ beside op_names text.now }
    {
        match text {
            "async" | "supplyAsync" => Some(OpName::Plain(Op::Async)),
            "manual" => Some(OpName::Plain(Op::Manual)),
            "completed" => Some(OpName::Completed),
            "failed" => Some(OpName::Failed),
            "thenApply" | "thenApplyAsync" => Some(OpName::Plain(Op::ThenApply)),
            "thenAccept" | "thenAcceptAsync" => Some(OpName::Plain(Op::ThenAccept)),
            "thenRun" | "thenRunAsync" => Some(OpName::Plain(Op::ThenRun)),
            "copy" => Some(OpName::Plain(Op::Copy)),
            "handle" | "handleAsync" => Some(OpName::Plain(Op::Handle)),
            "whenComplete" | "whenCompleteAsync" => Some(OpName::Plain(Op::WhenComplete)),
            "exceptionally" | "exceptionallyAsync" => Some(OpName::Plain(Op::Exceptionally)),
            "thenCompose" | "thenComposeAsync" => Some(OpName::Plain(Op::ThenCompose)),
            "exceptionallyCompose" | "exceptionallyComposeAsync" => Some(OpName::Plain(
                Op::ExceptionallyCompose,
            )),
            "thenCombine" | "thenCombineAsync" => Some(OpName::Plain(Op::ThenCombine)),
            "thenAcceptBoth" | "thenAcceptBothAsync" => Some(OpName::Plain(Op::ThenAcceptBoth)),
            "runAfterBoth" | "runAfterBothAsync" => Some(OpName::Plain(Op::RunAfterBoth)),
            "applyToEither" | "applyToEitherAsync" => Some(OpName::Plain(Op::ApplyToEither)),
            "acceptEither" | "acceptEitherAsync" => Some(OpName::Plain(Op::AcceptEither)),
            "runAfterEither" | "runAfterEitherAsync" => Some(OpName::Plain(Op::RunAfterEither)),
            "allOf" => Some(OpName::Plain(Op::AllOf)),
            "anyOf" => Some(OpName::Plain(Op::AnyOf)),
            _ => None,
        }
    }
}

impl FromJson for OpName {
    ghost form = { op_name_in };

    fn from_json(_: Global, value: &Tree<'_, '_>) -> Result<OpName, Unread> {
        let Some(text) = value.as_str() else {
            return Err(Unread::Shape);
        };
        match OpName::new(text) {
            Some(name) => Ok(name),
            None => Err(Unread::Shape),
        }
    }
}

impl ActName {
    /// The act that a text names, if it names one.
    fn new(text: &str) -> Option<ActName>
        ensures { result ≡ beside act_names text.now }
    {
        match text {
            "complete" => Some(ActName::Complete),
            "completeExceptionally" => Some(ActName::CompleteExceptionally),
            "cancel" => Some(ActName::Cancel),
            "orTimeout" => Some(ActName::OrTimeout),
            "completeOnTimeout" => Some(ActName::CompleteOnTimeout),
            _ => None,
        }
    }
}

/// A number or null.
pub(crate) fn value_in(value: &Tree<'_, '_>) -> Option<act_expr::Value>
    ensures { result ≡ value_in value.now }
{
    if value.is_null() {
        return Some(act_expr::Value::Null);
    }
    Some(act_expr::Value::Num(value.as_i64()?))
}

impl FromJson for act_expr::Value {
    ghost form = { value_in };

    fn from_json(_: Global, value: &Tree<'_, '_>) -> Result<act_expr::Value, Unread> {
        value_in(value).ok_or(Unread::Shape)
    }
}

/// An object with exactly one of `value`, `bare` and `wrapped`.
fn outcome_in(value: &Tree<'_, '_>) -> Option<Outcome>
    ensures { result ≡ outcome_in value.now }
{
    match (value.get("value"), value.get("bare"), value.get("wrapped")) {
        (Some(value), None, None) => Some(Outcome::Value(value_in(&value)?)),
        (None, Some(name), None) => Some(Outcome::Bare(exception_in(&name)?)),
        (None, None, Some(name)) => Some(Outcome::Wrapped(exception_in(&name)?)),
        _ => None,
    }
}

impl FromJson for Outcome {
    ghost form = { outcome_in };

    fn from_json(_: Global, value: &Tree<'_, '_>) -> Result<Outcome, Unread> {
        outcome_in(value).ok_or(Unread::Shape)
    }
}

/// The further members of an end.
fn act_of(name: ActName, end: &Tree<'_, '_>) -> Option<Act>
    ensures { result ≡ act_of name end.now }
{
    match name {
        ActName::Complete => Some(Act::Complete(value_in(&end.get("value")?)?)),
        ActName::CompleteExceptionally => {
            Some(Act::CompleteExceptionally(exception_in(&end.get("throws")?)?))
        }
        ActName::Cancel => Some(Act::Cancel),
        ActName::OrTimeout => {
            let delay = end.get("delay")?.as_u64()?;
            Some(Act::OrTimeout { delay })
        }
        ActName::CompleteOnTimeout => {
            let delay = end.get("delay")?.as_u64()?;
            let value = value_in(&end.get("value")?)?;
            Some(Act::CompleteOnTimeout { delay, value })
        }
    }
}

/// What an end does.
fn act_in(end: &Tree<'_, '_>) -> Option<Act>
    ensures { result ≡ act_in end.now }
{
    let name = ActName::new(end.get("do")?.as_str()?)?;
    act_of(name, end)
}

/// An end.
fn end_in(value: &Tree<'_, '_>) -> Option<End>
    ensures { result ≡ end_in value.now }
{
    let at = value.get("at")?.as_u64()?;
    let act = act_in(value)?;
    Some(End { at, act })
}

/// An array of ends.
impl FromJson for Ends {
    ghost form = { ends_in };

    fn from_json(alloc: Global, value: &Tree<'_, '_>) -> Result<Ends, Unread> {
        let Some(mut items) = value.as_array() else {
            return Err(Unread::Shape);
        };
        let mut ends = Ends::new(alloc);
        while let Some(item) = items.next() {
            let Some(end) = end_in(&item) else {
                return Err(Unread::Shape);
            };
            ends.push(end)?;
        }
        Ok(ends)
    }
}
