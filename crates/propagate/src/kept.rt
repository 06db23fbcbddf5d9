//! States as lists store them.
ghost use Rattle.std.specs.Prelude.{◌≡◌, IfOk, Some, is_some, not};
ghost use Rattle.stage_ops.specs.States.{seen_of};
ghost use Rattle.scratch_eval.specs.Blame.{failure_of};
ghost use Rattle.propagate.specs.Completions.{differ, returned};
ghost use Rattle.propagate.specs.KeptStates.{reads_in, start_in, state_in, state_returned, value_in};

use crate::completions::{differ, is_returned};
use act_expr::{Outcome, Value};
use share_tree::Held;
use stage_ops::{Done, Reads, State};
use std::alloc::{AllocError, Global};
use std::marker::Model;
use std::ops::Deref;

/// What a state has read, without the index of the inner stage, which stands apart.
#[derive(Clone, Copy)]
enum Reading {
    Nothing,
    Sources,
    Picked,
}

/// A compact state. The name of an exception is much larger than a number, so it is stored apart.
#[derive(Drop)]
enum Form {
    Pending(Reads),
    /// A value, for which no source is blamed. What tells whether there is a number, whether there is a start, and which feeds were
    /// read stands here beside the tag of the form, ahead of the numbers: in a [`Value`], an [`Option`] and a [`Reads`] each would have
    /// eight bytes of its own. So a state takes 32 bytes in place of 56, and a tree's item, with its count, 48 of the heap in place of 80.
    Returned {
        is_number: bool,
        is_started: bool,
        reading: Reading,
        /// The index of the inner stage; nothing depends on it where none was read.
        index: u32,
        /// Nothing depends on it where the value is null.
        number: i64,
        moment: u64,
        /// Nothing depends on it where there is no start.
        start: u64,
    },
    Other(Held<State>),
}

/// The value of this number, or null.
#[inline(always)]
fn value_in(is_number: bool, number: i64) -> Value
    ensures { result ≡ value_in is_number number }
{
    if is_number {
        Value::Num(number)
    } else {
        Value::Null
    }
}

/// Whether a value is a number, and which.
#[inline(always)]
fn number_of(value: Value) -> (bool, i64)
    ensures { value_in result.0 result.1 ≡ value }
{
    match value {
        Value::Num(number) => (true, number),
        Value::Null => (false, 0),
    }
}

/// The start at this moment, or none.
#[inline(always)]
fn start_in(is_started: bool, start: u64) -> Option<u64>
    ensures { result ≡ start_in is_started start }
{
    if is_started { Some(start) } else { None }
}

/// Whether there is a start, and at which moment.
#[inline(always)]
fn moment_of(start: Option<u64>) -> (bool, u64)
    ensures { start_in result.0 result.1 ≡ start }
{
    match start {
        Some(start) => (true, start),
        None => (false, 0),
    }
}

/// What was read, with this index of the inner stage.
#[inline(always)]
fn reads_in(reading: Reading, index: u32) -> Reads
    ensures { result ≡ reads_in reading index }
{
    match reading {
        Reading::Nothing => Reads::Nothing,
        Reading::Sources => Reads::Sources,
        Reading::Picked => Reads::Picked(index),
    }
}

/// What was read, and the index of the inner stage.
#[inline(always)]
fn reading_of(reads: Reads) -> (Reading, u32)
    ensures { reads_in result.0 result.1 ≡ reads }
{
    match reads {
        Reads::Nothing => (Reading::Nothing, 0),
        Reads::Sources => (Reading::Sources, 0),
        Reads::Picked(index) => (Reading::Picked, index),
    }
}

/// The form of a value, for which no source is blamed.
#[inline(always)]
fn returned(value: Value, moment: u64, start: Option<u64>, reads: Reads) -> Form
    ensures { state_in result ≡ state_returned value moment start reads }
{
    let (is_number, number) = number_of(value);
    let (is_started, start) = moment_of(start);
    let (reading, index) = reading_of(reads);
    Form::Returned {
        is_number,
        is_started,
        reading,
        index,
        number,
        moment,
        start,
    }
}

/// A state, as a list stores it. Contracts see the state.
#[derive(Drop)]
pub struct KeptState {
    form: Form,
}

impl Model for KeptState {
    ghost use Rattle.stage_ops.specs.declared.state.State.{State};
    ghost use Rattle.propagate.specs.KeptStates.{state_in};

    ghost Value = { State };

    ghost view = { λ kept. state_in kept.form };
}

impl KeptState {
    /// Stores a state.
    #[inline(always)]
    pub fn new(alloc: Global, state: &State) -> Result<KeptState, AllocError>
        ensures { IfOk result (λ kept. kept ≡ state.now) }
    {
        let Some(done) = &state.done else {
            return Ok(KeptState {
                form: Form::Pending(state.reads),
            });
        };
        match (&done.outcome, done.from) {
            (Outcome::Value(value), None) => Ok(KeptState {
                form: returned(*value, done.moment, done.start, state.reads),
            }),
            _ => Ok(KeptState {
                form: Form::Other(Held::new(alloc, *state)?),
            }),
        }
    }

    /// The stored state.
    #[inline(always)]
    pub fn state(&self) -> State
        ensures { result ≡ self.now }
    {
        match &self.form {
            Form::Pending(reads) => State {
                done: None,
                reads: *reads,
            },
            Form::Returned {
                is_number,
                is_started,
                reading,
                index,
                number,
                moment,
                start,
            } => State {
                done: Some(Done {
                    outcome: Outcome::Value(value_in(*is_number, *number)),
                    moment: *moment,
                    from: None,
                    start: start_in(*is_started, *start),
                }),
                reads: reads_in(*reading, *index),
            },
            Form::Other(held) => *held.deref(),
        }
    }

    /// What the stored state has read. Allocates nothing.
    #[inline(always)]
    pub fn reads(&self) -> Reads
        ensures { result ≡ self.now.reads }
    {
        match &self.form {
            Form::Pending(reads) => *reads,
            Form::Returned { reading, index, .. } => reads_in(*reading, *index),
            Form::Other(held) => held.deref().reads,
        }
    }

    /// The stored completion, if it is one by an exception.
    #[inline(always)]
    pub(crate) fn failure(&self) -> Option<Done>
        ensures { result ≡ failure_of self.now.done }
    {
        let Form::Other(held) = &self.form else {
            return None;
        };
        let done = held.deref().done?;
        match done.outcome {
            Outcome::Value(_) => None,
            Outcome::Bare(_) | Outcome::Wrapped(_) => Some(done),
        }
    }

    /// Whether dependents can distinguish the stored state from another one: exactly one is pending, or they differ in outcome, moment
    /// or blamed source. Allocates nothing.
    #[inline(always)]
    pub fn differs(&self, after: &KeptState) -> bool
        ensures { result ≡ differ (seen_of self.now) (seen_of after.now) }
    {
        match (&self.form, &after.form) {
            (
                Form::Returned {
                    is_number,
                    number,
                    moment,
                    ..
                },
                _,
            ) => !after.has_returned(value_in(*is_number, *number), *moment),
            (
                _,
                Form::Returned {
                    is_number,
                    number,
                    moment,
                    ..
                },
            ) => !self.has_returned(value_in(*is_number, *number), *moment),
            (Form::Pending(_), _) => after.has_completed(),
            (_, Form::Pending(_)) => self.has_completed(),
            (Form::Other(before), Form::Other(after)) => differ(before.deref(), after.deref()),
        }
    }

    /// Whether the stored state is a completion.
    #[inline(always)]
    fn has_completed(&self) -> bool
        ensures { result ≡ is_some self.now.done }
    {
        match &self.form {
            Form::Pending(_) => false,
            Form::Returned { .. } => true,
            Form::Other(held) => held.deref().done.is_some(),
        }
    }

    /// Whether the stored state is a completion with this value at this moment, for which no source is blamed.
    #[inline(always)]
    fn has_returned(&self, value: Value, moment: u64) -> bool
        ensures { result ≡ not (differ (Some (returned value moment)) (seen_of self.now)) }
    {
        match &self.form {
            Form::Pending(_) => false,
            Form::Returned {
                is_number,
                number,
                moment: at,
                ..
            } => value_in(*is_number, *number) == value && *at == moment,
            Form::Other(held) => match &held.deref().done {
                None => false,
                Some(done) => is_returned(value, moment, done),
            },
        }
    }
}
