//! The words of a line, each appended to a text.
//!
//! A report has some for each of its rows, so their pieces are appended one by one: to format them would be a good part of
//! a report's time.
ghost use Rattle.std.specs.Prelude.{◌≡◌, ◌++◌, OnOk, codes, string_bytes};
ghost use Rattle.std.specs.Fmt.{decimal};
ghost use Rattle.act_expr.specs.OutcomeText.{outcome_text, value_text};
ghost use Rattle.stage_ends.specs.declared.fate.Fate.TheVariants.{CutOff};
ghost use Rattle.stage_ops.specs.Texts.{join_text};
ghost use Rattle.report_text.specs.Texts.{at_text, because_text, delay_text, end_result_text, exception_text, failure_text, fate_text, later_text, more_text, number_or_dash, own_text, results_text, shift_text, signed_text, standing_text};

use crate::digits::{push_number, push_signed};
use act_expr::{ExName, Outcome, Value};
use report_rows::{Because, Shift, Standing};
use stage_ends::Fate;
use stage_ops::Join;
use std::alloc::AllocError;

/// A number, or a dash where there is none.
pub(crate) fn push_number_or_dash(line: &mut String, number: Option<u64>) -> Result<(), AllocError>
    ensures { OnOk result (string_bytes line.new ≡ string_bytes line.old ++ number_or_dash number) }
{
    match number {
        Some(number) => push_number(line, number),
        None => line.push_str("-"),
    }
}

/// The moment, and another text where there is none.
pub(crate) fn push_at(
    line: &mut String,
    otherwise: &str,
    moment: Option<u64>,
) -> Result<(), AllocError>
    ensures { OnOk result (string_bytes line.new ≡ string_bytes line.old ++ at_text otherwise.now moment) }
{
    match moment {
        Some(moment) => {
            line.push_str(" at ")?;
            push_number(line, moment)
        }
        None => line.push_str(otherwise),
    }
}

// What is said of an exception, and its name.
fn push_named(line: &mut String, said: &str, name: &ExName) -> Result<(), AllocError>
    ensures { OnOk result (string_bytes line.new ≡ string_bytes line.old ++ said.now ++ name.now) }
{
    line.push_str(said)?;
    line.push_str(name.text())
}

/// A value of a stage: a number or null.
pub(crate) fn push_value(line: &mut String, value: Value) -> Result<(), AllocError>
    ensures { OnOk result (string_bytes line.new ≡ string_bytes line.old ++ value_text value) }
{
    match value {
        Value::Null => line.push_str("null"),
        Value::Num(number) => push_signed(line, number),
    }
}

/// The outcome's kind, and its value or its exception's name.
pub(crate) fn push_outcome(line: &mut String, outcome: &Outcome) -> Result<(), AllocError>
    ensures { OnOk result (string_bytes line.new ≡ string_bytes line.old ++ outcome_text outcome.now) }
{
    match outcome {
        Outcome::Value(Value::Null) => line.push_str("value:null"),
        Outcome::Value(Value::Num(number)) => {
            line.push_str("value:")?;
            push_signed(line, *number)
        }
        Outcome::Bare(name) => push_named(line, "bare:", name),
        Outcome::Wrapped(name) => push_named(line, "wrapped:", name),
    }
}

// OUTCOME at MOMENT
fn push_completed(line: &mut String, outcome: &Outcome, moment: u64) -> Result<(), AllocError>
    ensures { OnOk result (string_bytes line.new ≡ string_bytes line.old ++ outcome_text outcome.now ++ codes " at " ++ decimal moment) }
{
    push_outcome(line, outcome)?;
    line.push_str(" at ")?;
    push_number(line, moment)
}

/// What a stage is in a version.
#[inline(always)]
pub(crate) fn push_standing(line: &mut String, standing: &Standing) -> Result<(), AllocError>
    ensures { OnOk result (string_bytes line.new ≡ string_bytes line.old ++ standing_text standing.now) }
{
    match standing {
        Standing::Absent => line.push_str("absent"),
        Standing::Pending => line.push_str("pending"),
        Standing::Completed(outcome, moment) => push_completed(line, outcome, *moment),
    }
}

// The name of an exception; a dash for a value.
fn push_exception(line: &mut String, outcome: &Outcome) -> Result<(), AllocError>
    ensures { OnOk result (string_bytes line.new ≡ string_bytes line.old ++ exception_text outcome.now) }
{
    match outcome {
        Outcome::Value(_) => line.push_str("-"),
        Outcome::Bare(name) => line.push_str(name.text()),
        Outcome::Wrapped(name) => line.push_str(name.text()),
    }
}

// EXCEPTION at MOMENT
fn push_failed_at(line: &mut String, outcome: &Outcome, moment: u64) -> Result<(), AllocError>
    ensures { OnOk result (string_bytes line.new ≡ string_bytes line.old ++ exception_text outcome.now ++ codes " at " ++ decimal moment) }
{
    push_exception(line, outcome)?;
    line.push_str(" at ")?;
    push_number(line, moment)
}

/// The exception that a stage holds, and since when.
pub(crate) fn push_failure(line: &mut String, standing: &Standing) -> Result<(), AllocError>
    ensures { OnOk result (string_bytes line.new ≡ string_bytes line.old ++ failure_text standing.now) }
{
    match standing {
        Standing::Absent => line.push_str("-"),
        Standing::Pending => line.push_str("-"),
        Standing::Completed(outcome, moment) => push_failed_at(line, outcome, *moment),
    }
}

/// The delay of a timeout, after a space.
pub(crate) fn push_delay(line: &mut String, delay: Option<u64>) -> Result<(), AllocError>
    ensures { OnOk result (string_bytes line.new ≡ string_bytes line.old ++ delay_text delay) }
{
    match delay {
        Some(delay) => {
            line.push_str(" ")?;
            push_number(line, delay)
        }
        None => Ok(()),
    }
}

// What is said of some ticks, and how many they are.
fn push_ticks(line: &mut String, said: &str, ticks: u64) -> Result<(), AllocError>
    ensures { OnOk result (string_bytes line.new ≡ string_bytes line.old ++ (said.now ++ decimal ticks)) }
{
    line.push_str(said)?;
    push_number(line, ticks)
}

// After how many of its ticks an action was cut off.
fn push_cut_off(line: &mut String, ran: u64, of: u64) -> Result<(), AllocError>
    ensures { OnOk result (string_bytes line.new ≡ string_bytes line.old ++ fate_text (CutOff ran of)) }
{
    line.push_str("struck, cut off after ")?;
    push_number(line, ran)?;
    line.push_str(" of its ")?;
    push_number(line, of)
}

/// What became of an end.
pub(crate) fn push_fate(line: &mut String, fate: Fate) -> Result<(), AllocError>
    ensures { OnOk result (string_bytes line.new ≡ string_bytes line.old ++ fate_text fate) }
{
    match fate {
        Fate::Struck => line.push_str("struck"),
        Fate::CutOff { ran, of } => push_cut_off(line, ran, of),
        Fate::NotReached { by } => push_ticks(line, "not reached by ", by),
        Fate::TooLate { by } => push_ticks(line, "too late by ", by),
    }
}

/// How much later or earlier.
pub(crate) fn push_shift(line: &mut String, shift: Shift) -> Result<(), AllocError>
    ensures { OnOk result (string_bytes line.new ≡ string_bytes line.old ++ shift_text shift) }
{
    match shift {
        Shift::Later(ticks) => {
            line.push_str("later ")?;
            push_number(line, ticks)
        }
        Shift::Earlier(ticks) => {
            line.push_str("earlier ")?;
            push_number(line, ticks)
        }
    }
}

// How many ticks more or fewer.
fn push_shifted(line: &mut String, shift: Option<Shift>) -> Result<(), AllocError>
    ensures { OnOk result (string_bytes line.new ≡ string_bytes line.old ++ signed_text shift) }
{
    match shift {
        None => line.push_str("+0"),
        Some(Shift::Later(ticks)) => {
            line.push_str("+")?;
            push_number(line, ticks)
        }
        Some(Shift::Earlier(ticks)) => {
            line.push_str("-")?;
            push_number(line, ticks)
        }
    }
}

/// How many ticks there are more than in another run.
pub(crate) fn push_more(line: &mut String, good: u64, bad: u64) -> Result<(), AllocError>
    ensures { OnOk result (string_bytes line.new ≡ string_bytes line.old ++ more_text good bad) }
{
    push_shifted(line, Shift::between(good, bad))
}

/// How many ticks later a stage completed than in another run.
pub(crate) fn push_later(
    line: &mut String,
    good: &Standing,
    bad: &Standing,
) -> Result<(), AllocError>
    ensures { OnOk result (string_bytes line.new ≡ string_bytes line.old ++ later_text good.now bad.now) }
{
    match (good, bad) {
        (Standing::Completed(_, good), Standing::Completed(_, bad)) => {
            push_more(line, *good, *bad)
        }
        _ => line.push_str("-"),
    }
}

// The outcome alone.
fn push_end_result(line: &mut String, standing: &Standing) -> Result<(), AllocError>
    ensures { OnOk result (string_bytes line.new ≡ string_bytes line.old ++ end_result_text standing.now) }
{
    match standing {
        Standing::Absent => line.push_str("absent"),
        Standing::Pending => line.push_str("pending"),
        Standing::Completed(outcome, _) => push_outcome(line, outcome),
    }
}

/// How many ticks later a stage completed than in another run, and what it came to in both.
pub(crate) fn push_results(
    line: &mut String,
    good: &Standing,
    bad: &Standing,
) -> Result<(), AllocError>
    ensures { OnOk result (string_bytes line.new ≡ string_bytes line.old ++ results_text good.now bad.now) }
{
    line.push_str(" at ")?;
    push_later(line, good, bad)?;
    line.push_str(" ")?;
    push_end_result(line, good)?;
    line.push_str(" -> ")?;
    push_end_result(line, bad)
}

// How long a stage's own action was queued and ran.
fn push_own(line: &mut String, queued: u64, ran: u64) -> Result<(), AllocError>
    ensures { OnOk result (string_bytes line.new ≡ string_bytes line.old ++ own_text queued ran) }
{
    line.push_str(" queued ")?;
    push_number(line, queued)?;
    line.push_str(" ran ")?;
    push_number(line, ran)
}

// The same, and when the stage was created.
fn push_created(line: &mut String, queued: u64, ran: u64, tick: u64) -> Result<(), AllocError>
    ensures { OnOk result (string_bytes line.new ≡ string_bytes line.old ++ own_text queued ran ++ codes " created " ++ decimal tick) }
{
    push_own(line, queued, ran)?;
    line.push_str(" created ")?;
    push_number(line, tick)
}

// The same, and after which stage.
fn push_after(line: &mut String, queued: u64, ran: u64, name: &str) -> Result<(), AllocError>
    ensures { OnOk result (string_bytes line.new ≡ string_bytes line.old ++ own_text queued ran ++ codes " after " ++ name.now) }
{
    push_own(line, queued, ran)?;
    line.push_str(" after ")?;
    line.push_str(name)
}

// What is said of a name, and the name.
fn push_said(line: &mut String, said: &str, name: &str) -> Result<(), AllocError>
    ensures { OnOk result (string_bytes line.new ≡ string_bytes line.old ++ said.now ++ name.now) }
{
    line.push_str(said)?;
    line.push_str(name)
}

/// After which event a stage completed, or what it waits for.
pub(crate) fn push_because(
    line: &mut String,
    queued: u64,
    ran: u64,
    because: &Because<'_>,
) -> Result<(), AllocError>
    ensures { OnOk result (string_bytes line.new ≡ string_bytes line.old ++ because_text queued ran because.now) }
{
    match because {
        Because::Created(tick) => push_created(line, queued, ran, *tick),
        Because::After(name) => push_after(line, queued, ran, name.as_str()),
        Because::Inner(name) => push_said(line, " took over ", name.as_str()),
        Because::Pinned => line.push_str(" pinned"),
        Because::Ended(kind) => push_said(line, " ended by ", kind.as_str()),
        Because::Waiting(name) => push_said(line, " waits for ", name.as_str()),
        Because::Open => line.push_str(" open"),
    }
}

/// The answer of `join`.
pub(crate) fn push_answer(line: &mut String, join: &Join) -> Result<(), AllocError>
    ensures { OnOk result (string_bytes line.new ≡ string_bytes line.old ++ join_text join.now) }
{
    match join {
        Join::Waits => line.push_str("waits"),
        Join::Returns(Value::Null) => line.push_str("returns null"),
        Join::Returns(Value::Num(number)) => {
            line.push_str("returns ")?;
            push_signed(line, *number)
        }
        Join::Cancelled => line.push_str("throws java.util.concurrent.CancellationException"),
        Join::Throws(name) => push_named(
            line,
            "throws java.util.concurrent.CompletionException cause ",
            name,
        ),
    }
}
