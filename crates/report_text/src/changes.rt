//! Single changes of stages, each appended to a text: as an assignment of `try` where there is one that makes it.
ghost use Rattle.std.specs.Prelude.{◌≡◌, ◌++◌, OnOk, codes, string_bytes};
ghost use Rattle.act_expr.specs.OutcomeText.{value_text};
ghost use Rattle.report_text.specs.Texts.{limited_text, longer_text, set_end_text, tried_text, without_text};

use crate::digits::push_number;
use crate::words::{push_delay, push_number_or_dash, push_value};
use act_expr::Value;
use report_rows::{LentEnd, TriedChange};
use std::alloc::AllocError;

// The kind of an end, the delay of a timeout, and the tick at which it is set.
fn push_set_end(line: &mut String, end: &LentEnd<'_>) -> Result<(), AllocError>
    ensures { OnOk result (string_bytes line.new ≡ string_bytes line.old ++ set_end_text end.now) }
{
    line.push_str(end.kind())?;
    push_delay(line, end.delay())?;
    line.push_str(" set at ")?;
    push_number(line, end.set_at())
}

// An end is taken away.
fn push_without(line: &mut String, end: &LentEnd<'_>, is_only: bool) -> Result<(), AllocError>
    ensures { OnOk result (string_bytes line.new ≡ string_bytes line.old ++ without_text end.now is_only) }
{
    if is_only {
        return line.push_str("unlimited");
    }
    line.push_str("without ")?;
    push_set_end(line, end)
}

// What stands before another delay of a timeout.
fn push_limited(line: &mut String, end: &LentEnd<'_>, is_only: bool) -> Result<(), AllocError>
    ensures { OnOk result (string_bytes line.new ≡ string_bytes line.old ++ limited_text end.now is_only) }
{
    if is_only {
        return line.push_str("limit=");
    }
    push_set_end(line, end)?;
    line.push_str(" -> ")
}

// A timeout has twice the delay.
fn push_longer(line: &mut String, end: &LentEnd<'_>, is_only: bool) -> Result<(), AllocError>
    ensures { OnOk result (string_bytes line.new ≡ string_bytes line.old ++ longer_text end.now is_only) }
{
    push_limited(line, end, is_only)?;
    push_number_or_dash(line, end.longer())
}

// An exception did not arise.
fn push_gives(line: &mut String, value: Value) -> Result<(), AllocError>
    ensures { OnOk result (string_bytes line.new ≡ string_bytes line.old ++ codes "gives=" ++ value_text value) }
{
    line.push_str("gives=")?;
    push_value(line, value)
}

/// A change of a stage.
pub(crate) fn push_tried(line: &mut String, change: &TriedChange<'_>) -> Result<(), AllocError>
    ensures { OnOk result (string_bytes line.new ≡ string_bytes line.old ++ tried_text change.now) }
{
    match change {
        TriedChange::NoTime => line.push_str("runs=0"),
        TriedChange::NotQueued => line.push_str("queued=0"),
        TriedChange::NoFailure { value } => push_gives(line, *value),
        TriedChange::WithoutEnd { end, is_only, .. } => push_without(line, end, *is_only),
        TriedChange::TwiceTheDelay { end, is_only, .. } => push_longer(line, end, *is_only),
    }
}
