//! An answer as text.
ghost use Rattle.std.specs.Prelude.{◌≡◌, ◌++◌, IfOk, OnOk, string_bytes};
ghost use Rattle.fleet_answer.specs.Texts.{answer_text, failure_text, failures_text, gain_text, group_text, groups_text, maybe_text, path_text, place_text, reply_text, share_text, shares_text, slow_text, slow_texts, slowest_text, times_text, told, tried_text, tries_text, try_text};

use crate::answer::Answer;
use crate::label::Label;
use crate::names::push_name;
use crate::rows::{FailureRow, GroupRow, ReplyRow, TryRow};
use crate::shares::{Share, Shares, Slowest};
use crate::times::Times;
use itoa::Buffer;
use std::alloc::{AllocError, Global};

/// What is said, and how many.
fn push_told(text: &mut String, said: &str, number: u64) -> Result<(), AllocError>
    ensures { OnOk result (string_bytes text.new ≡ string_bytes text.old ++ told said.now number) }
{
    let mut digits = Buffer::new();
    text.push_str(said)?;
    text.push_str(digits.format(number))
}

fn push_times(text: &mut String, times: Times) -> Result<(), AllocError>
    ensures { OnOk result (string_bytes text.new ≡ string_bytes text.old ++ times_text times) }
{
    push_told(text, " p50 ", times.p50)?;
    push_told(text, " p90 ", times.p90)?;
    push_told(text, " p99 ", times.p99)?;
    push_told(text, " max ", times.longest)
}

fn push_replies(text: &mut String, row: ReplyRow) -> Result<(), AllocError>
    ensures { OnOk result (string_bytes text.new ≡ string_bytes text.old ++ reply_text row) }
{
    push_told(text, "replies ", row.replies)?;
    push_told(text, " failed ", row.failed)?;
    push_times(text, row.times)?;
    text.push_str("\n")
}

/// A number, or a dash where there is none.
fn push_maybe(text: &mut String, number: Option<u64>) -> Result<(), AllocError>
    ensures { OnOk result (string_bytes text.new ≡ string_bytes text.old ++ maybe_text number) }
{
    let mut digits = Buffer::new();
    match number {
        Some(number) => text.push_str(digits.format(number)),
        None => text.push_str("-"),
    }
}

/// Where a group is.
fn push_place(text: &mut String, row: &GroupRow) -> Result<(), AllocError>
    ensures { OnOk result (string_bytes text.new ≡ string_bytes text.old ++ place_text row.now) }
{
    push_told(text, " traces ", row.traces)?;
    push_told(text, " spans ", row.spans)?;
    push_told(text, " on-path ", row.on_path)
}

/// What it did on paths.
fn push_path(text: &mut String, row: &GroupRow) -> Result<(), AllocError>
    ensures { OnOk result (string_bytes text.new ≡ string_bytes text.old ++ path_text row.now) }
{
    push_told(text, " ran ", row.ran)?;
    push_told(text, " queued ", row.queued)
}

/// How the replies would come without it.
fn push_gain(text: &mut String, row: &GroupRow) -> Result<(), AllocError>
    ensures { OnOk result (string_bytes text.new ≡ string_bytes text.old ++ gain_text row.now) }
{
    push_told(text, " sooner ", row.sooner)?;
    text.push_str(" p99 ")?;
    push_maybe(text, row.p99)
}

/// The line of a group.
fn push_group(alloc: Global, text: &mut String, row: &GroupRow) -> Result<(), AllocError>
    ensures { OnOk result (string_bytes text.new ≡ string_bytes text.old ++ group_text row.now) }
{
    push_name(alloc, text, &row.name)?;
    push_place(text, row)?;
    push_path(text, row)?;
    push_gain(text, row)?;
    text.push_str("\n")
}

/// The lines of groups.
fn push_groups(alloc: Global, text: &mut String, rows: &[GroupRow]) -> Result<(), AllocError>
    ensures { OnOk result (string_bytes text.new ≡ string_bytes text.old ++ groups_text rows.now) }
{
    for row in rows {
        push_group(alloc, text, row)?;
    }
    Ok(())
}

/// How the replies would have come.
fn push_tried(text: &mut String, replies: Option<ReplyRow>) -> Result<(), AllocError>
    ensures { OnOk result (string_bytes text.new ≡ string_bytes text.old ++ tried_text replies) }
{
    match replies {
        Some(row) => push_replies(text, row),
        None => text.push_str("replies 0\n"),
    }
}

/// The line of what was tried.
fn push_try(alloc: Global, text: &mut String, row: &TryRow) -> Result<(), AllocError>
    ensures { OnOk result (string_bytes text.new ≡ string_bytes text.old ++ try_text row.now) }
{
    text.push_str("try ")?;
    push_name(alloc, text, &row.change)?;
    text.push_str(" ")?;
    push_tried(text, row.replies)
}

/// The lines of what was tried.
fn push_tries(alloc: Global, text: &mut String, rows: &[TryRow]) -> Result<(), AllocError>
    ensures { OnOk result (string_bytes text.new ≡ string_bytes text.old ++ tries_text rows.now) }
{
    for row in rows {
        push_try(alloc, text, row)?;
    }
    Ok(())
}

/// How many replies are the slowest, where that is asked for.
fn push_slowest(text: &mut String, slowest: Option<Slowest>) -> Result<(), AllocError>
    ensures { OnOk result (string_bytes text.new ≡ string_bytes text.old ++ slowest_text slowest) }
{
    let Some(slowest) = slowest else {
        return Ok(());
    };
    push_told(text, "slowest ", u64::from(slowest.percent))?;
    push_told(text, " replies ", slowest.replies)?;
    text.push_str("\n")
}

fn push_share(text: &mut String, said: &str, share: Share) -> Result<(), AllocError>
    ensures { OnOk result (string_bytes text.new ≡ string_bytes text.old ++ share_text said.now share) }
{
    push_told(text, said, share.ran)?;
    push_told(text, " queued ", share.queued)
}

/// What a group did for each of the slowest replies, and of all.
fn push_shares(
    alloc: Global,
    text: &mut String,
    name: &Label,
    shares: Option<Shares>,
) -> Result<(), AllocError>
    ensures { OnOk result (string_bytes text.new ≡ string_bytes text.old ++ shares_text name.now shares) }
{
    let Some(shares) = shares else {
        return Ok(());
    };
    push_name(alloc, text, name)?;
    push_share(text, " slowest ran ", shares.slowest)?;
    push_share(text, " all ran ", shares.all)?;
    text.push_str("\n")
}

/// The same of each group.
fn push_slow(alloc: Global, text: &mut String, rows: &[GroupRow]) -> Result<(), AllocError>
    ensures { OnOk result (string_bytes text.new ≡ string_bytes text.old ++ slow_texts rows.now) }
{
    for row in rows {
        push_shares(alloc, text, &row.name, row.shares)?;
    }
    Ok(())
}

/// The line of a failure.
fn push_failure(alloc: Global, text: &mut String, row: &FailureRow) -> Result<(), AllocError>
    ensures { OnOk result (string_bytes text.new ≡ string_bytes text.old ++ failure_text row.now) }
{
    push_name(alloc, text, &row.exception)?;
    text.push_str(" from ")?;
    push_name(alloc, text, &row.group)?;
    push_told(text, " replies ", row.replies)?;
    text.push_str("\n")
}

/// The lines of failures.
fn push_failures(alloc: Global, text: &mut String, rows: &[FailureRow]) -> Result<(), AllocError>
    ensures { OnOk result (string_bytes text.new ≡ string_bytes text.old ++ failures_text rows.now) }
{
    for row in rows {
        push_failure(alloc, text, row)?;
    }
    Ok(())
}

/// An answer, as lines.
pub(crate) fn text_of(alloc: Global, answer: &Answer) -> Result<String, AllocError>
    ensures { IfOk result (λ text. string_bytes text ≡ answer_text answer.now) }
{
    let mut text = String::new(alloc);
    let groups = answer.groups.as_slice();
    push_replies(&mut text, answer.replies)?;
    push_groups(alloc, &mut text, groups)?;
    push_tries(alloc, &mut text, answer.tries.as_slice())?;
    push_slowest(&mut text, answer.slowest)?;
    push_slow(alloc, &mut text, groups)?;
    push_failures(alloc, &mut text, answer.failures.as_slice())?;
    Ok(text)
}
