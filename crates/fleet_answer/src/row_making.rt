//! The rows of an answer.
ghost use Rattle.std.specs.Prelude.{◌≡◌, ◌≢◌, [], Err, IfOk, MatchOption};
ghost use Rattle.std.specs.List.{AllZip};
ghost use Rattle.std.specs.Option.{option_map};
ghost use Rattle.fleet_summary.specs.declared.group.GroupCounts.{GroupCounts};
ghost use Rattle.fleet_answer.specs.declared.fault.AnswerFault.{AnswerFault};
ghost use Rattle.fleet_answer.specs.declared.shares.Slowest.{Slowest};
ghost use Rattle.fleet_answer.specs.Rows.{AreGroupRows, IsGroupRow, IsReplyRow, IsTryRow, failure_row, failure_rows};
ghost use Rattle.fleet_answer.specs.Shares.{shares_of};

use crate::fault::AnswerFault;
use crate::label::Label;
use crate::rows::{FailureRow, GroupRow, ReplyRow, TryRow};
use crate::shares::{Shares, Slowest, shares_of, total_of};
use crate::times::times_of;
use crate::tried::Tried;
use crate::without::p99_without;
use fleet_summary::{Failure, FailureCounts, GroupCounts, Groups, Histogram, Name, Replies};
use std::alloc::{AllocError, Global};

/// The row of replies; none where there is no reply.
pub(crate) fn reply_row(replies: &Replies) -> Option<ReplyRow>
    ensures { MatchOption result (replies.now.times ≡ []) (IsReplyRow replies.now) }
{
    let times = times_of(&replies.times)?;
    Some(ReplyRow {
        replies: replies.count,
        failed: replies.failed,
        times,
    })
}

/// What a group did for each of the slowest replies and of all, where that is asked for.
fn shares_asked(slowest: Option<Slowest>, counts: &GroupCounts) -> Option<Shares>
    ensures { result ≡ option_map (λ (slow : Slowest). shares_of slow counts.now) slowest }
{
    let slowest = slowest?;
    Some(shares_of(slowest, counts))
}

/// The row of a group, where all replies took these times.
fn group_row(
    alloc: Global,
    all: &Histogram,
    slowest: Option<Slowest>,
    name: &Name,
    counts: &GroupCounts,
) -> Result<GroupRow, AnswerFault>
    ensures row { IfOk result (IsGroupRow all.now slowest (name.now, counts.now)) }
    ensures never_no_reply { result ≢ Err AnswerFault.NoReply }
{
    Ok(GroupRow {
        name: Label::of(alloc, name)?,
        traces: counts.traces,
        spans: counts.spans,
        on_path: counts.paths,
        ran: total_of(&counts.ran),
        queued: total_of(&counts.queued),
        sooner: counts.sooner,
        p99: p99_without(alloc, all, counts)?,
        shares: shares_asked(slowest, counts),
    })
}

/// The rows of groups, by name, where all replies took these times.
pub(crate) fn group_rows(
    alloc: Global,
    all: &Histogram,
    slowest: Option<Slowest>,
    groups: &Groups,
) -> Result<Vec<GroupRow>, AnswerFault>
    ensures rows { IfOk result (λ rows. AreGroupRows all.now slowest groups.now rows.items) }
    ensures never_no_reply { result ≢ Err AnswerFault.NoReply }
{
    let mut rows = Vec::new(alloc);
    for (name, counts) in groups.by_name() {
        let row = group_row(alloc, all, slowest, name, counts)?;
        rows.push(row).map_err(AllocError::from)?;
    }
    Ok(rows)
}

/// The row of what was tried.
fn try_row(alloc: Global, tried: &Tried) -> Result<TryRow, AnswerFault>
    ensures row { IfOk result (IsTryRow tried.now) }
    ensures never_no_reply { result ≢ Err AnswerFault.NoReply }
{
    Ok(TryRow {
        change: Label::of(alloc, &tried.change)?,
        replies: reply_row(&tried.replies),
    })
}

/// The rows of what was tried, in order.
pub(crate) fn try_rows(alloc: Global, tries: &[Tried]) -> Result<Vec<TryRow>, AnswerFault>
    ensures rows { IfOk result (λ rows. AllZip IsTryRow tries.now rows.items) }
    ensures never_no_reply { result ≢ Err AnswerFault.NoReply }
{
    let mut rows = Vec::new(alloc);
    for tried in tries {
        let row = try_row(alloc, tried)?;
        rows.push(row).map_err(AllocError::from)?;
    }
    Ok(rows)
}

/// The row of a failure.
fn failure_row(alloc: Global, failure: &Failure, replies: u64) -> Result<FailureRow, AnswerFault>
    ensures row { IfOk result (λ row. row ≡ failure_row (failure.now, replies)) }
    ensures never_no_reply { result ≢ Err AnswerFault.NoReply }
{
    Ok(FailureRow {
        exception: Label::of(alloc, &failure.exception)?,
        group: Label::of(alloc, &failure.group)?,
        replies,
    })
}

/// The rows of failures, by exception and then by group.
pub(crate) fn failure_rows(
    alloc: Global,
    failures: &FailureCounts,
) -> Result<Vec<FailureRow>, AnswerFault>
    ensures rows { IfOk result (λ rows. rows.items ≡ failure_rows failures.now) }
    ensures never_no_reply { result ≢ Err AnswerFault.NoReply }
{
    let mut rows = Vec::new(alloc);
    for (failure, replies) in failures.by_failure() {
        let row = failure_row(alloc, failure, *replies)?;
        rows.push(row).map_err(AllocError::from)?;
    }
    Ok(rows)
}
