//! What a summary answers.
ghost use Rattle.std.specs.Prelude.{◌≡◌, ◌≢◌, ◌↔◌, [], Err, IfOk};
ghost use Rattle.fleet_answer.specs.declared.fault.AnswerFault.{AnswerFault};
ghost use Rattle.fleet_answer.specs.Answers.{AreSlowestAsked, IsAnswerOf};
ghost use Rattle.fleet_answer.specs.Rows.{AreRankedRows};

use crate::answer::Answer;
use crate::fault::AnswerFault;
use crate::ranking::by_gain;
use crate::row_making::{failure_rows, group_rows, reply_row, try_rows};
use crate::rows::GroupRow;
use crate::shares::{Slowest, slowest_of};
use crate::tried::Tried;
use fleet_summary::{Groups, Histogram, Summary};
use std::alloc::Global;

/// Which replies are the slowest, where that is asked for.
fn slowest_asked(percent: Option<u8>, summary: &Summary) -> Option<Slowest>
    ensures { AreSlowestAsked percent summary.now result }
{
    let percent = percent?;
    slowest_of(percent, &summary.replies.times)
}

/// The rows of groups, the largest gain first, and those of one gain by name.
fn ranked_rows(
    alloc: Global,
    all: &Histogram,
    slowest: Option<Slowest>,
    groups: &Groups,
) -> Result<Vec<GroupRow>, AnswerFault>
    ensures rows { IfOk result (λ rows. AreRankedRows all.now slowest groups.now rows.items) }
    ensures never_no_reply { result ≢ Err AnswerFault.NoReply }
{
    let by_name = group_rows(alloc, all, slowest, groups)?;
    Ok(by_gain(by_name)?)
}

/// What a summary answers, and what its traces' replies would have come to where something was changed: also of so many hundredths of
/// the replies, the slowest, where they are asked for.
///
/// Errors: `NoReply` where there is none; `NotText` where a name is not UTF-8; `Memory`.
pub fn answer_of(
    alloc: Global,
    summary: &Summary,
    tries: &[Tried],
    slowest: Option<u8>,
) -> Result<Answer, AnswerFault>
    ensures answer { IfOk result (IsAnswerOf summary.now tries.now slowest) }
    ensures no_reply { (result ≡ Err AnswerFault.NoReply) ↔ (summary.now.replies.times ≡ []) }
{
    let Some(replies) = reply_row(&summary.replies) else {
        return Err(AnswerFault::NoReply);
    };
    let slowest = slowest_asked(slowest, summary);
    let all = &summary.replies.times;
    let groups = ranked_rows(alloc, all, slowest, &summary.groups)?;
    let tries = try_rows(alloc, tries)?;
    let failures = failure_rows(alloc, &summary.failures)?;
    Ok(Answer {
        replies,
        groups,
        tries,
        slowest,
        failures,
    })
}
