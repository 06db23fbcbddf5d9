//! The stage that a change makes of a stage.
ghost use Rattle.std.specs.Prelude.{◌≡◌, IfOk};
ghost use Rattle.reply_rescue.specs.Changed.{changed};

use crate::change::Change;
use crate::ends::{with_longer_end, without_end};
use act_expr::Outcome;
use stage_graph::Stage;
use std::alloc::{AllocError, Global};

/// The stage that a change makes of a stage.
pub(crate) fn changed(alloc: Global, stage: &Stage, change: Change) -> Result<Stage, AllocError>
    ensures { IfOk result (λ made. made ≡ changed stage.now change) }
{
    let mut made = stage.again()?;
    match change {
        Change::NoTime => made.runs = 0,
        Change::NotQueued => made.queued = 0,
        // Its own moment stays.
        Change::NoFailure { value } => made.pin_result = Some(Outcome::Value(value)),
        Change::WithoutEnd { index } => made.ends = without_end(alloc, &stage.ends, index)?,
        Change::TwiceTheDelay { index } => {
            made.ends = with_longer_end(alloc, &stage.ends, index)?;
        }
    }
    Ok(made)
}
