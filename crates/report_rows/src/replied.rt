//! Whether a stage has replied.
ghost use Rattle.std.specs.Prelude.{◌≡◌};
ghost use Rattle.reply_rescue.specs.Replies.{is_by};
ghost use Rattle.report_rows.specs.Replies.{has_replied, is_value};

use crate::standing::Standing;
use act_expr::Outcome;

/// Whether an outcome is a value.
fn is_value(outcome: &Outcome) -> bool
    ensures { result ≡ is_value outcome.now }
{
    match outcome {
        Outcome::Value(_) => true,
        Outcome::Bare(_) | Outcome::Wrapped(_) => false,
    }
}

/// Whether a moment is no later than the tick, if one is given.
fn is_by(by: Option<u64>, moment: u64) -> bool
    ensures { result ≡ is_by by moment }
{
    match by {
        None => true,
        Some(last) => moment <= last,
    }
}

/// Whether what a stage is is a value that it has by the tick, if one is given.
pub fn has_replied(by: Option<u64>, standing: &Standing) -> bool
    ensures { result ≡ has_replied by standing.now }
{
    match standing {
        Standing::Absent => false,
        Standing::Pending => false,
        Standing::Completed(outcome, moment) => is_value(outcome) && is_by(by, *moment),
    }
}
