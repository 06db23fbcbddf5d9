//! The value with which a stage completed, if it did so in time.
ghost use Rattle.std.specs.Prelude.{◌≡◌};
ghost use Rattle.reply_rescue.specs.Replies.{is_by, reply_at, reply_of};

use act_expr::{Outcome, Value};
use stage_ops::Done;

/// A value, and when it came.
#[derive(Clone, Copy)]
pub(crate) struct Reply {
    pub(crate) value: Value,
    pub(crate) moment: u64,
}

/// Whether a moment is no later than the tick, if one is given.
fn is_by(by: Option<u64>, moment: u64) -> bool
    ensures { result ≡ is_by by moment }
{
    match by {
        None => true,
        Some(last) => moment <= last,
    }
}

/// The value of an outcome, if it is one, at this moment.
fn reply_at(moment: u64, outcome: &Outcome) -> Option<Reply>
    ensures { result ≡ reply_at moment outcome.now }
{
    match outcome {
        Outcome::Value(value) => Some(Reply {
            value: *value,
            moment,
        }),
        Outcome::Bare(_) | Outcome::Wrapped(_) => None,
    }
}

/// The value of a completion, if it is one and came by the tick, if one is given.
pub(crate) fn reply_of(by: Option<u64>, done: &Option<Done>) -> Option<Reply>
    ensures { result ≡ reply_of by done.now }
{
    match done {
        Some(done) if is_by(by, done.moment) => reply_at(done.moment, &done.outcome),
        _ => None,
    }
}
