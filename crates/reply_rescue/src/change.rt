//! The single changes of a stage that are tried.

use act_expr::Value;

/// A single change of a stage.
#[derive(Clone, Copy, Debug, PartialEq, Eq)]
pub enum Change {
    /// Its action takes no time.
    NoTime,
    /// Its action is not queued.
    NotQueued,
    /// The exception that arose in it did not: it completes with this value, at the moment at which it did.
    NoFailure { value: Value },
    /// The end of this index is taken away.
    WithoutEnd { index: usize },
    /// The timeout of this index has twice the delay, but no more than a recording may say.
    TwiceTheDelay { index: usize },
}
