//! What one part of a change assigns.
use crate::amount::Amount;
use act_expr::Outcome;

/// How long a stage's timeout ends are to wait.
#[derive(Clone, Copy, Debug, PartialEq, Eq)]
pub enum TimeLimit {
    /// There is one, and it is to wait so many ticks.
    Delay(u64),
    /// There is to be none.
    Unlimited,
}

/// What is assigned to a stage.
#[derive(Clone, Copy, Debug)]
pub enum Assignment {
    /// How long its action waits in a queue.
    Queued(Amount),
    /// How long its action runs.
    Runs(Amount),
    /// What it computes.
    Outcome(Outcome),
    /// The tick at which it has computed that.
    Moment(u64),
    /// How long its timeouts wait.
    Limit(TimeLimit),
}
