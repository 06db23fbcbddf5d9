//! What a stage was in the version's parent.
use act_expr::Outcome;

/// What a stage was in the version's parent.
#[derive(Clone, Copy, Debug, PartialEq, Eq)]
pub enum Before {
    /// It was not there, or the version has no parent.
    Absent,
    Pending,
    /// What it held, and the tick of its completion.
    Done(Outcome, u64),
}
