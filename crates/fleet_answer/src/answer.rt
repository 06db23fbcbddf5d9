//! What is answered of a summary.
use crate::rows::{FailureRow, GroupRow, ReplyRow, TryRow};
use crate::shares::Slowest;

/// What is answered of a summary.
#[derive(Drop)]
pub struct Answer {
    pub replies: ReplyRow,
    /// The groups, the largest gain first, and those of one gain by name.
    pub groups: Vec<GroupRow>,
    /// What was tried, in the order in which it was asked for.
    pub tries: Vec<TryRow>,
    /// Which replies are the slowest, where that is asked for.
    pub slowest: Option<Slowest>,
    /// The failures, by exception and then by group.
    pub failures: Vec<FailureRow>,
}
