//! What an answer says, row by row.
use crate::label::Label;
use crate::shares::Shares;
use crate::times::Times;

/// How many replies there are, how many of them failed, and how long they took, failed or not.
#[derive(Clone, Copy, Debug, PartialEq, Eq)]
pub struct ReplyRow {
    pub replies: u64,
    pub failed: u64,
    pub times: Times,
}

/// What a group came to.
#[derive(Drop)]
pub struct GroupRow {
    pub name: Label,
    /// In how many traces it is.
    pub traces: u64,
    pub spans: u64,
    /// On the paths of how many replies it is.
    pub on_path: u64,
    /// The ticks of paths in which it ran.
    pub ran: u64,
    /// The ticks of paths in which it was queued.
    pub queued: u64,
    /// By how many ticks in all the replies come sooner if it takes no time.
    pub sooner: u64,
    /// The p99 of all replies then.
    pub p99: Option<u64>,
    /// What it did on paths for each of the slowest replies, and of all, where that is asked for.
    pub shares: Option<Shares>,
}

/// How the replies would have come where a change was made to each span of a group.
#[derive(Drop)]
pub struct TryRow {
    /// The change, in the words that told it.
    pub change: Label,
    /// None where no reply was tried.
    pub replies: Option<ReplyRow>,
}

/// How many replies failed by one exception that arose in one group.
#[derive(Drop)]
pub struct FailureRow {
    pub exception: Label,
    pub group: Label,
    pub replies: u64,
}
