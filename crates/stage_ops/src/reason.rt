//! The reason of a stage's state.

/// Why a stage completed when it did, or why it is pending.
#[derive(Clone, Copy, Debug, PartialEq, Eq)]
pub enum Cause {
    /// Its creation was its trigger.
    Created,
    /// Its trigger was the completion of the source at this place.
    After(u32),
    /// It took the outcome of the stage at this place, which its function picked and which completed after the function's end.
    Inner(u32),
    /// Its moment is pinned.
    Pinned,
    /// The end of this index completed it.
    Ended(usize),
    /// It is pending because the feed at this place is pending.
    Waiting(u32),
    /// It is pending, and waits for no feed.
    Open,
}

/// The reason of a stage's state: its cause, and how many ticks its own action was queued and ran since then; none where
/// the action did not run, and where the cause came after it.
#[derive(Clone, Copy, Debug, PartialEq, Eq)]
pub struct Reason {
    pub cause: Cause,
    pub queued: u64,
    pub ran: u64,
}
