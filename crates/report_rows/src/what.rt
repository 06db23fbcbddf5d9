//! Which report is requested.
use crate::arisen::Arisen;

/// A report of a version.
#[derive(Clone, Copy, Debug, PartialEq, Eq)]
pub enum What {
    /// Each live stage: its operation, rank and state.
    All,
    /// The stage at a place, the names of its feeds and dependents, and the answer of `join`.
    One(u32),
    /// How the stage at a place came by its exception.
    Blame(u32),
    /// Why the stage at a place completed when it did, or why it is pending.
    Path(u32),
    /// What the stage at a place was in the parent, and what it is here.
    Change(u32),
    /// Each stage that the edits touched: what it was in the parent, and what it is here.
    Changes,
    /// Each stage that completes at another moment than in the parent: how much later or earlier.
    Drift,
    /// Each live stage: when its action started, and how long it was queued and ran.
    Times,
    /// What became of each end of each stage.
    Ends,
    /// Exceptions that arose in stages: which stages each reaches, and which handle it.
    Failures(Arisen),
}
