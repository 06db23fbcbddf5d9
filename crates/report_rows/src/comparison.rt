//! Which report of two versions is requested.

/// A report that compares a version with another one, stage by stage of the same name.
#[derive(Clone, Copy, Debug, PartialEq, Eq)]
pub enum Comparison {
    /// Each stage that differs in outcome, moment or blamed stage: what it is there, and what it is here.
    Changes,
    /// Each stage that completes at another moment than there: how much later or earlier.
    Drift,
}
