//! What is told of a stage of two runs.

/// Which of two runs have a stage, and where it stands in them.
#[derive(Clone, Copy, Debug, PartialEq, Eq)]
pub enum Stands {
    /// Both do.
    Both { good: u32, bad: u32 },
    /// The bad one alone.
    OnlyBad(u32),
    /// The good one alone.
    OnlyGood(u32),
}

/// A stage in which two runs differ, or on which one of them has waited.
#[derive(Clone, Copy, Debug, PartialEq, Eq)]
pub struct Difference {
    /// Where it stands.
    pub stands: Stands,
    /// By which it stands among others: the less, the more ticks its share of the time differs by in all. That of a stage of one
    /// run alone is greater than that of a stage of both, and greatest for those of the good one.
    pub order: u128,
}
