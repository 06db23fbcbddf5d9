//! What became of an end.

/// What became of an end of a stage.
#[derive(Clone, Copy, Debug, PartialEq, Eq)]
pub struct EndFate {
    /// The place of the stage.
    pub place: u32,
    /// Which of the stage's ends it is.
    pub index: usize,
    /// The tick at which it acts.
    pub moment: u64,
    /// What became of it.
    pub fate: Fate,
}

/// Whether an end completed its stage.
#[derive(Clone, Copy, Debug, PartialEq, Eq)]
pub enum Fate {
    /// It did.
    Struck,
    /// It did, while the stage's own action was queued or ran: after `ran` of the `of` ticks that it would have run.
    CutOff { ran: u64, of: u64 },
    /// It did not: a timeout that acts this many ticks after the stage completed.
    NotReached { by: u64 },
    /// It did not: a call that came this many ticks after the stage had completed.
    TooLate { by: u64 },
}
