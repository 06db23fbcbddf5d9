//! The changes that would have saved a reply.

use crate::change::Change;
use act_expr::Value;

/// A change by which the target would have had a value in time.
#[derive(Clone, Copy, Debug, PartialEq, Eq)]
pub struct Rescue {
    /// The place of the stage that is changed.
    pub place: u32,
    pub change: Change,
    /// The value that the target would have.
    pub value: Value,
    /// The tick at which it would have it.
    pub moment: u64,
}

/// What the trials found.
#[derive(Drop)]
pub struct Rescues {
    /// How many trials there were.
    pub tried: usize,
    /// The changes by which the target would have had a value in time.
    pub saved: Vec<Rescue>,
}
