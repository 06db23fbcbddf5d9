//! The slack of a stage.

/// How many ticks longer the action of a stage may run before the target completes otherwise.
#[derive(Clone, Copy, Debug, PartialEq, Eq)]
pub struct Slack {
    /// The place of the stage.
    pub place: u32,
    /// The ticks: with one more the target completes otherwise. None where it doesn't with any that a recording may say.
    pub ticks: Option<u64>,
    /// The tick at which the action started.
    pub start: u64,
}
