//! What is asked of a sweep.
ghost use Rattle.std.specs.Prelude.{◌≡◌};
ghost use Rattle.report_rows.specs.Swept.{told_haste};

use time_sweep::{Haste, Part};

/// Which trials of a sweep are told.
#[derive(Clone, Copy, Debug, PartialEq, Eq)]
pub enum Ending {
    /// All.
    Any,
    /// Those alone by which the target has a value.
    Value,
}

/// What is asked of a sweep.
#[derive(Clone, Copy, Debug, PartialEq, Eq)]
pub struct SweepAsked {
    /// Which trials are made.
    pub haste: Haste,
    /// Which of them are told, and counted.
    pub ending: Ending,
    /// How many of these are told at most.
    pub most: Option<usize>,
}

impl SweepAsked {
    /// All trials of actions that are not queued and take no time.
    pub const PLAIN: SweepAsked = SweepAsked {
        haste: Haste::WHOLE,
        ending: Ending::Any,
        most: None,
    };
}

/// The haste, unless it is that of actions that are not queued and take no time.
pub(crate) fn told_haste(haste: Haste) -> Option<Haste>
    ensures { result ≡ told_haste haste }
{
    match haste.part {
        Part::Both => {
            if haste.percent == 0 {
                None
            } else {
                Some(haste)
            }
        }
        Part::Queue => Some(haste),
    }
}
