//! The parts of a sweep. A part makes its trials one after the other, over one list of changes.
ghost use Rattle.std.specs.Prelude.{◌≡◌, ◌<◌, ◌≤◌};
ghost use Rattle.time_sweep.specs.Tried.{part_of};

use crate::haste::Haste;
use crate::trial_start::TrialStart;

/// What all parts of a sweep start from.
#[derive(Drop)]
pub(crate) struct Parts<'a> {
    pub(crate) start: TrialStart<'a>,
    /// The places at which trials are made.
    pub(crate) places: Vec<u32>,
    /// How many of them a part has.
    pub(crate) size: usize,
    /// How much faster the action of each trial is.
    pub(crate) haste: Haste,
}

/// The places whose trials are made at the trial of this number: at the first trial of a part those of the part, which are
/// at most this many, and at each other one none.
pub(crate) fn part_of(places: &[u32], size: usize, number: u32) -> &[u32]
    requires some { 0 < size }
    requires size { size ≤ 65536 }
    ensures { result.now ≡ part_of places.now size number }
{
    let number = number as usize;
    if number % size != 0 {
        return &places[..0];
    }
    let start = number.min(places.len());
    let end = (start + size).min(places.len());
    &places[start..end]
}

/// How many trials a part has, of this many in all. A part makes one list for them, as long as the graph: so there are at
/// most 63 parts. But where there are 32 trials there are as many parts, which are enough for all workers, and of fewer
/// trials each is a part of its own.
pub(crate) fn size_of_parts(count: usize) -> usize
    requires { count ≤ 65536 }
    ensures some { 0 < result }
    ensures most { result ≤ 65536 }
{
    (count / 32).max(1)
}
