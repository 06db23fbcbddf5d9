//! Why the reports of two recordings were not written to their end.

use recording::Fault;

/// One of two recordings.
#[derive(Clone, Copy, Debug, PartialEq, Eq)]
pub enum Which {
    Good,
    Bad,
}

/// Why the reports of two recordings were not written to their end.
#[derive(Debug, Drop)]
pub enum PairFault {
    /// The recording is refused, or memory ran out before the reports began; nothing was written.
    Refused(Which, Fault),
    /// The recording has no stage of the name; nothing was written.
    NoStage(Which),
    /// A write failed, or took nothing.
    Write,
    /// Memory ran out while the reports were written.
    Memory,
}
