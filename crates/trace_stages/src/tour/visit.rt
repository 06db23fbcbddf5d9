//! Visits.

/// A span is entered or left.
#[derive(Clone, Copy, PartialEq, Eq, Debug)]
pub enum Visit {
    Enters(usize),
    Leaves(usize),
}
