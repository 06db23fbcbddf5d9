//! What is taken as a trace tells it.

/// What is taken as a trace tells it, with nothing inferred.
#[derive(Clone, Copy, PartialEq, Eq, Debug)]
pub struct AsTold {
    /// Clocks are not moved, and no end is taken to be a caller's.
    pub clocks: bool,
    /// No call is taken to have been tried again or given up, and no failure handed on that has another name.
    pub calls: bool,
}
