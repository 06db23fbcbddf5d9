//! What is asked of an import.
use trace_relations::{AsTold, Unit};

/// How the spans of a trace are mapped to stages.
#[derive(Clone, Copy, PartialEq, Eq, Debug)]
pub struct Mapping {
    /// The unit of ticks.
    pub unit: Unit,
    pub as_told: AsTold,
}

/// What is asked of an import.
#[derive(Clone, Copy, PartialEq, Eq, Debug)]
pub struct Options<'a> {
    /// The id of the trace, or a beginning of it that no other has, of several.
    pub trace: Option<&'a str>,
    pub mapping: Mapping,
}
