//! What is asked for by a report of rescues.
use act_expr::Value;

/// What counts as a rescue, and how many are told.
#[derive(Clone, Copy, Debug, PartialEq, Eq)]
pub struct RescueTerms {
    /// The tick by which there is to be a value, if one is given.
    pub by: Option<u64>,
    /// The value with which a stage completes whose exception did not arise.
    pub value: Value,
    /// The most rescues that have a row.
    pub most: Option<usize>,
}
