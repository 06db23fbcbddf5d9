//! The exceptions that arose in the stages of a version: which other stages each one reached, and which have read it and do not hold it.
#![tactic(auto)]

mod failure;
mod gathering;
mod lists;
mod origins;

pub use failure::Failure;
pub use gathering::failures_of;
