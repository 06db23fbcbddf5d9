//! What became of the ends that are set from outside: which of them completed its stage, whether it cut the stage's own
//! action off, and how long after the completion each other one acts.
#![tactic(auto)]

mod completed;
mod ends;
mod fate;

pub use ends::ends_of;
pub use fate::{EndFate, Fate};
