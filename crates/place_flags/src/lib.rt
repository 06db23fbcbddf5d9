//! Flags of places: for each of so many places whether it is among some of them, which is then asked of many.
#![tactic(auto)]

mod flags;

pub use flags::{flags_of, is_flagged};
