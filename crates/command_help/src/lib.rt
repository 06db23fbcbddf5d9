//! What is said in place of an answer: help, the version, or what is wrong with the command line.
#![tactic(auto)]

mod telling;

pub use telling::{ToldFault, told};
