//! How many ticks longer the action of each stage may run before a target completes otherwise, with another outcome or at
//! another moment. They are found by trials, all of which start from the same states.
#![tactic(auto)]

mod agreement;
mod search;
mod slack;
mod slacks;
mod stays;

pub use slack::Slack;
pub use slacks::slacks_of;
