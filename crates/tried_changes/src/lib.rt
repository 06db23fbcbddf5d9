//! What would come of changes of a version: the version that they make, and what is told of it.
//!
//! [`tried`] makes all changes together, as one list of edits, and [`tried_in_turn`] any number of them one after the other. [`tell_trial`] tells what became of a stage, of the others, and
//! why; and [`last_stage`] is the stage that is told of where none is named.
#![tactic(auto)]

mod in_turn;
mod last;
mod telling;
mod trying;

pub use in_turn::tried_in_turn;
pub use last::last_stage;
pub use telling::tell_trial;
pub use trying::tried;
