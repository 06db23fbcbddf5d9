//! Which single change of a stage would have saved a reply: would have made a target complete with a value, by a tick if
//! one is given. They are found by trials, all of which start from the same states.
#![tactic(auto)]

mod change;
mod changed;
mod changes;
mod ends;
mod failure;
mod laws;
mod reply;
mod rescue;
mod rescues;
mod trials;

pub use change::Change;
pub use ends::twice;
pub use laws::each_keeps_its_moment;
pub use rescue::{Rescue, Rescues};
pub use rescues::rescues_of;
