//! Change propagation: exactly the stages that an edit can reach, once each.
#![tactic(auto)]

mod completions;
mod kept;
mod levels;
mod patched;
mod readers;
mod reads;
mod representation;
mod spread;
mod states;
mod telling;
mod writing;

pub use kept::KeptState;
pub use patched::{Old, Patched, propagate};
pub use reads::has_read;
pub use representation::StateRepresentation;
pub use states::States;
