//! Changes as words of a command line: `stock-south runs=50% gives=1` assigns to one stage what it is to be.
//!
//! A [`Change`] is read from a word, of which each part after the stage's name is an [`Assignment`]. [`edits_of`] makes the
//! list of edits that several changes are of a graph, each of the graph as the former ones leave it.
#![tactic(auto)]

mod amount;
mod assignment;
mod change;
mod fault;
mod key;
mod making;
mod number;
mod own_edits;
mod reading;
mod timeouts;

pub use amount::{Amount, Percent};
pub use assignment::{Assignment, TimeLimit};
pub use change::Change;
pub use fault::{MakingFault, Misread, ReadFault, Wrong};
pub use key::{KEYS, Key};
pub use making::edits_of;
pub use number::value_of;
