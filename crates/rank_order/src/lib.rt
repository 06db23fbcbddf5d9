//! The ranks of a graph's places and the dependents of each, kept up to date while the graph is edited.
//!
//! [`Order::build`] makes the order of a ranked graph in one pass over its stages. [`Order::patch`] makes the
//! order of an edited graph from the one before: it removes the moved stages and puts them back one by one, ranks
//! the stages above them again, finds the cycle that the edits close if they close one, and gives what `build`
//! would give for the edited graph.
//! An order is persistent: a patched one is a new one, which shares what stays the same.
//!
//! [`Marks`] are the places that a pass over a graph has still to process, taken in the order of their ranks, one by one
//! or a whole rank at a time.
#![tactic(auto)]

mod among;
mod build;
mod dependent_lists;
mod fault;
mod lists;
mod marks;
mod order;
mod patch;
mod place_set;
mod ranks;
mod representation;
mod rewire;
mod settle;

pub use among::is_among;
pub use fault::PatchFault;
pub use marks::Marks;
pub use order::Order;
pub use representation::OrderRepresentation;
