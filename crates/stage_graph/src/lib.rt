//! Graphs of the stages of a recorded run: how they are loaded, and what edits make of them.
//!
//! A [`Graph`] is a list of places, each empty or with a live [`Stage`], which is fed by the stages at other
//! places. [`Graph::load`] makes one of stages with names ([`Specs`]), [`Graph::change`] and [`Graph::apply`]
//! make another of a list of [`Edits`]. All of them make each check in one order, and the first that fails
//! refuses the whole ([`Refusal`]). A graph is persistent: an edited graph is a new one, which shares what
//! stays the same. Contracts see a graph as the plain list of its places.
#![tactic(auto)]

mod change;
mod checks;
mod cycle;
mod edit;
mod edits;
mod end;
mod fault;
mod graph;
mod list_hasher;
mod load;
mod name;
mod name_table;
mod name_tree;
mod op;
mod order;
mod places;
mod reach;
mod representation;
mod same;
mod same_edits;
mod settle;
mod stage;
mod stage_edits;

pub use edit::{Edit, Edits};
pub use end::{Act, End, Ends};
pub use fault::{Fault, ListSize, NoStage, Refusal, Refused};
pub use graph::Graph;
pub use name::{Name, NameList};
pub use op::Op;
pub use order::ranked_order;
pub use places::Places;
pub use representation::{InFlat, InShared, Representation};
pub use stage::{Spec, Specs, Stage};
