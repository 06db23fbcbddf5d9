//! Versions of a graph, and drafts of them.
//!
//! A [`Version`] is a graph under its number, with the rank, the dependents and the state of each of its stages.
//! [`Version::load`] evaluates the graph from scratch. [`Version::draft`] applies a list of edits and computes only
//! the stages that they can reach; [`Draft::numbered`] makes a version of the draft. A version shares with its
//! parent what the edits don't change, and answers as if its graph had been evaluated from scratch.
//! [`Version::stage`] looks a stage up, and its [`StageView`] answers what is asked of it.
#![tactic(auto)]

mod before;
mod blame;
mod draft;
mod drafting;
mod evaluated;
mod origin;
mod path;
mod version;
mod view;

pub use before::Before;
pub use draft::Draft;
pub use propagate::{KeptState, StateRepresentation};
pub use scratch_eval::QueryFault;
pub use stage_graph::NoStage;
pub use version::Version;
pub use view::StageView;
