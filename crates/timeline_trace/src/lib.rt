//! The rows of a timeline as trace events, which Chrome's trace viewer and Perfetto open.
#![tactic(auto)]

mod deadline;
mod event;
mod flow;
mod labels;
mod process;
mod row;
mod trace;

pub use labels::{Labels, Tick};
pub use trace::timeline_trace;
