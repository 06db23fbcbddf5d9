//! What is reported of a recording as it is, of version 0 of its graph; or of two recordings.
#![tactic(auto)]

mod all;
mod fault;
mod pair;
mod pair_fault;
mod stage;

pub use all::{WholeReport, report_all};
pub use fault::RecordingFault;
pub use pair::{compare_recordings, tell_pair};
pub use pair_fault::{PairFault, Which};
pub use stage::{StageReport, report_stage, tell_stage};
