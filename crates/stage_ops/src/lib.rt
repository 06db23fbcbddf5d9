//! The state of one stage, from the states of its feeds: the operations, pins and ends of a completion stage.
#![tactic(auto)]

mod actions;
mod ends;
mod java;
mod joins;
mod laws;
mod meter;
mod names;
mod natural;
mod ops;
mod reason;
mod reasons;
mod sources;
mod state;
mod texts;
mod usual;

pub use java::JavaOps;
pub use joins::join;
pub use laws::{
    each_reason_accounts, earliest_completion_is_earliest, earliest_of_one,
    earliest_source_is_earliest, prompt_where_nothing_is_queued,
};
pub use meter::{Meter, Pass};
pub use ops::{Look, StageOps};
pub use reason::{Cause, Reason};
pub use state::{Done, Join, Reads, State};
