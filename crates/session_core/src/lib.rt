//! Versions, the sessions that stand at them, and the history of what was asked and answered.
#![tactic(auto)]

mod event;
mod headline;
mod machine;
mod ready;
mod refusal;
mod steps;
mod table;

pub use event::{Entry, Event, Reply};
pub use headline::every_list_of_steps;
pub use ready::Ready;
pub use refusal::{Refusal, TableFault};
pub use steps::{draft_of, run};
pub use table::Table;
