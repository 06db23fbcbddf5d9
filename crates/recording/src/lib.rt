//! Recordings and the steps of scripts, read from JSON.
//!
//! `read_recording` gives the graph of a recording, `read_labelled` what its labels tell beside it, and `StepReader` the
//! steps on the lines of a script. Each returns the first fault, in the order of the members: the definitions `named` and
//! `step_of` say which one.
#![tactic(auto)]

mod edits;
mod expression;
mod fault;
mod forms;
mod from_json;
mod items;
mod labels;
mod law;
mod member;
mod object;
mod parse;
mod recording;
mod stage;
mod stage_members;
mod step;
mod unread;

pub use fault::Fault;
pub use labels::Told;
pub use law::{each_expression_is_read_back, each_recording_is_read_back, each_step_is_read_back};
pub use member::Member;
pub use recording::{read_labelled, read_recording};
pub use step::{Asked, Step, StepReader, Subject, read_step};
