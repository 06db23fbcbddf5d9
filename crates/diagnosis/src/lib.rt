//! What a person is told of a mistaken recording or step: where the mistake stands, and what would do.
//!
//! It reads a recording or a step once more, by the rules of the formats, and finds each fault and each member that
//! nothing reads. What is answered does not rest on it.
#![tactic(auto)]

mod action;
mod beginning;
mod exception;
mod finding;
mod findings;
mod foreign;
mod glance;
mod items;
mod known;
mod lines;
mod members;
mod met;
mod names;
mod one_stage;
mod operation;
mod outline;
mod passing;
mod quoted;
mod reading;
mod recording;
mod refused_step;
mod repeated;
mod scanner;
mod site;
mod stage;
mod stage_checks;
mod stages;
mod step;
mod step_glance;
mod step_members;
mod syntax;
mod trace;
mod unread;
mod walk;
mod wanted;
mod written_names;

pub use beginning::{Beginning, beginning_of};
pub use finding::{Finding, Found, ShapeFault, StageFault};
pub use findings::Findings;
pub use foreign::Foreign;
pub use glance::{Glimpse, examine_glimpse, glance_at};
pub use known::KnownStages;
pub use lines::{Lined, line_of_stage, lines_of, with_line};
pub use one_stage::{StageAt, first_wrong_stage, stage_at};
pub use quoted::{Quoted, is_hidden};
pub use reading::read_again;
pub use recording::{examine_recording, nearest_stage};
pub use refused_step::{AskedStep, Refusal, RefusedStep, asked_step, explain_step};
pub use site::{Path, Site};
pub use step::examine_step;
pub use step_glance::may_step_be_unread;
pub use syntax::{Expected, JsonFault, Unmet, json_fault};
pub use trace::{TraceLike, trace_like};
pub use unread::{Unread, Warning};
pub use wanted::Wanted;
