//! The stages of the spans of a trace, in order, and their names.
//!
//! `stages_of` answers the stages of the recording of spans, as the definition `stages_by` says, and `names` the name of
//! each span's stage.
#![tactic(auto)]

mod attempts;
mod beginnings;
mod bounds;
mod failures;
mod fates;
mod handed_on;
mod known;
mod naming;
mod order;
mod outcomes;
mod places;
mod scene;
mod span_names;
mod stage;
mod stages;
mod tour;
mod two_stages;
mod walk;
mod works;

pub use span_names::{names, names_are_apart};
pub use stage::{Action, Exception, ImportedStage, Op, StageName, Stages};
pub use stages::stages_of;
pub use walk::StageId;
