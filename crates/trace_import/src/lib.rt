//! Recordings made from traces.
//!
//! `import` writes the recording that the spans of a trace make: what waited for what is inferred from the times inside
//! each parent, and each span's stage ends when the span did. The definition `IsImported` says what it writes. What was
//! guessed on the way is answered. `import_each` does so for each trace of a file, and `trace_recording` gives the recording with
//! the stages that it is made of.
#![tactic(auto)]

mod actions;
mod clock_labels;
mod each;
mod fault;
mod imported_stage;
mod importing;
mod note;
mod notes;
mod options;
mod reading;
mod recorded;
mod stage_names;
mod text;
mod texts;
mod traced;

pub use each::{Outcome, import_each};
pub use fault::ImportFault;
pub use importing::import;
pub use note::{Attempt, GivenUp, LateCall, MovedClock, Note, NoteKind, Outliving};
pub use options::{Mapping, Options};
pub use reading::Reading;
pub use trace_relations::{AsTold, Unit};
pub use traced::{TraceRecording, trace_recording};
