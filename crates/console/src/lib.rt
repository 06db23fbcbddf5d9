//! What stands between the program and people: the recording that is named, the reasons why the program ends early, what
//! is said on standard error, and what `check` prints.
#![tactic(auto)]

mod changes;
mod checking;
mod explaining;
mod fault;
mod file_name;
mod fleet_telling;
mod guesses;
mod importing;
mod importing_each;
mod input;
mod json_refusal;
mod keeping;
mod kept_script;
mod last_stage;
mod listening;
mod not_made;
mod option_value;
mod reasons;
mod remembering;
mod scripts_opening;
mod scripts_telling;
mod shown;
mod step_telling;
mod unmade_changes;
mod voice;

pub use changes::{changes_of, group_change_of};
pub use checking::run_check;
pub use explaining::{warn, why_no_stage, with_explanation};
pub use fault::Fault;
pub use file_name::FileName;
pub use fleet_telling::{
    TraceAt, left_out, left_out_recording, left_out_without_reply, not_tried, tell_missing_group,
    traces_of,
};
pub use importing::{imported, listed};
pub use importing_each::imported_each;
pub use input::{
    Named, file, graph, labelled_graph, opened, recording, script, trace, why_read_again,
    why_read_twice,
};
pub use json_refusal::fault_line;
pub use keeping::KeepingSink;
pub use kept_script::{KeepingReader, KeptScript, with_unread_script};
pub use last_stage::{tell_last_stage, why_no_last_stage};
pub use listening::{ListeningSink, ListeningSource, Watch};
pub use option_value::value_in;
pub use reasons::reason_of;
pub use remembering::{Output, Remembering, flushed, output, with_read_reason, with_reason};
pub use scripts_opening::{opened_scripts, unread_scripts};
pub use scripts_telling::explained;
pub use step_telling::StepTeller;
pub use unmade_changes::why_not_made;
pub use voice::Voice;
