//! What `report`, `explain`, `sweep`, `slack`, `rescue`, `ends`, `failures`, `try`, `compare`, `draw`, `page`, `serve`, `export`, `import`, `fleet` and `new` do: from
//! what their words ask for to what is printed.
//!
//! It stands on the crates that answer (`recording_reports`, `tried_changes`, `recording_pictures`, `incident_page`, `serve_script`, `recording_text`,
//! `trace_spans`, `trace_import`, `fleet_replies`, `fleet_summary`, `fleet_text`, `fleet_answer`, `recording_forms`) and on `console`, by which people are told of mistakes. A command's own steps belong here; what it
//! answers belongs to the crate that it calls.
#![tactic(auto)]

mod beginning;
mod comparing;
mod draw;
mod drawing_trial;
mod export;
mod fault;
mod fleet;
mod fleet_counted_recordings;
mod fleet_counted_traces;
mod fleet_counter;
mod fleet_counts;
mod fleet_files;
mod fleet_index;
mod fleet_joining;
mod fleet_lines;
mod fleet_night;
mod fleet_pieces;
mod fleet_recording;
mod fleet_told;
mod format;
mod importing;
mod naming;
mod paging;
mod place;
mod played;
mod printing;
mod refusing;
mod report;
mod rescuing;
mod serve;
mod sweeping;
mod trying;

pub use beginning::run_new;
pub use comparing::run_compare;
pub use draw::run_draw;
pub use export::run_export;
pub use fleet::run_fleet;
pub use format::format_of;
pub use importing::run_import;
pub use paging::run_page;
pub use refusing::refuse;
pub use report::{run_report, run_report_stage};
pub use rescuing::{RescueWords, run_rescue};
pub use serve::run_serve;
pub use sweeping::swept_as;
pub use trying::run_try;
