//! Reports of a version as JSON, for programs: each is one object, on a line. The texts for people are those of
//! `report_text`.
#![tactic(auto)]

mod changes;
mod haste;
mod heads;
mod line;
mod line_answers;
mod line_values;
mod lines;
mod names;
mod object;
mod reporting;
mod rows;
mod stages;
mod writing;

pub use line_answers::write_at_version;
pub use lines::write_answer;
pub use object::Object;
pub use reporting::{
    write_comparison, write_differences, write_report, write_rescue, write_slack, write_sweep,
};
