//! Reports of a version as text, written to a sink a line at a time.
#![tactic(auto)]

mod changes;
mod digits;
mod haste;
mod heads;
mod names;
mod reporting;
mod rows;
mod words;
mod writing;

pub use reporting::{
    compare, report, report_differences, report_rescue, report_slack, report_sweep,
};
