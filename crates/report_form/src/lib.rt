//! Reports of a version in the form that is asked for: text for people, or JSON for programs.
#![tactic(auto)]

mod form;
mod telling;

pub use form::{Form, Format};
pub use telling::{
    tell_comparison, tell_differences, tell_report, tell_rescue, tell_slack, tell_sweep,
};
