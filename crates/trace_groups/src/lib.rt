//! The groups of a trace's spans, by names or by services, and of the stages that an import makes of these spans; and which of the
//! stages is the reply of the trace.
#![tactic(auto)]

mod group_names;
mod grouping;
mod reply;

pub use grouping::trace_grouping;
pub use reply::{reply_place, replying_span};
