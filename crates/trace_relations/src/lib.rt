//! How the spans of a trace stand to each other: their clocks and ticks, their parents and hosts, what waits for what, which
//! calls were tried again, and which were given up.
//!
//! `relations_of` answers it for the spans of one trace, or the first fault, as the definition `AreRelations` says.
#![tactic(auto)]

mod ancestry;
mod as_told;
mod attempts;
mod call_groups;
mod calls;
mod circles;
mod clocks;
mod fault;
mod free_places;
mod given_up;
mod group_keys;
mod grouping;
mod hosts;
mod key;
mod late_ends;
mod met;
mod moment;
mod places;
mod placing;
mod references;
mod relations;
mod set_at;
mod starts;
mod ticks;
mod times;
mod unit;
mod waits;

pub use as_told::AsTold;
pub use attempts::Attempts;
pub use fault::{Late, RelationsFault, SpanName};
pub use hosts::Host;
pub use late_ends::LateEnd;
pub use moment::{Interval, Moment, Turn};
pub use placing::Moved;
pub use references::References;
pub use relations::{Relations, relations_of};
pub use unit::Unit;
