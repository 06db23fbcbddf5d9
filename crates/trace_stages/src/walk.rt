//! The walk through each span: from what the spans that start in it begin, and what it has at its end.
//!
//! `holdings_of` walks through each span by the moments of the trace; `walk` goes through what happens in one. What each
//! then has is what the definition `held` says.

mod called;
mod event;
mod events;
mod holding;
mod holdings;
mod joins;
mod known;
mod moments;
mod stage_id;
mod walking;

pub(crate) use called::call_end;
pub(crate) use event::Event;
pub(crate) use holding::{Answer, Begin, Holding, OwnWork};
pub(crate) use holdings::holdings_of;
pub(crate) use joins::{Joined, JoinsOf, join_all};
pub use stage_id::StageId;
