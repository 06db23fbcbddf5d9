//! The spans of a trace, read from OTLP/JSON, Jaeger JSON or Zipkin's.
//!
//! `read_trace` answers the spans of one trace, each that isn't a repeat, or the first fault: the definition `spans_of`
//! says which.
#![tactic(auto)]

mod aiming;
mod base64_ids;
mod choice;
mod clock;
mod exception;
mod fault;
mod format;
mod formats;
mod identifier;
mod jaeger;
mod json_text;
mod key;
mod kinds;
mod lines;
mod listing;
mod member;
mod micros;
mod misshapen;
mod object;
mod otlp;
mod placing;
mod rfc3339;
mod span;
mod strange;
mod strangers;
mod summary;
mod tags;
mod target;
mod text;
mod told;
mod trace;
mod traces;
mod why;
mod zipkin;

pub use clock::Clock;
pub use fault::Fault;
pub use identifier::compared;
pub use key::key_of;
pub use listing::{list_traces, row_json};
pub use member::Member;
pub use misshapen::{Misshapen, Place};
pub use span::{Kind, Span, Spans};
pub use strange::{Strange, StrangeKind};
pub use summary::{Summary, summary_of};
pub use target::{Aim, Attribute, Target};
pub use text::{Text, TextList};
pub use trace::{Trace, read_trace};
pub use traces::{joined_traces, read_traces};
pub use why::Why;
