//! Where text is written to and read from: a sink and a source, each of which counts its failures.
//!
//! `Writes` of `specs/Writes.antt` is what a call wrote of a text that nothing but a failed write or a lack of memory can
//! cut short. [`CountedWriter`] and [`CountedReader`] make a sink and a source of any writer and any reader of std.
#![tactic(auto)]

mod sink;
mod source;
mod stopped;

pub use sink::{CountedWriter, Sink, WriteFault};
pub use source::{CountedReader, ReadFault, Source};
pub use stopped::Stopped;
