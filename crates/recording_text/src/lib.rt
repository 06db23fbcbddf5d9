//! The text of a recording of form 2 that a graph is, or that stages with labels are: a stage a line.
#![tactic(auto)]

mod expression;
mod fault;
mod label;
mod labelled;
mod line;
mod members;
mod report;
mod stage;
mod writing;

pub use fault::TextFault;
pub use label::{Head, Label, LabelGroup};
pub use labelled::LabelledText;
pub use report::{write_report_lines, write_report_object};
pub use text_io::{CountedWriter, Sink, WriteFault};
pub use writing::write_recording;
