//! The lines of a script: how they are assembled from the bytes that are read.
#![tactic(auto)]

mod fault;
mod line;
mod line_reader;
mod partial_line;

pub use fault::LineFault;
pub use line::Line;
pub use line_reader::{AT_ONCE, LineReader};
pub use partial_line::{PartialLine, split_line};
