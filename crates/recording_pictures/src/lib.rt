//! The picture of a recording: of version 0 of its graph, or of another version of it.
#![tactic(auto)]

mod asked;
mod drawing;
mod text;

pub use asked::{Asked, Form, Layout, scope_named};
pub use drawing::{draw_recording, draw_version};
