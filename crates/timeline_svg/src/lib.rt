//! The picture of a timeline: rows of plain values to the text of an SVG file, with no script in it.
#![tactic(auto)]

mod bands;
mod escape;
mod frame;
mod picture;
mod row;
mod rows;
mod span;
mod trail;
mod window;

pub use escape::push_escaped;
pub use picture::{Heading, timeline_svg};
pub use row::{Course, Row, Run, service_of};
pub use window::Window;
