//! The rows of a version's picture: which stages have one, in which order, what each tells, and the path over them.
#![tactic(auto)]

mod about;
mod candidate;
mod chosen;
mod course;
mod drawing;
mod heading;
mod left_out;
mod line;
mod room;
mod rows;
mod selection;

pub use candidate::Scope;
pub use drawing::{Drawing, drawing_of};
pub use heading::Source;
pub use left_out::LeftOut;
pub use room::Room;
pub use selection::Selection;
