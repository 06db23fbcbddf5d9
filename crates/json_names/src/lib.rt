//! Names in JSON: which of several is nearest to a mistaken one, which members of an object nothing reads, and which stages
//! wait for each other. What people are told of a mistake rests on these.
#![tactic(auto)]

mod circle;
mod likeness;
mod members;

pub use circle::{Circle, circle_of};
pub use likeness::nearest;
pub use members::{is_among, is_label, items_of, name_of, unread_members};
