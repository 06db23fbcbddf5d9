//! A page that tells of an incident: one HTML file that stands alone, whose data is what the reports of a version say as JSON, and
//! of a script that was played what its steps were answered and what each version changed.
//!
//! [`write_page`] writes it: what comes before the data, the data, and what comes after it. In the data each `<` is written by
//! its escape, so that no text of a recording ends the element in which the data stands.
#![tactic(auto)]

mod escape;
mod frame;
mod lines;
mod members;
mod page;
mod script;
mod tables;
mod told;

pub use escape::write_escaped;
pub use frame::{Frame, Heading, Script};
pub use page::write_page;
