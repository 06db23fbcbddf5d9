//! In which stages two runs differ: two versions of one endpoint, say, whose stages are matched by their names. A stage of both
//! is told of where it is on the path of the stage that they are compared for, in either of them, and where its own share of the
//! time or what it came to differs; a stage of one alone always is.
#![tactic(auto)]

mod difference;
mod differences;
mod path_flags;
mod share;

pub use difference::{Difference, Stands};
pub use differences::differences_of;
pub use share::Share;
