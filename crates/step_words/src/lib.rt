//! Steps as words of a line: `why reply` asks why the stage `reply` completed when it did, and `set stock runs=50%` changes one.
//!
//! [`spoken_of`] says what a line says to the session of number 1, where the graph is that of the version at which this stands:
//! steps of a script, or what no step is, as a trial or help. The definition of the same name says which.
#![tactic(auto)]

mod changing;
mod command;
mod cutting;
mod mistake;
mod names;
mod number;
mod speaking;
mod spoken;

pub use changing::{change_in, edits_in};
pub use command::{COMMANDS, Command};
pub use cutting::cut;
pub use mistake::Mistake;
pub use names::{Like, names_like, stage_in};
pub use number::number_in;
pub use speaking::{is_json, spoken_of};
pub use spoken::{SESSION, Spoken, Steps};
