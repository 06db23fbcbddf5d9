//! The command line: what the program can be told to do, as types, and the words and the help of it.
#![tactic(auto)]

mod argument;
mod command;
mod fleet;
mod input;
mod manner;
mod names;
mod parsing;
mod percent;
mod picture;
mod printed;
mod scripts;
mod subcommand;
mod subcommand_words;
mod sweep;
mod traces;
mod trial;
mod words;

pub use command::{Command, CommandLine};
pub use fleet::{Counting, Fleet, Held, Told, grouped_by};
pub use input::Input;
pub use manner::{Format, Manner};
pub use parsing::{WordsFault, parsed, without_help_of_help};
pub use picture::{Picture, PictureFormat, PlayedVersion, Rows, Ticks};
pub use printed::Printed;
pub use scripts::Scripts;
pub use subcommand_words::VERSION;
pub use sweep::{Ending, Part, Sweep};
pub use traces::{Mapping, Reading, Unit, Wanted};
pub use trial::{Asked, Trial};
