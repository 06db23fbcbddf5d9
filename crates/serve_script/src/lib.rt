//! A script of steps, answered: what each line names is done, and its reply or report is written, as text or as JSON.
//!
//! [`serve`] answers a whole script. The definition `answers` says which bytes it writes. [`serve_last`] does the same for a
//! program that ends then, and [`play`] gives the version that the script made last too, [`serve_table`] all of them. A
//! [`Server`] answers one step after the other, for a caller that has them by itself.
#![tactic(auto)]

mod asking;
mod fault;
mod reply;
mod server;
mod serving;
mod telling;
mod values;

pub use asking::{against_in, write_asked};
pub use fault::{AnswerFault, ServeFault};
pub use server::Server;
pub use serving::{play, serve, serve_last, serve_table};
pub use telling::{tell_fault, tell_no_version, tell_reply};
