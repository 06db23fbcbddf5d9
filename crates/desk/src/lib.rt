//! A table that several clients in several threads share.
#![tactic(auto)]

mod client;
mod close;
mod desk;
mod fault;
mod front;
mod known;
mod name;
mod publishing;
mod shared;
mod shelf;
mod starting;

pub use client::Client;
pub use close::Log;
pub use desk::Desk;
pub use fault::{CloseFault, EditFault, ReadFault};
pub use front::NewArchive;
pub use known::Known;
pub use name::Naming;
pub use starting::start;
