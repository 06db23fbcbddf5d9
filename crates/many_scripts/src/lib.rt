//! Several scripts, each answered by a client of its own, whose clients share one desk.
#![tactic(auto)]

mod access;
mod answering;
mod desk_scripts;
mod events;
mod fault;
mod gathering;
mod headings;
mod lines;
mod playing;
mod seats;

pub use desk_scripts::many;
pub use fault::ManyFault;
