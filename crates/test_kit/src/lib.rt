//! What the crates of tests share: recordings, and readers and writers that give or take little at a time, are interrupted, and
//! fail.
#![tactic(auto)]

mod slow_reader;
mod slow_writer;
mod texts;

pub use slow_reader::SlowReader;
pub use slow_writer::SlowWriter;
pub use texts::{CHAIN, COMPOSE_PICKS, FIRST_RUN, REWIRE_A, REWIRED};
