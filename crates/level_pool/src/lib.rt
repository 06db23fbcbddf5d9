//! Runners: they compute the pieces of a level, in the caller's thread or in several, and give the same
//! results as `map` over the list.
//!
//! A level is a list of numbers, such as places of stages, whose results don't depend on one another.
//! The choice of the runner changes the time that a level takes, and nothing else: the law of [`Runner::run`]
//! is one for all of them.
#![tactic(auto)]

mod fault;
mod gate;
mod one_part;
mod pool;
mod runner;
mod runners;
mod several_parts;
mod workers;

pub use fault::PoolFault;
pub use gate::{Gate, NoGate};
pub use runner::{Plan, Runner};
pub use runners::{OneThread, Pooled, Scoped};
pub use workers::Workers;
