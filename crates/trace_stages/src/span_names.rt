//! The names of spans' stages.
//!
//! `names` answers the name of each span's stage, as the definition of that name says; no two of them are one.

mod base;
mod laws;
mod naming;
mod numbers;
mod words;

pub use laws::names_are_apart;
pub use naming::names;
