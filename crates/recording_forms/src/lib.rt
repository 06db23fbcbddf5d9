//! Recordings to begin with: one whose stages each say what they are, and the forms of code that `docs/MODELLING.md` writes down.
//!
//! Each is a file of `examples/`, byte for byte.
#![tactic(auto)]

mod form;
mod texts;

pub use form::{FORM_NAMES, Form};
