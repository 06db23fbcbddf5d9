//! Tests of scripts at once, through the libraries' public calls alone: what is printed for scripts whose clients share a desk.
//!
//! There is nothing here but tests. They stand apart from `library_tests`, since these need no script at once, and so are proved
//! beside the crate that plays them.
#![tactic(auto)]

#[cfg(test)]
mod at_once;
#[cfg(test)]
mod turns;
