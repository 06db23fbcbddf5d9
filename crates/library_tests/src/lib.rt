//! Tests of the libraries, through their public calls alone: of expressions, lists that share, runners, and bytes in and out; of
//! what is read, and of what edits make of a graph, its order and its states; of versions and reports; and of sessions and
//! scripts. What is told of examples stands in `example_table`, the faults that are found and the answers to scripts in
//! `tools/trial`, for the built program, and scripts at once in `many_tests`.
//!
//! There is nothing here but tests: a crate with tests is proved twice, so those that need no private name of another crate
//! stand here, in one crate, which reads the libraries once. They are generic in how a graph is kept, and `all` alone
//! names the representation, since each function that names one is dear to prove.
#![tactic(auto)]

#[cfg(test)]
mod all;
#[cfg(test)]
mod answers;
#[cfg(test)]
mod bytes;
#[cfg(test)]
mod commits;
#[cfg(test)]
mod edits;
#[cfg(test)]
mod expressions;
#[cfg(test)]
mod from_scratch;
#[cfg(test)]
mod gates;
#[cfg(test)]
mod graphs;
#[cfg(test)]
mod lists;
#[cfg(test)]
mod orders;
#[cfg(test)]
mod pipes;
#[cfg(test)]
mod propagation;
#[cfg(test)]
mod recordings;
#[cfg(test)]
mod replies;
#[cfg(test)]
mod reports;
#[cfg(test)]
mod runners;
#[cfg(test)]
mod scripts;
#[cfg(test)]
mod sessions;
#[cfg(test)]
mod versions;
#[cfg(test)]
mod words;
#[cfg(test)]
mod workers;
