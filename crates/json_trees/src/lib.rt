//! JSON texts, read in place: handles on a flat list of nodes, whose meaning is the value that `serde_json` reads.
//!
//! `Document::parse` goes over the tokens of a text once and writes a node for each value and each name. A text is refused where its
//! first fault stands.
#![tactic(auto)]

mod build;
mod document;
mod items;
mod members;
mod node;
mod nodes;
mod numbers;
mod tokens;
mod tree;
mod unread;

pub use document::Document;
pub use items::Items;
pub use members::Members;
pub use tree::Tree;
pub use unread::Unread;
