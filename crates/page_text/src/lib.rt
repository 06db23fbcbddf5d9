//! The fixed texts of a page: the HTML before its data and after it, with the script that draws them.
//!
//! `tools/page-text` writes the sources from `crates/incident_page/page/head.html` and `tail.html`.
#![tactic(auto)]

mod page_head;
mod page_tail;

pub use page_head::head;
pub use page_tail::tail;
