//! What is read from the text of a recording that was written: the laws that it is the graph whose text it is.
#![tactic(auto)]

mod graphs;
mod law;
mod typed;

pub use graphs::{graph_is_accepted, graph_is_read_back, object_has_its_tokens, read_written};
pub use law::{
    each_graph_is_accepted, each_graph_is_loaded, each_graph_is_read_back,
    each_object_has_its_tokens, each_plain_text_has_no_labels, each_ranked_graph_stays_ranked,
    each_text_has_its_tokens, each_text_is_read_back,
};
