//! What is asked of the replies of traces.
use change_words::Change;
use fleet_summary::GroupBy;
use trace_import::Mapping;

/// How the replies of traces are found, and what is tried of each.
#[derive(Clone, Copy)]
pub struct Question<'a> {
    /// How the recording of a trace is made.
    pub mapping: Mapping,
    /// The name of the span whose end is the reply; the root of each trace where there is none.
    pub reply: Option<&'a str>,
    /// By what spans are counted together.
    pub by: GroupBy,
    /// The changes that are tried, each by itself.
    pub changes: &'a [Change],
}
