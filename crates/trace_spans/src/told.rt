//! What a file tells.
use crate::span::Spans;

/// What a file tells: its spans, and whether its last line is cut, and left out.
#[derive(Drop, Debug)]
pub(crate) struct Told {
    pub spans: Spans,
    pub is_cut: bool,
}
