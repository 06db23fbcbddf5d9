//! The replies of traces in which something was changed.
use fleet_summary::{Name, Replies};

/// What the replies would have come to where a change was made to each span of a group.
#[derive(Drop)]
pub struct Tried {
    /// The change, in the words that told it.
    pub change: Name,
    pub replies: Replies,
}
