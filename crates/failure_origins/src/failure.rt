//! What became of an exception.

use stage_graph::Places;

/// An exception that arose in a stage. Each list is in the order of its places.
#[derive(Drop)]
pub struct Failure {
    /// Where it arose: a stage that completed by an exception and blames no source.
    pub origin: u32,
    /// The other stages that hold it.
    pub reaches: Places,
    /// The stages that have read one that holds it, and do not hold it themselves.
    pub handled: Places,
}
