//! The summary of a part of the traces.
use crate::basis::Basis;
use fleet_summary::Summary;

/// What the replies of a part of the traces came to, and what its numbers are of.
#[derive(Drop)]
pub struct PartSummary {
    pub basis: Basis,
    pub summary: Summary,
}
