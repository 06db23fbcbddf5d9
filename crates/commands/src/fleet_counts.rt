//! What was counted of a fleet.
use fleet_answer::Tried;
use fleet_summary::Summary;
use fleet_text::{Basis, PartSummary};
use std::alloc::{AllocError, Global};

/// What was counted: of the traces as they are, and by each change that was tried in them.
#[derive(Drop)]
pub(crate) struct Counts {
    pub(crate) whole: PartSummary,
    pub(crate) tries: Vec<PartSummary>,
}

/// The replies by each change, without what else was counted.
pub(crate) fn tried_replies(
    alloc: Global,
    tries: Vec<PartSummary>,
) -> Result<Vec<Tried>, AllocError> {
    let mut tried = Vec::new(alloc);
    for part in tries {
        let PartSummary { basis, summary } = part;
        let Basis { tried: change, .. } = basis;
        let Summary { replies, .. } = summary;
        if let Some(change) = change {
            tried.push(Tried { change, replies })?;
        }
    }
    Ok(tried)
}
