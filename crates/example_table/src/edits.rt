//! The edits of a step.
use recording::{Fault, Step, read_step};
use stage_graph::Edits;
use std::alloc::Global;

/// The edits of a step; none where the step edits nothing.
pub(crate) fn edits_of(alloc: Global, step: &str) -> Result<Option<Edits>, Fault> {
    match read_step(alloc, step.as_bytes())? {
        Step::Change { edits, .. } => Ok(Some(edits)),
        _ => Ok(None),
    }
}
