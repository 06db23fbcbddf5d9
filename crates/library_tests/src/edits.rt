//! The edits of a step.
use recording::{Step, read_step};
use stage_graph::Edits;
use std::alloc::Global;
use std::test::Fail;

/// The edits of a step.
pub(crate) fn edits_of(alloc: Global, step: &str) -> Result<Edits, Fail> {
    match read_step(alloc, step.as_bytes())? {
        Step::Change { edits, .. } => Ok(edits),
        _ => Err(Fail::from("the step edits nothing")),
    }
}
