//! A stage that the command line names, and the recording lacks.
use console::{Fault, Voice, why_no_stage, with_explanation};
use std::alloc::Global;

/// The end of what a stage was named for, with what people are told of a recording that is refused or has no such stage.
pub(crate) fn with_name_explained(
    alloc: Global,
    voice: Voice<'_>,
    recording: &[u8],
    name: &str,
    end: Result<(), Fault>,
) -> Result<(), Fault> {
    match with_explanation(alloc, voice, recording, end) {
        Err(Fault::NoStage(_)) => {
            Err(Fault::NoStage(why_no_stage(alloc, voice, recording, name)))
        }
        end => end,
    }
}
