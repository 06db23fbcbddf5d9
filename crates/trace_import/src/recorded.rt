//! A trace's recording, and what was guessed.
ghost use Rattle.trace_import.specs.Imported.{IsRecordedFrom};

use crate::fault::ImportFault;
use crate::note::Note;
use crate::options::Mapping;
use crate::traced::trace_recording;
use std::alloc::Global;
use trace_spans::Trace;

/// The text of a trace's recording, and what was guessed.
#[derive(Drop)]
pub(crate) struct Recorded {
    pub text: Vec<u8>,
    pub notes: Vec<Note>,
}

/// The recording of a trace.
pub(crate) fn recording_of(
    alloc: Global,
    mapping: Mapping,
    trace: &Trace,
) -> Result<Recorded, ImportFault>
    ensures { IsRecordedFrom mapping trace.now result }
{
    let made = trace_recording(alloc, mapping, trace)?;
    Ok(Recorded {
        text: made.text,
        notes: made.notes,
    })
}
