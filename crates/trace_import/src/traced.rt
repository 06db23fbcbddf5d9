//! What is made of a trace: its stages, and the text of their recording.
ghost use Rattle.trace_import.specs.Imported.{IsTracedFrom};

use crate::fault::ImportFault;
use crate::note::Note;
use crate::notes::notes_of;
use crate::options::Mapping;
use crate::reading::{Reading, reading_of};
use crate::text::text_of;
use std::alloc::Global;
use trace_spans::Trace;
use trace_stages::names;

/// What is made of a trace, and the text of its recording.
#[derive(Drop)]
pub struct TraceRecording<'t> {
    /// The trace, how its spans stand to each other, and its stages.
    pub reading: Reading<'t>,
    /// The recording of these stages, in their order.
    pub text: Vec<u8>,
    /// What was guessed.
    pub notes: Vec<Note>,
}

/// The recording of a trace, with what it is made of. So the stage at a place of the recording is known by the span whose it is.
pub fn trace_recording<'t>(
    alloc: Global,
    mapping: Mapping,
    trace: &'t Trace,
) -> Result<TraceRecording<'t>, ImportFault>
    ensures { IsTracedFrom mapping trace.now result }
{
    let reading = reading_of(alloc, mapping, trace)?;
    let names = names(
        alloc,
        reading.trace.spans.as_slice(),
        &reading.relations.order,
    )?;
    let text = text_of(alloc, mapping, &reading, &names)?;
    let notes = notes_of(alloc, &reading, &names)?;
    Ok(TraceRecording {
        reading,
        text,
        notes,
    })
}
