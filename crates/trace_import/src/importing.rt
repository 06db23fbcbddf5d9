//! A recording made from a trace.
ghost use Rattle.std.specs.Prelude.{◌≡◌, ◌+◌, ◌-◌, ◌^◌, ◌<◌, option_copied};
ghost use Rattle.trace_import.specs.Faults.{failed_writes};
ghost use Rattle.trace_import.specs.Imported.{IsImported};

use crate::fault::ImportFault;
use crate::note::Note;
use crate::options::Options;
use crate::recorded::recording_of;
use std::alloc::Global;
use text_io::Sink;
use trace_spans::read_trace;

/// Writes the recording that a trace makes, and answers what was guessed.
pub fn import<S: Sink>(
    alloc: Global,
    bytes: &[u8],
    options: Options<'_>,
    sink: &mut S,
) -> Result<Vec<Note>, ImportFault>
    requires { S.failures sink.old < 2 ^ 64 - 1 }
    ensures written { IsImported bytes.now (option_copied options.entry.trace) options.entry.mapping (S.held sink.old) (S.held sink.new) result }
    ensures failures { S.failures sink.new ≡ S.failures sink.old + failed_writes result }
{
    let trace = read_trace(alloc, bytes, options.trace)?;
    let recorded = recording_of(alloc, options.mapping, &trace)?;
    sink.write(&recorded.text)?;
    Ok(recorded.notes)
}
