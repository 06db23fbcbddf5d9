//! The recordings of all traces of a file, each on one line.
ghost use Rattle.std.specs.Prelude.{◌≡◌, ◌+◌, ◌-◌, ◌^◌, ◌<◌, IfOk};
ghost use Rattle.trace_import.specs.Each.{AreImported, IsImportedOne, on_one_line};
ghost use Rattle.trace_import.specs.Faults.{failed_writes};

use crate::fault::ImportFault;
use crate::note::Note;
use crate::options::Mapping;
use crate::recorded::recording_of;
use std::alloc::{AllocError, Global};
use text_io::Sink;
use trace_spans::{Text, Trace, read_traces};

/// What ends a line.
const LINE_END: u8 = b'\n';

/// What a trace of several came to.
#[derive(Drop, Debug)]
pub struct Outcome {
    /// The id of the trace, without leading zeros.
    pub trace: Text,
    /// What was guessed, or why no recording was made of it.
    pub made: Result<Vec<Note>, ImportFault>,
}

/// A text on one line: its line ends are left out, but for one at the end.
fn on_one_line(alloc: Global, text: &[u8]) -> Result<Vec<u8>, AllocError>
    ensures { IfOk result (λ line. line.items ≡ on_one_line text.now) }
{
    let mut line = Vec::new(alloc);
    for byte in text {
        if *byte != LINE_END {
            line.push(*byte)?;
        }
    }
    line.push(LINE_END)?;
    Ok(line)
}

/// Writes the recording of a trace on one line, if one is made of it. What ends an import of several is an error.
fn import_one<S: Sink>(
    alloc: Global,
    mapping: Mapping,
    trace: Trace,
    sink: &mut S,
) -> Result<Outcome, ImportFault>
    requires { S.failures sink.old < 2 ^ 64 - 1 }
    ensures written { IsImportedOne mapping trace (S.held sink.old) (S.held sink.new) result }
    ensures failures { S.failures sink.new ≡ S.failures sink.old + failed_writes result }
{
    let id = Text::new(alloc, trace.id.as_str())?;
    let made = match recording_of(alloc, mapping, &trace) {
        Ok(recorded) => {
            sink.write(&on_one_line(alloc, &recorded.text)?)?;
            Ok(recorded.notes)
        }
        Err(fault) if fault.ends_all() => return Err(fault),
        Err(fault) => Err(fault),
    };
    Ok(Outcome { trace: id, made })
}

/// Writes the recording of each trace of a file on one line, in the order of their first spans, and answers what each came
/// to: one of which none is made leaves no line.
pub fn import_each<S: Sink>(
    alloc: Global,
    bytes: &[u8],
    mapping: Mapping,
    sink: &mut S,
) -> Result<Vec<Outcome>, ImportFault>
    requires { S.failures sink.old < 2 ^ 64 - 1 }
    ensures written { AreImported bytes.now mapping (S.held sink.old) (S.held sink.new) result }
    ensures failures { S.failures sink.new ≡ S.failures sink.old + failed_writes result }
{
    let traces = read_traces(alloc, bytes)?;
    let mut outcomes = Vec::new(alloc);
    for trace in traces {
        let outcome = import_one(alloc, mapping, trace, sink)?;
        outcomes.push(outcome).map_err(AllocError::from)?;
    }
    Ok(outcomes)
}
