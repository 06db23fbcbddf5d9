//! The recording or the trace, whole, from a file or from standard input; and files that are opened by their names.
ghost use Rattle.std.specs.Prelude.{IfOk};
ghost use Rattle.stage_graph.specs.Walk.{IsRanked};

use crate::explaining::why_refused;
use crate::fault::Fault;
use crate::voice::Voice;
use command_line::Input;
use recording::{Told, read_labelled};
use stage_graph::{Graph, Representation};
use std::alloc::{AllocError, Global};
use std::fmt;
use std::fs::File;
use std::io::{self, Read};

/// One byte more than the longest recording has, so that a longer one is told apart.
const MOST_OF_RECORDING: u64 = 67_108_865;

/// One byte more than the longest trace has.
const MOST_OF_TRACE: u64 = 268_435_457;

/// One byte more than the longest script has.
const MOST_OF_SCRIPT: u64 = 1_073_741_824;

/// What is named by a path where `-` is no standard input, which is told where there is no file of that name.
#[derive(Clone, Copy)]
pub enum Named {
    /// The recording, where standard input is the script.
    RecordingOfInput,
    /// The recording, where standard input is not read.
    Recording,
    /// A script, where standard input is not read.
    Script,
}

impl fmt::Display for Named {
    fn fmt<W: fmt::Write>(&self, f: &mut fmt::Formatter<W>) -> fmt::Result {
        f.write_str(match self {
            Named::RecordingOfInput =>
                "the script is read from standard input, so FILE has to be a file",
            Named::Recording => "standard input is not read here, so FILE has to be a file",
            Named::Script => "standard input is not read here, so SCRIPT has to be a file",
        })
    }
}

/// That two recordings are named as standard input, which is read once.
pub fn why_read_twice(alloc: Global) -> Result<String, AllocError> {
    format!(in alloc;
        "standard input is read once, so one of the recordings at least has to be a file"
    )
}

/// That standard input is named several times, which is read once.
pub fn why_read_again(alloc: Global) -> Result<String, AllocError> {
    format!(in alloc; "standard input is read once, so - can be one of the files alone")
}

/// The graph of a recording, or why it is refused.
pub fn graph<R: Representation>(
    alloc: Global,
    voice: Voice<'_>,
    recording: &[u8],
) -> Result<Graph<R>, Fault>
    ensures { IfOk result (λ graph. IsRanked graph.places) }
{
    let (graph, _) = labelled_graph(alloc, voice, recording)?;
    Ok(graph)
}

/// The graph of a recording and what its labels tell, or why it is refused.
pub fn labelled_graph<R: Representation>(
    alloc: Global,
    voice: Voice<'_>,
    recording: &[u8],
) -> Result<(Graph<R>, Told), Fault>
    ensures { IfOk result (λ read. IsRanked read.0.places) }
{
    match read_labelled(alloc, recording) {
        Ok(read) => Ok(read),
        Err(fault) => {
            let why = why_refused(alloc, voice, recording, &fault).unwrap_or(None);
            Err(Fault::Refused(fault, why))
        }
    }
}

/// The bytes of a recording.
pub fn recording(rt: &HostRuntime, voice: Voice<'_>, input: Input<'_>) -> Result<Vec<u8>, Fault> {
    bytes(rt, voice, "recording", input, MOST_OF_RECORDING)
}

/// The bytes of a trace.
pub fn trace(rt: &HostRuntime, voice: Voice<'_>, input: Input<'_>) -> Result<Vec<u8>, Fault> {
    bytes(rt, voice, "trace", input, MOST_OF_TRACE)
}

/// The bytes of the recording in a file.
pub fn file(
    rt: &HostRuntime,
    voice: Voice<'_>,
    path: &str,
    named: Named,
) -> Result<Vec<u8>, Fault> {
    let file = opened(rt, voice, path, named)?;
    bytes_of_file(rt.alloc(), voice, file, MOST_OF_RECORDING)
}

/// The bytes of the script in a file.
pub fn script(rt: &HostRuntime, voice: Voice<'_>, path: &str) -> Result<Vec<u8>, Fault> {
    let file = opened(rt, voice, path, Named::Script)?;
    bytes_of_file(rt.alloc(), voice.of_script(path), file, MOST_OF_SCRIPT)
}

/// The file that a path names.
pub fn opened(rt: &HostRuntime, voice: Voice<'_>, path: &str, named: Named) -> Result<File, Fault> {
    match File::open(rt, path) {
        Ok(file) => Ok(file),
        Err(error) if path == "-" && error.kind() == io::ErrorKind::NotFound => {
            Err(Fault::Read(voice.text_of(path, named)))
        }
        Err(error) => Err(Fault::Read(voice.reason(path, error))),
    }
}

/// The bytes of a file, or of standard input, where a person at a terminal is told so.
fn bytes(
    rt: &HostRuntime,
    voice: Voice<'_>,
    what: &str,
    input: Input<'_>,
    most: u64,
) -> Result<Vec<u8>, Fault> {
    match input {
        Input::Standard => {
            voice.say_what_is_read(what);
            read_whole(rt.alloc(), voice, rt.stdin(), most, 0)
        }
        Input::File(path) => {
            let file = opened(rt, voice, path, Named::Recording)?;
            bytes_of_file(rt.alloc(), voice, file, most)
        }
    }
}

fn bytes_of_file(alloc: Global, voice: Voice<'_>, file: File, most: u64) -> Result<Vec<u8>, Fault> {
    // (with room for a byte more than the file has, its end is met without further room)
    let length = file.metadata().map_or(0, |metadata| metadata.len());
    let room = length.saturating_add(1).min(most) as usize;
    read_whole(alloc, voice, file, most, room)
}

/// What is read, no more than so many bytes, with room for this many at first.
fn read_whole<R: Read + Drop>(
    alloc: Global,
    voice: Voice<'_>,
    reader: R,
    most: u64,
    room: usize,
) -> Result<Vec<u8>, Fault> {
    let mut bytes = Vec::with_capacity(alloc, room)?;
    match reader.take(most).read_to_end(&mut bytes) {
        Ok(_) => Ok(bytes),
        Err(error) if error.kind() == io::ErrorKind::OutOfMemory => Err(Fault::Memory),
        Err(error) => Err(Fault::Read(voice.reason(voice.file().0, error))),
    }
}
