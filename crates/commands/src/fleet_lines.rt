//! The lines of a file, read one after the other, and by their places.
use console::{Fault, Named, Voice, opened};
use std::alloc::Global;
use std::fs::File;
use std::io::{self, BufRead, BufReader, ErrorKind, Read};
use std::os::unix::fs::FileExt;
use trace_import::ImportFault;
use trace_spans::{Fault as TraceFault, Trace, read_traces};

/// The most lines of a file that are read one by one.
pub(crate) const MOST_LINES: u32 = u32::MAX;

/// How many bytes of lines are read at once.
pub(crate) const BYTES_AT_ONCE: usize = 8_388_608;

/// The most bytes of a file that is read whole, and of a line with its end.
pub(crate) const LONGEST: usize = 268_435_456;

/// A line of a file.
#[derive(Clone, Copy)]
pub(crate) struct Line {
    /// How many bytes stand before it.
    pub(crate) start: u64,
    /// How many bytes it has, with its end.
    pub(crate) length: usize,
}

/// That a file, or a line of it, has too many bytes.
pub(crate) fn too_long(voice: Voice<'_>, why: &str) -> Fault {
    Fault::NotImported(ImportFault::Refused(TraceFault::TooLong), voice.text(why))
}

/// What a failed read ends the program with.
fn read_fault(voice: Voice<'_>, error: io::Error) -> Fault {
    if error.kind() == ErrorKind::OutOfMemory {
        return Fault::Memory;
    }
    Fault::Read(voice.reason(voice.file().0, error))
}

/// A file that is read line by line.
pub(crate) fn buffered(
    rt: &HostRuntime,
    voice: Voice<'_>,
    path: &str,
) -> Result<BufReader<File>, Fault> {
    match BufReader::new(rt.alloc(), opened(rt, voice, path, Named::Recording)?) {
        Ok(reader) => Ok(reader),
        Err(error) => Err(read_fault(voice, error)),
    }
}

/// Adds the next line to bytes, and answers how many it has; 0 at the end.
pub(crate) fn read_line<B: BufRead>(
    voice: Voice<'_>,
    reader: &mut B,
    bytes: &mut Vec<u8>,
) -> Result<usize, Fault> {
    let most = (LONGEST as u64).saturating_add(1);
    match reader.by_ref().take(most).read_until(b'\n', bytes) {
        Ok(length) if length > LONGEST => {
            Err(too_long(voice, "it has a line of more than 268435456 bytes"))
        }
        Ok(length) => Ok(length),
        Err(error) => Err(read_fault(voice, error)),
    }
}

/// The traces that a text tells; one without a word tells none.
pub(crate) fn traces_in(alloc: Global, bytes: &[u8]) -> Result<Vec<Trace>, TraceFault> {
    if bytes.iter().all(|byte| byte.is_ascii_whitespace()) {
        return Err(TraceFault::NoTrace);
    }
    read_traces(alloc, bytes)
}

/// A text of which lines are read by their places.
pub(crate) trait TextOfLines {
    /// Adds a line to bytes.
    fn push_line(&self, voice: Voice<'_>, line: Line, bytes: &mut Vec<u8>) -> Result<(), Fault>;
}

impl TextOfLines for File {
    fn push_line(&self, voice: Voice<'_>, line: Line, bytes: &mut Vec<u8>) -> Result<(), Fault> {
        let before = bytes.len();
        bytes.resize(before.saturating_add(line.length), 0)?;
        match self.read_exact_at(&mut bytes[before..], line.start) {
            Ok(()) => Ok(()),
            Err(error) => Err(read_fault(voice, error)),
        }
    }
}

/// A text that is held whole.
#[derive(Clone, Copy)]
pub(crate) struct HeldText<'b>(pub(crate) &'b [u8]);

impl TextOfLines for HeldText<'_> {
    fn push_line(&self, _voice: Voice<'_>, line: Line, bytes: &mut Vec<u8>) -> Result<(), Fault> {
        let start = line.start as usize;
        if let Some(text) = self.0.get(start..start.saturating_add(line.length)) {
            bytes.extend_from_slice(text)?;
        }
        Ok(())
    }
}
