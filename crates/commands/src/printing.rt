//! A text on standard output.
use console::{Fault, Voice, flushed, output, with_reason};
use std::cell::Cell;
use text_io::Sink;

/// Prints a text.
pub(crate) fn print_text(rt: &HostRuntime, voice: Voice<'_>, text: &str) -> Result<(), Fault> {
    let reason = Cell::new(None);
    let mut sink = output(rt, &reason)?;
    let end = match sink.write(text.as_bytes()) {
        Ok(()) => Ok(()),
        Err(_) => Err(Fault::Write(None)),
    };
    with_reason(voice, &reason, flushed(&mut sink, end))
}
