//! A reader or a writer that remembers why it failed.
ghost use Rattle.std.specs.Prelude.{◌≡◌, ◌-◌, ◌^◌, ◌<◌, IfOk};
ghost use Rattle.text_io.specs.Counted.{write_failures};

use crate::fault::Fault;
use crate::reasons::why_unread;
use crate::voice::Voice;
use std::cell::Cell;
use std::io::{self, BufWriter, Printer, Read, Write};
use text_io::{CountedWriter, Sink};

/// Standard output, written a buffer at a time.
pub type Output<'a> = CountedWriter<BufWriter<Remembering<'a, Printer<'a, HostRuntime>>>>;

/// Standard output as a sink; the reason of its last failure is put where it is looked for.
pub fn output<'a>(
    rt: &'a HostRuntime,
    reason: &'a Cell<Option<io::Error>>,
) -> Result<Output<'a>, Fault>
    ensures { IfOk result (λ sink. write_failures sink ≡ 0) }
{
    let writer = Remembering {
        device: io::writer(rt),
        reason,
    };
    match BufWriter::new(rt.alloc(), writer) {
        Ok(writer) => Ok(CountedWriter::new(writer)),
        Err(_) => Err(Fault::Memory),
    }
}

/// A reader or a writer that puts the reason of its last failure where it is looked for.
#[derive(Drop)]
pub struct Remembering<'a, D> {
    /// What it reads or writes.
    pub device: D,
    /// Where the reason is looked for.
    pub reason: &'a Cell<Option<io::Error>>,
}

/// Whether a failure is one: a call that was interrupted is made again.
pub(crate) fn is_failure(error: &io::Error) -> bool {
    error.kind() != io::ErrorKind::Interrupted
}

impl<D> Remembering<'_, D> {
    /// Puts the reason of a failure where it is looked for.
    fn remember(&self, error: io::Error) {
        if is_failure(&error) {
            self.reason.set(Some(error));
        }
    }
}

impl<D: Read> Read for Remembering<'_, D> {
    fn read(&mut self, buf: &mut [u8]) -> io::Result<usize> {
        let filled = self.device.read(buf);
        if let Err(error) = filled {
            self.remember(error);
        }
        filled
    }
}

impl<D: Write> Write for Remembering<'_, D> {
    fn write(&mut self, buf: &[u8]) -> io::Result<usize> {
        let taken = self.device.write(buf);
        if let Err(error) = taken {
            self.remember(error);
        }
        taken
    }

    fn flush(&mut self) -> io::Result<()> {
        let flushed = self.device.flush();
        if let Err(error) = flushed {
            self.remember(error);
        }
        flushed
    }
}

/// The end, with the reason of a failed write.
pub fn with_reason<T>(
    voice: Voice<'_>,
    reason: &Cell<Option<io::Error>>,
    end: Result<T, Fault>,
) -> Result<T, Fault> {
    match (end, reason.get()) {
        (Err(Fault::Write(None)), Some(error)) => {
            Err(Fault::Write(voice.reason("standard output", error)))
        }
        (end, _) => end,
    }
}

/// The end, with the reason why a script can't be read.
pub fn with_read_reason<T>(
    voice: Voice<'_>,
    script: &str,
    reason: &Cell<Option<io::Error>>,
    end: Result<T, Fault>,
) -> Result<T, Fault> {
    match end {
        Err(Fault::Read(None)) => Err(Fault::Read(why_unread(voice, script, reason.get()))),
        end => end,
    }
}

/// Passes on what was written; the end is that of the writing, or that this failed.
pub fn flushed<S: Sink, T: Drop>(sink: &mut S, end: Result<T, Fault>) -> Result<T, Fault>
    requires { S.failures sink.old < 2 ^ 64 - 1 }
{
    match sink.flush() {
        Ok(()) => end,
        Err(_) => Err(Fault::Write(None)),
    }
}
