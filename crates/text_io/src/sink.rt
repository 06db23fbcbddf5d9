//! What text is written to.
ghost use Rattle.std.specs.Prelude.{◌≡◌, ℕ, List, ◌+◌, ◌-◌, ◌^◌, ◌<◌, ◌≤◌, ◌==◌, if◌then◌else◌, is_ok, length, take, Option, OnOk, OnErr};
ghost use Rattle.std.specs.Io.KnownBytes.{Appends, Keeps};
ghost use Rattle.text_io.specs.Sink.{AppendsPrefix};

use std::io::{ErrorKind, Write};
use thiserror::Error;

/// A write failed, or took nothing.
#[derive(Clone, Copy, Debug, PartialEq, Eq, Error)]
#[error("WriteFault")]
pub struct WriteFault;

impl WriteFault {
    pub fn number(self) -> u32
        ensures { result ≡ 40 }
    {
        40
    }
}

/// A writer that counts its failures.
pub trait Sink {
    /// The bytes that it holds, where they are known.
    ghost held: { Self → Option (List ℕ) };

    /// How many of its calls failed, or took nothing.
    ghost failures: { Self → ℕ };

    /// Takes bytes from the front, and returns how many. Zero bytes is a failure.
    fn accept(&mut self, bytes: &[u8]) -> usize
        requires { failures self.old < 2 ^ 64 - 1 }
        ensures bound { result ≤ length bytes.now }
        ensures held { Appends (held self.old) (held self.new) (take result bytes.now) }
        ensures failures { failures self.new ≡ failures self.old + (if result == 0 then 1 else 0) };

    /// Flushes what the writer has buffered.
    fn flush(&mut self) -> Result<(), WriteFault>
        requires { failures self.old < 2 ^ 64 - 1 }
        ensures held { Keeps (held self.old) (held self.new) }
        ensures failures { failures self.new ≡ failures self.old + (if is_ok result then 0 else 1) };

    /// Writes the text, or a prefix of it up to the first failure.
    final fn write(&mut self, text: &[u8]) -> Result<(), WriteFault>
        requires { failures self.old < 2 ^ 64 - 1 }
        ensures ok { OnOk result (Appends (held self.old) (held self.new) text.now) }
        ensures err { OnErr result (AppendsPrefix (held self.old) (held self.new) text.now) }
        ensures failures { failures self.new ≡ failures self.old + (if is_ok result then 0 else 1) }
    {
        let mut rest = text;
        while !rest.is_empty() {
            let taken = self.accept(rest);
            if taken == 0 {
                return Err(WriteFault);
            }
            rest = &rest[taken..];
        }
        Ok(())
    }
}

/// A writer of std with a count of its failures. An interrupted write is retried.
#[derive(Drop)]
pub struct CountedWriter<W> {
    writer: W,
    failures: u64,
}

impl<W: Write> CountedWriter<W> {
    ghost use Rattle.text_io.specs.Counted.{writer_of, write_failures};

    pub fn new(writer: W) -> CountedWriter<W>
        ensures writer { writer_of result ≡ writer }
        ensures failures { write_failures result ≡ 0 }
    {
        CountedWriter {
            writer,
            failures: 0,
        }
    }

    pub fn into_inner(self) -> W
        ensures { result ≡ writer_of self }
    {
        let CountedWriter { writer, .. } = self;
        writer
    }
}

impl<W: Write> Sink for CountedWriter<W> {
    ghost use Rattle.text_io.specs.Counted.{writer_of, write_failures};

    ghost held = { λ counted. W.contents (writer_of counted) };

    ghost failures = { write_failures };

    fn accept(&mut self, bytes: &[u8]) -> usize {
        let taken = write_once(&mut self.writer, bytes);
        if taken == 0 {
            self.failures += 1;
        }
        taken
    }

    fn flush(&mut self) -> Result<(), WriteFault> {
        match self.writer.flush() {
            Ok(()) => Ok(()),
            Err(_) => {
                self.failures += 1;
                Err(WriteFault)
            }
        }
    }
}

// How many bytes one write takes; 0 if it fails.
fn write_once<W: Write>(writer: &mut W, bytes: &[u8]) -> usize
    ensures bound { result ≤ length bytes.now }
    ensures held { Appends (W.contents writer.old) (W.contents writer.new) (take result bytes.now) }
{
    for _ in 0..u64::MAX {
        match writer.write(bytes) {
            Ok(taken) => return taken,
            Err(error) => {
                if error.kind() != ErrorKind::Interrupted {
                    return 0;
                }
            }
        }
    }
    0
}
