//! What input is read from.
ghost use Rattle.std.specs.Prelude.{◌≡◌, ℕ, List, ◌+◌, ◌-◌, ◌^◌, ◌<◌, if◌then◌else◌, is_ok, Option};
ghost use Rattle.std.specs.Io.{ReadsAtMost};
ghost use Rattle.std.specs.Io.KnownBytes.{ReadConsumes};

use std::io::{ErrorKind, Read};
use thiserror::Error;

/// A read failed.
#[derive(Clone, Copy, Debug, PartialEq, Eq, Error)]
#[error("ReadFault")]
pub struct ReadFault;

impl ReadFault {
    pub fn number(self) -> u32
        ensures { result ≡ 41 }
    {
        41
    }
}

/// A reader that counts its failures.
pub trait Source {
    /// The bytes that it has left, where they are known.
    ghost remaining: { Self → Option (List ℕ) };

    /// How many of its reads failed.
    ghost failures: { Self → ℕ };

    /// Reads bytes to the front of the buffer, and returns how many; 0 at the end of the input.
    fn read(&mut self, buffer: &mut [u8]) -> Result<usize, ReadFault>
        requires { failures self.old < 2 ^ 64 - 1 }
        ensures bound { ReadsAtMost result buffer.new }
        ensures bytes { ReadConsumes (remaining self.old) (remaining self.new) result buffer.new }
        ensures failures { failures self.new ≡ failures self.old + (if is_ok result then 0 else 1) };
}

/// A reader of std with a count of its failures. An interrupted read is retried.
#[derive(Drop)]
pub struct CountedReader<R> {
    reader: R,
    failures: u64,
}

impl<R: Read> CountedReader<R> {
    ghost use Rattle.text_io.specs.Counted.{reader_of, read_failures};

    pub fn new(reader: R) -> CountedReader<R>
        ensures reader { reader_of result ≡ reader }
        ensures failures { read_failures result ≡ 0 }
    {
        CountedReader {
            reader,
            failures: 0,
        }
    }
}

impl<R: Read> Source for CountedReader<R> {
    ghost use Rattle.text_io.specs.Counted.{reader_of, read_failures};

    ghost remaining = { λ counted. R.remaining (reader_of counted) };

    ghost failures = { read_failures };

    fn read(&mut self, buffer: &mut [u8]) -> Result<usize, ReadFault> {
        let answer = read_once(&mut self.reader, buffer);
        if answer.is_err() {
            self.failures += 1;
        }
        answer
    }
}

// One read, retried until it is not interrupted.
fn read_once<R: Read>(reader: &mut R, buffer: &mut [u8]) -> Result<usize, ReadFault>
    ensures bound { ReadsAtMost result buffer.new }
    ensures bytes { ReadConsumes (R.remaining reader.old) (R.remaining reader.new) result buffer.new }
{
    for _ in 0..u64::MAX {
        match reader.read(buffer) {
            Ok(count) => return Ok(count),
            Err(error) => {
                if error.kind() != ErrorKind::Interrupted {
                    return Err(ReadFault);
                }
            }
        }
    }
    Err(ReadFault)
}
