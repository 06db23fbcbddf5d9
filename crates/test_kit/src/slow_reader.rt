//! A reader that gives little at a time, is interrupted, and fails.
use std::io::{self, ErrorKind, Read};

/// Gives so many bytes at a time, and fails at the read after so many. Each read is interrupted first.
#[derive(Drop)]
pub struct SlowReader<'a> {
    rest: &'a [u8],
    at_once: usize,
    reads_left: usize,
    was_interrupted: bool,
}

impl<'a> SlowReader<'a> {
    /// A reader of these bytes.
    pub fn new(rest: &'a [u8], at_once: usize, reads_left: usize) -> SlowReader<'a> {
        SlowReader {
            rest,
            at_once,
            reads_left,
            was_interrupted: false,
        }
    }
}

impl<'a> Read for SlowReader<'a> {
    fn read(&mut self, buf: &mut [u8]) -> io::Result<usize> {
        self.was_interrupted = !self.was_interrupted;
        if self.was_interrupted {
            return Err(io::Error::from(ErrorKind::Interrupted));
        }
        if self.reads_left == 0 {
            return Err(io::Error::from(ErrorKind::BrokenPipe));
        }
        self.reads_left -= 1;
        let count = self.at_once.min(self.rest.len()).min(buf.len());
        let (given, after) = self.rest.split_at(count);
        buf[..count].copy_from_slice(given);
        self.rest = after;
        Ok(count)
    }
}
