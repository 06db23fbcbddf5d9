//! A writer that takes little at a time, is interrupted, and fails.
use std::alloc::Global;
use std::io::{self, ErrorKind, Write};

/// Takes so many bytes at a time, and fails at the write after so many. Each write is interrupted first.
#[derive(Drop)]
pub struct SlowWriter {
    taken: Vec<u8>,
    at_once: usize,
    writes_left: usize,
    was_interrupted: bool,
}

impl SlowWriter {
    /// A writer that has taken nothing.
    pub fn new(alloc: Global, at_once: usize, writes_left: usize) -> SlowWriter {
        SlowWriter {
            taken: Vec::new(alloc),
            at_once,
            writes_left,
            was_interrupted: false,
        }
    }

    /// The bytes that it has taken.
    pub fn taken(&self) -> &[u8] {
        self.taken.as_slice()
    }
}

impl Write for SlowWriter {
    fn write(&mut self, buf: &[u8]) -> io::Result<usize> {
        self.was_interrupted = !self.was_interrupted;
        if self.was_interrupted {
            return Err(io::Error::from(ErrorKind::Interrupted));
        }
        if self.writes_left == 0 {
            return Err(io::Error::from(ErrorKind::BrokenPipe));
        }
        self.writes_left -= 1;
        let count = self.at_once.min(buf.len());
        self.taken.extend_from_slice(&buf[..count])?;
        Ok(count)
    }

    fn flush(&mut self) -> io::Result<()> {
        Ok(())
    }
}
