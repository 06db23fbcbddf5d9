//! A pipe that tells whether what was written waits.
use std::io::{self, Read, Write};
use std::sync::atomic::{AtomicU64, Ordering};

/// A pipe whose other end waits for each answer before it says more.
#[derive(Drop)]
pub(crate) struct Pipe {
    /// The bytes written since the last flush.
    pub(crate) held_back: AtomicU64,
    /// How many reads found bytes held back.
    pub(crate) early_reads: AtomicU64,
}

/// The end of the pipe that is read, a byte at a time.
#[derive(Drop)]
pub(crate) struct PipeReader<'a> {
    pub(crate) rest: &'a [u8],
    pub(crate) pipe: &'a Pipe,
}

/// The end of the pipe that is written.
#[derive(Drop)]
pub(crate) struct PipeWriter<'a> {
    pub(crate) pipe: &'a Pipe,
}

impl<'a> Read for PipeReader<'a> {
    fn read(&mut self, buf: &mut [u8]) -> io::Result<usize> {
        if self.pipe.held_back.load(Ordering::SeqCst) != 0 {
            self.pipe.early_reads.fetch_add(1, Ordering::SeqCst);
        }
        let count = self.rest.len().min(buf.len()).min(1);
        let (given, after) = self.rest.split_at(count);
        buf[..count].copy_from_slice(given);
        self.rest = after;
        Ok(count)
    }
}

impl<'a> Write for PipeWriter<'a> {
    fn write(&mut self, buf: &[u8]) -> io::Result<usize> {
        self.pipe
            .held_back
            .fetch_add(buf.len() as u64, Ordering::SeqCst);
        Ok(buf.len())
    }

    fn flush(&mut self) -> io::Result<()> {
        self.pipe.held_back.store(0, Ordering::SeqCst);
        Ok(())
    }
}
