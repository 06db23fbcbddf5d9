//! Readers that wait for one another.
ghost use Rattle.std.specs.Prelude.{◌≤◌, length};

use std::io::{self, ErrorKind, Read};
use std::sync::atomic::{AtomicU64, Ordering};
use std::time::{Clock, Duration};

/// The turns that a reader waits for another.
const MOST_TURNS: u32 = 1_000_000;

/// Gives one line at a read, the second and later ones only once the other reader was read; where that doesn't come, it
/// fails.
#[derive(Drop)]
pub(crate) struct Turns<'a, C> {
    pub(crate) clock: C,
    pub(crate) rest: &'a [u8],
    /// How often this reader was read.
    pub(crate) reads: &'a AtomicU64,
    /// How often the other reader was read.
    pub(crate) other: &'a AtomicU64,
}

impl<'a, C: Clock> Turns<'a, C> {
    /// Whether the other reader is read before the turns are used up.
    fn other_comes(&self) -> bool {
        for turn in 0..MOST_TURNS {
            if self.other.load(Ordering::SeqCst) > 0 {
                return true;
            }
            if turn % 64 == 0 {
                std::thread::sleep(&self.clock, Duration::from_micros(20));
            }
        }
        false
    }
}

impl<'a, C: Clock> Read for Turns<'a, C> {
    fn read(&mut self, buf: &mut [u8]) -> io::Result<usize> {
        let before = self.reads.fetch_add(1, Ordering::SeqCst);
        if before > 0 && !self.other_comes() {
            return Err(io::Error::from(ErrorKind::TimedOut));
        }
        Ok(give(&mut self.rest, buf))
    }
}

/// The first line, as far as there is room for it.
fn give(rest: &mut &[u8], buf: &mut [u8]) -> usize
    ensures { result ≤ length buf.new }
{
    let line = match rest.iter().position(|byte| *byte == b'\n') {
        Some(end) => end + 1,
        None => rest.len(),
    };
    let count = line.min(buf.len());
    let (given, after) = rest.split_at(count);
    buf[..count].copy_from_slice(given);
    *rest = after;
    count
}
