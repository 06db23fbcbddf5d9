//! A script that is read line by line.
ghost use Rattle.std.specs.Prelude.{◌≡◌, ◌+◌, ◌-◌, ◌^◌, ◌<◌, ◌≤◌, [], length, take, is_ok, if◌then◌else◌, Some, IfOk, OnOk, IfErr, OnErr};
ghost use Rattle.std.specs.Option.{option_map};
ghost use Rattle.std.specs.Io.KnownBytes.{Consumes, IsAtEnd, Keeps};
ghost use Rattle.script_lines.specs.Lines.{IsBegun};
ghost use Rattle.script_lines.specs.LineReader.{KeepsRead, ReadsOn, ReadsPiece, StopsReading, TakesLine, is_read_fault, line_read};
ghost use Rattle.script_lines.specs.Seen.{seen};

use crate::fault::LineFault;
use crate::line::Line;
use crate::partial_line::{PartialLine, split_line};
use std::alloc::{AllocError, Global};
use std::marker::Model;
use text_io::{ReadFault, Source};

/// The most bytes of a script that are read at once.
pub const AT_ONCE: usize = 8_192;

/// The most bytes that are read of a script.
const MOST: usize = 1_073_741_824;

/// Reads the lines of a script one after the other, a piece of the script at a time. Contracts see the line that was read
/// last, the bytes read after it, and how many bytes may still be read.
#[derive(Drop)]
pub struct LineReader {
    // The line that was read last.
    line: PartialLine,
    // The piece that was read last.
    buffer: Vec<u8>,
    // How much of the piece was used.
    taken: usize,
    // How long the piece is.
    filled: usize,
    // How many bytes may still be read.
    left: usize,
}

impl Model for LineReader {
    ghost use Rattle.std.specs.Prelude.{slice_range};
    ghost use Rattle.script_lines.specs.ReaderView.{ReaderView};

    ghost Value = { ReaderView };

    ghost use Rattle.script_lines.specs.ReaderFields.{IsLineReader};

    ghost view = { λ reader. record {
      line = reader.line;
      waiting = slice_range reader.buffer.items reader.taken reader.filled;
      left = reader.left;
    } };

    ghost invariant = { IsLineReader };
}

impl LineReader {
    /// A reader of a script, of which 2^30 bytes may be read.
    pub fn new(alloc: Global) -> Result<LineReader, AllocError>
        ensures line { IfOk result (λ reader. reader.line ≡ Some []) }
        ensures waiting { IfOk result (λ reader. reader.waiting ≡ []) }
        ensures left { IfOk result (λ reader. reader.left ≡ 2 ^ 30) }
    {
        let buffer = vec![in alloc; 0; AT_ONCE]?;
        Ok(LineReader {
            line: PartialLine::new(alloc),
            buffer,
            taken: 0,
            filled: 0,
            left: MOST,
        })
    }

    /// The line, if it has ended; None where it is a blank one.
    pub fn line(&self) -> Option<Line<'_>>
        ensures { option_map seen result ≡ line_read self.now }
    {
        self.line.line()
    }

    /// How many bytes may still be read.
    pub fn left(&self) -> usize
        ensures { result ≡ self.now.left }
    {
        self.left
    }

    /// Begins the next line.
    pub fn clear(&mut self)
        ensures line { self.new.line ≡ Some [] }
        ensures waiting { self.new.waiting ≡ self.old.waiting }
        ensures left { self.new.left ≡ self.old.left }
    {
        self.line.clear();
    }

    /// Takes the unread bytes, up to the end of the line. False if the line continues. If out of memory, the reader stays
    /// as it was.
    pub fn take_line(&mut self) -> Result<bool, AllocError>
        ensures begun { IsBegun self.new.line }
        ensures left { self.new.left ≡ self.old.left }
        ensures takes { IfOk result (λ ended. TakesLine ended self.old self.new) }
        ensures refused { OnErr result (self.new ≡ self.old) }
    {
        let rest = &self.buffer[self.taken..self.filled];
        match split_line(rest) {
            Some((line, _after)) => {
                self.line.extend(line)?;
                self.taken += line.len() + 1;
                Ok(true)
            }
            None => {
                self.line.extend(rest)?;
                self.taken = self.filled;
                Ok(false)
            }
        }
    }

    /// Reads the next piece, if nothing is unread. False if the source has ended. If the read fails, the reader stays as
    /// it was.
    pub fn read_more<R: Source>(&mut self, source: &mut R) -> Result<bool, ReadFault>
        requires waiting { self.old.waiting ≡ [] }
        requires left { 0 < self.old.left }
        requires failures { R.failures source.old < 2 ^ 64 - 1 }
        ensures line { self.new.line ≡ self.old.line }
        ensures ok { IfOk result (λ more. ReadsPiece more self.old self.new (R.remaining source.old) (R.remaining source.new)) }
        ensures refused { OnErr result (self.new ≡ self.old) }
        ensures err { OnErr result (Keeps (R.remaining source.old) (R.remaining source.new)) }
        ensures failures { R.failures source.new ≡ R.failures source.old + (if is_ok result then 0 else 1) }
    {
        let count = read_part(source, &mut self.buffer, self.left)?;
        self.taken = 0;
        self.filled = count;
        self.left -= count;
        Ok(count > 0)
    }

    /// Continues to the end of the next line, and reads as much as that takes. False if the source has ended: then
    /// the line is the last one. If a fault ends the call, all that was read is still in the reader.
    pub fn advance<R: Source>(&mut self, source: &mut R) -> Result<bool, LineFault>
        requires { R.failures source.old < 2 ^ 64 - 1 }
        ensures reads { IfOk result (λ more. ReadsOn more self.old self.new (R.remaining source.old) (R.remaining source.new)) }
        ensures no_failure { OnOk result (R.failures source.new ≡ R.failures source.old) }
        ensures err { IfErr result (λ fault. StopsReading (is_read_fault fault) self.old.left (R.remaining source.old) (R.remaining source.new) (R.failures source.old) (R.failures source.new)) }
        ensures kept { OnErr result (KeepsRead self.old self.new (R.remaining source.old) (R.remaining source.new)) }
    {
        self.clear();
        while !self.take_line()? {
            if self.left() == 0 {
                return Err(LineFault::Read);
            }
            if !self.read_more(source)? {
                return Ok(false);
            }
        }
        Ok(true)
    }
}

// Reads to the front of the buffer, and at most this many bytes.
fn read_part<R: Source>(source: &mut R, buffer: &mut [u8], most: usize) -> Result<usize, ReadFault>
    requires buffer { 0 < length buffer.old }
    requires most { 0 < most }
    requires failures { R.failures source.old < 2 ^ 64 - 1 }
    ensures bound { IfOk result (λ count. (count ≤ length buffer.new) × (count ≤ most)) }
    ensures ok { IfOk result (λ count. Consumes (R.remaining source.old) (R.remaining source.new) (take count buffer.new) × (count ≡ 0 → IsAtEnd (R.remaining source.new))) }
    ensures err { OnErr result (Keeps (R.remaining source.old) (R.remaining source.new)) }
    ensures failures { R.failures source.new ≡ R.failures source.old + (if is_ok result then 0 else 1) }
{
    let room = most.min(buffer.len());
    source.read(&mut buffer[..room])
}
