//! Lines of a text, a few at a time, cut into pieces of which each is read by one worker.
use crate::fleet_lines::BYTES_AT_ONCE;
use level_pool::Workers;
use std::alloc::{AllocError, Global};
use std::mem;

/// How many bytes a piece has at least, but for the last one.
const PIECE: usize = 131_072;

/// How many bytes of pieces are waited for at most, so that each worker has one.
const MOST_BYTES: usize = 67_108_864;

/// Lines that stand one after the other.
#[derive(Drop)]
pub(crate) struct Piece {
    bytes: Vec<u8>,
    /// How many bytes each line has, with its end.
    lengths: Vec<usize>,
}

impl Piece {
    /// Without a line.
    fn new(alloc: Global) -> Piece {
        Piece {
            bytes: Vec::new(alloc),
            lengths: Vec::new(alloc),
        }
    }

    /// How many lines there are.
    pub(crate) fn len(&self) -> usize {
        self.lengths.len()
    }

    /// How many bytes each line has, with its end.
    pub(crate) fn lengths(&self) -> &[usize] {
        self.lengths.as_slice()
    }

    /// The lines.
    pub(crate) fn lines(&self, alloc: Global) -> Result<Vec<&[u8]>, AllocError> {
        let mut lines = Vec::with_capacity(alloc, self.lengths.len())?;
        let mut rest = self.bytes.as_slice();
        for length in &self.lengths {
            let (line, others) = rest.split_at((*length).min(rest.len()));
            lines.push(line)?;
            rest = others;
        }
        Ok(lines)
    }
}

/// How many pieces there are.
pub(crate) fn count_of(pieces: &[Piece]) -> Result<u32, AllocError> {
    u32::try_from(pieces.len()).map_err(|_| AllocError)
}

/// Pieces to be read.
#[derive(Drop)]
pub(crate) struct Pieces {
    alloc: Global,
    /// Those that get no more lines.
    full: Vec<Piece>,
    /// The one to which the next line goes.
    open: Piece,
    /// How many bytes all of them have.
    bytes: usize,
    /// How many workers read them.
    workers: usize,
}

impl Pieces {
    /// None yet, for so many workers.
    pub(crate) fn new(alloc: Global, workers: Workers) -> Pieces {
        Pieces {
            alloc,
            full: Vec::new(alloc),
            open: Piece::new(alloc),
            bytes: 0,
            workers: workers.count(),
        }
    }

    /// Where the bytes of the next line go; `end_line` ends it.
    pub(crate) fn open_bytes(&mut self) -> &mut Vec<u8> {
        &mut self.open.bytes
    }

    /// Ends a line, of which so many bytes were added.
    pub(crate) fn end_line(&mut self, length: usize) -> Result<(), AllocError> {
        self.open.lengths.push(length)?;
        self.bytes = self.bytes.saturating_add(length);
        if self.open.bytes.len() >= PIECE {
            self.end_piece()?;
        }
        Ok(())
    }

    /// Ends the piece to which lines were added.
    fn end_piece(&mut self) -> Result<(), AllocError> {
        let piece = mem::replace(&mut self.open, Piece::new(self.alloc));
        self.full.push(piece)?;
        Ok(())
    }

    /// Whether they are enough to be read: some bytes, and a piece for each worker unless lines are very long.
    pub(crate) fn are_enough(&self) -> bool {
        let is_one_each = self.full.len() >= self.workers || self.bytes >= MOST_BYTES;
        self.bytes >= BYTES_AT_ONCE && is_one_each
    }

    /// Takes all pieces.
    pub(crate) fn take(&mut self) -> Result<Vec<Piece>, AllocError> {
        if self.open.len() > 0 {
            self.end_piece()?;
        }
        self.bytes = 0;
        Ok(mem::replace(&mut self.full, Vec::new(self.alloc)))
    }
}
