//! What lines tell of traces, without their spans.
use crate::fleet_lines::traces_in;
use crate::fleet_pieces::{Piece, count_of};
use fleet_replies::found_beside;
use fleet_summary::Name;
use level_pool::Workers;
use std::alloc::{AllocError, Global};
use std::thread::Threads;
use trace_spans::{Fault as TraceFault, Trace};

/// A trace of which a line has spans.
#[derive(Drop)]
pub(crate) struct LineTrace {
    pub(crate) id: Name,
    /// How many spans the line has of it.
    pub(crate) spans: usize,
}

/// What a line tells.
#[derive(Drop)]
pub(crate) enum ToldLine {
    /// The traces of which it has spans.
    Traces(Vec<LineTrace>),
    /// It is no text by itself.
    NoText,
}

/// The traces of which a line has spans.
fn line_traces(alloc: Global, traces: &[Trace]) -> Result<Vec<LineTrace>, AllocError> {
    let mut told = Vec::with_capacity(alloc, traces.len())?;
    for trace in traces {
        let id = Name::new(alloc, trace.id.as_str().as_bytes())?;
        let spans = trace.spans.as_slice().len();
        told.push(LineTrace { id, spans })?;
    }
    Ok(told)
}

/// What a line tells.
fn told_line(alloc: Global, line: &[u8]) -> Result<ToldLine, AllocError> {
    match traces_in(alloc, line) {
        Ok(traces) => Ok(ToldLine::Traces(line_traces(alloc, &traces)?)),
        Err(TraceFault::NoTrace) => Ok(ToldLine::Traces(Vec::new(alloc))),
        Err(TraceFault::Memory) => Err(AllocError),
        Err(_) => Ok(ToldLine::NoText),
    }
}

/// What the lines of a piece tell, up to the first that is no text by itself.
fn told_lines(alloc: Global, piece: &Piece) -> Result<Vec<ToldLine>, AllocError> {
    let mut told = Vec::with_capacity(alloc, piece.len())?;
    for line in &piece.lines(alloc)? {
        told.push(told_line(alloc, *line)?)?;
        if matches!(told.as_slice().last(), Some(ToldLine::NoText)) {
            break;
        }
    }
    Ok(told)
}

/// What the lines of the piece of a number tell; of none nothing.
fn told_numbered(
    alloc: Global,
    pieces: &[Piece],
    number: u32,
) -> Result<Vec<ToldLine>, AllocError> {
    match pieces.get(number as usize) {
        Some(piece) => told_lines(alloc, piece),
        None => Ok(Vec::new(alloc)),
    }
}

/// What the lines of each piece tell, each up to the first that is no text by itself. So many workers read them.
pub(crate) fn told_pieces<H: Threads + Sync>(
    alloc: Global,
    threads: &H,
    workers: Workers,
    pieces: &[Piece],
) -> Result<Vec<Result<Vec<ToldLine>, AllocError>>, AllocError> {
    found_beside(
        alloc,
        threads,
        workers,
        count_of(pieces)?,
        &|number: u32| -> Result<Vec<ToldLine>, AllocError> {
            told_numbered(alloc, pieces, number)
        },
    )
}
