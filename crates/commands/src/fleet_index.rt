//! On which lines of a file the spans of its traces stand, so that the traces are read a few at a time and not the file whole.
use crate::fleet_lines::{Line, MOST_LINES, TextOfLines, read_line, traces_in};
use crate::fleet_pieces::{Piece, Pieces, count_of};
use crate::fleet_told::{LineTrace, ToldLine, told_pieces};
use console::{Fault, Voice};
use fleet_replies::found_beside;
use fleet_summary::Name;
use level_pool::Workers;
use std::alloc::{AllocError, Global};
use std::collections::BTreeMap;
use std::io::BufRead;
use std::thread::Threads;
use trace_spans::{Fault as TraceFault, Trace, joined_traces};

/// How many spans are read at once, if that is more than one trace, where each line is then read about once.
const AT_ONCE: usize = 8_192;

/// Into how many batches the spans are cut where lines have to be read several times.
const BATCHES: usize = 6;

/// Where the spans of a trace stand.
#[derive(Drop)]
struct Indexed {
    /// The numbers of the lines that have some, ascending.
    lines: Vec<u32>,
    /// How many there are.
    spans: usize,
}

/// The traces of a file, each line of which is a text of its own.
#[derive(Drop)]
pub(crate) struct Index {
    lines: Vec<Line>,
    /// How many bytes the lines have, all together.
    bytes: u64,
    /// The traces, in the order of their first spans.
    traces: Vec<Indexed>,
    /// The number of each, by its id.
    numbers: BTreeMap<Name, usize>,
}

impl Index {
    /// No trace.
    fn new(alloc: Global) -> Index {
        Index {
            lines: Vec::new(alloc),
            bytes: 0,
            traces: Vec::new(alloc),
            numbers: BTreeMap::new(alloc),
        }
    }

    /// How many traces there are.
    pub(crate) fn len(&self) -> usize {
        self.traces.len()
    }

    /// The number of a trace; one that is new gets the next one.
    fn number_of(&mut self, alloc: Global, id: Name) -> Result<usize, AllocError> {
        if let Some(number) = self.numbers.get(&id) {
            return Ok(*number);
        }
        let number = self.traces.len();
        self.traces.push(Indexed {
            lines: Vec::new(alloc),
            spans: 0,
        })?;
        self.numbers.insert(id, number)?;
        Ok(number)
    }

    /// Adds the spans that a trace has on a line.
    fn add_spans(&mut self, alloc: Global, trace: LineTrace, line: u32) -> Result<(), AllocError> {
        let LineTrace { id, spans } = trace;
        let number = self.number_of(alloc, id)?;
        if let Some(indexed) = self.traces.get_mut(number) {
            indexed.lines.push(line)?;
            indexed.spans = indexed.spans.saturating_add(spans);
        }
        Ok(())
    }

    /// Adds the next line, if it is a text by itself, and answers whether it is.
    fn add_line(
        &mut self,
        alloc: Global,
        length: usize,
        told: ToldLine,
    ) -> Result<bool, AllocError> {
        let Ok(number) = u32::try_from(self.lines.len()) else {
            return Ok(false);
        };
        let ToldLine::Traces(traces) = told else {
            return Ok(false);
        };
        let start = self.bytes;
        self.lines.push(Line { start, length })?;
        self.bytes = start.saturating_add(length as u64);
        for trace in traces {
            self.add_spans(alloc, trace, number)?;
        }
        Ok(true)
    }

    /// Adds the lines of a piece with what each tells, and answers whether all are texts by themselves.
    fn add_piece(
        &mut self,
        alloc: Global,
        piece: &Piece,
        told: Vec<ToldLine>,
    ) -> Result<bool, AllocError> {
        for (length, told) in piece.lengths().iter().zip(told) {
            if !self.add_line(alloc, *length, told)? {
                return Ok(false);
            }
        }
        Ok(true)
    }

    /// Adds the lines of pieces, which so many workers read, and answers whether all are texts by themselves.
    fn add_pieces<H: Threads + Sync>(
        &mut self,
        alloc: Global,
        threads: &H,
        workers: Workers,
        pieces: &[Piece],
    ) -> Result<bool, AllocError> {
        let all = told_pieces(alloc, threads, workers, pieces)?;
        for (piece, told) in pieces.iter().zip(all) {
            if !self.add_piece(alloc, piece, told?)? {
                return Ok(false);
            }
        }
        Ok(true)
    }

    /// How many spans all traces have.
    fn spans(&self) -> usize {
        let mut spans: usize = 0;
        for trace in &self.traces {
            spans = spans.saturating_add(trace.spans);
        }
        spans
    }

    /// The end of the traces that are read together from a number on: as many as have that many spans at most, and at least one.
    fn end_of(&self, from: usize, most: usize) -> usize {
        let mut spans: usize = 0;
        for number in from..self.traces.len() {
            spans = spans.saturating_add(self.traces[number].spans);
            if number > from && spans > most {
                return number;
            }
        }
        self.traces.len()
    }

    /// The lines on which the traces of these numbers have spans, each once, ascending.
    fn lines_of(
        &self,
        alloc: Global,
        from: usize,
        end: usize,
    ) -> Result<BTreeMap<u32, ()>, AllocError> {
        let mut lines = BTreeMap::new(alloc);
        for number in from..end.min(self.traces.len()) {
            for line in &self.traces[number].lines {
                lines.insert(*line, ())?;
            }
        }
        Ok(lines)
    }

    /// How many lines are read where so many spans are read at once.
    fn lines_read(&self, alloc: Global, most: usize) -> Result<usize, AllocError> {
        let mut read: usize = 0;
        let mut from: usize = 0;
        for _ in 0..self.traces.len() {
            if from < self.traces.len() {
                let end = self.end_of(from, most);
                read = read.saturating_add(self.lines_of(alloc, from, end)?.len());
                from = end;
            }
        }
        Ok(read)
    }

    /// How many spans are read at once: few where the traces come one after the other, and else a part of all, so that lines which mix
    /// traces are not read too often.
    pub(crate) fn most_at_once(&self, alloc: Global) -> Result<usize, AllocError> {
        let twice = self.lines.len().saturating_mul(2);
        if self.lines_read(alloc, AT_ONCE)? <= twice {
            return Ok(AT_ONCE);
        }
        Ok(AT_ONCE.max(self.spans() / BATCHES))
    }

    /// Whether a trace is one of these numbers.
    fn is_between(
        &self,
        alloc: Global,
        trace: &Trace,
        from: usize,
        end: usize,
    ) -> Result<bool, AllocError> {
        let id = Name::new(alloc, trace.id.as_str().as_bytes())?;
        Ok(match self.numbers.get(&id) {
            Some(number) => from <= *number && *number < end,
            None => false,
        })
    }

    /// Adds what a line tells of the traces of these numbers, and answers whether it is still a text that tells spans.
    fn push_own(
        &self,
        alloc: Global,
        line: &[u8],
        from: usize,
        end: usize,
        parts: &mut Vec<Trace>,
    ) -> Result<bool, AllocError> {
        let traces = match traces_in(alloc, line) {
            Ok(traces) => traces,
            Err(TraceFault::Memory) => return Err(AllocError),
            Err(_) => return Ok(false),
        };
        for trace in traces {
            if self.is_between(alloc, &trace, from, end)? {
                parts.push(trace)?;
            }
        }
        Ok(true)
    }

    /// What the lines of the piece of a number tell of the traces of these numbers; nothing where one tells no span any more.
    fn own_numbered(
        &self,
        alloc: Global,
        pieces: &[Piece],
        number: u32,
        from: usize,
        end: usize,
    ) -> Result<Option<Vec<Trace>>, AllocError> {
        let mut parts = Vec::new(alloc);
        let Some(piece) = pieces.get(number as usize) else {
            return Ok(Some(parts));
        };
        for line in &piece.lines(alloc)? {
            if !self.push_own(alloc, *line, from, end, &mut parts)? {
                return Ok(None);
            }
        }
        Ok(Some(parts))
    }

    /// Adds what pieces tell of the traces of these numbers. So many workers read them.
    fn add_parts<H: Threads + Sync>(
        &self,
        alloc: Global,
        voice: Voice<'_>,
        threads: &H,
        workers: Workers,
        pieces: &[Piece],
        from: usize,
        end: usize,
        parts: &mut Vec<Trace>,
    ) -> Result<(), Fault> {
        let all = found_beside(
            alloc,
            threads,
            workers,
            count_of(pieces)?,
            &|number: u32| -> Result<Option<Vec<Trace>>, AllocError> {
                self.own_numbered(alloc, pieces, number, from, end)
            },
        )?;
        for own in all {
            let Some(own) = own? else {
                return Err(changed(voice));
            };
            add_all(parts, own)?;
        }
        Ok(())
    }

    /// What lines tell of the traces of these numbers, in parts. So many workers read them.
    fn parts_between<T: TextOfLines, H: Threads + Sync>(
        &self,
        alloc: Global,
        voice: Voice<'_>,
        threads: &H,
        workers: Workers,
        text: &T,
        from: usize,
        end: usize,
    ) -> Result<Vec<Trace>, Fault> {
        let mut parts = Vec::new(alloc);
        let mut pieces = Pieces::new(alloc, workers);
        for (number, ()) in &self.lines_of(alloc, from, end)? {
            if let Some(line) = self.lines.get(*number as usize) {
                text.push_line(voice, *line, pieces.open_bytes())?;
                pieces.end_line(line.length)?;
            }
            if pieces.are_enough() {
                let some = pieces.take()?;
                self.add_parts(alloc, voice, threads, workers, &some, from, end, &mut parts)?;
            }
        }
        let last = pieces.take()?;
        self.add_parts(alloc, voice, threads, workers, &last, from, end, &mut parts)?;
        Ok(parts)
    }

    /// The traces from a number on, of which there are as many as have so many spans, and the number of the one behind them. So many
    /// workers read their lines.
    pub(crate) fn read_from<T: TextOfLines, H: Threads + Sync>(
        &self,
        alloc: Global,
        voice: Voice<'_>,
        threads: &H,
        workers: Workers,
        text: &T,
        from: usize,
        most: usize,
    ) -> Result<(Vec<Trace>, usize), Fault> {
        let end = self.end_of(from, most);
        let parts = self.parts_between(alloc, voice, threads, workers, text, from, end)?;
        let traces = joined_traces(alloc, parts)?;
        if traces.len() != end.saturating_sub(from) {
            return Err(changed(voice));
        }
        Ok((traces, end))
    }
}

/// Adds traces at the end.
fn add_all(parts: &mut Vec<Trace>, own: Vec<Trace>) -> Result<(), AllocError> {
    for part in own {
        parts.push(part)?;
    }
    Ok(())
}

/// That a file is not as it was when it was read before.
fn changed(voice: Voice<'_>) -> Fault {
    Fault::Read(voice.text("it has changed while it was read"))
}

/// The traces of a file by its lines, where it has several and each is a text of its own. So many workers read the lines.
pub(crate) fn index_of<B: BufRead, H: Threads + Sync>(
    alloc: Global,
    voice: Voice<'_>,
    threads: &H,
    workers: Workers,
    reader: &mut B,
) -> Result<Option<Index>, Fault> {
    let mut index = Index::new(alloc);
    let mut pieces = Pieces::new(alloc, workers);
    for _ in 0..MOST_LINES {
        let length = read_line(voice, reader, pieces.open_bytes())?;
        if length > 0 {
            pieces.end_line(length)?;
        }
        if length == 0 || pieces.are_enough() {
            let some = pieces.take()?;
            if !index.add_pieces(alloc, threads, workers, &some)? {
                return Ok(None);
            }
        }
        if length == 0 {
            return Ok(if index.lines.len() > 1 {
                Some(index)
            } else {
                None
            });
        }
    }
    Ok(None)
}
