//! Listening to a script and its answers, so that a refused step can be explained beside them.
//!
//! The script is given on line by line, and what a line was answered is known before the next line is asked for. The
//! answers go out as they would without it.
ghost use Rattle.std.specs.Prelude.{◌≡◌, ℕ, ◌+◌, ◌-◌, ◌^◌, ◌<◌, ◌≤◌, if◌then◌else◌, is_ok, [], ◌++◌, length, take, OnOk};
ghost use Rattle.std.specs.Io.KnownBytes.{IsAtEnd, Keeps};

use crate::step_telling::StepTeller;
use memchr::memchr;
use std::alloc::{AllocError, Global};
use std::cell::Cell;
use std::io::Read;
use text_io::{CountedReader, ReadFault, Sink, Source, WriteFault};

/// How much of an answer is kept: its first line, where that is a refusal.
pub(crate) const MOST_KEPT: usize = 256;

/// How much of a line is kept: more than a step may have.
pub(crate) const LONGEST_LINE: usize = 65_600;

/// Whether an answer is a refusal as JSON. Names have no quotes, so nothing else in an answer looks like it.
pub(crate) fn is_json_refusal(answer: &[u8]) -> bool {
    match answer {
        [b'{', ..] => {
            str::from_utf8(answer).is_ok_and(|text| text.contains("\"reply\":\"refused\""))
        }
        _ => false,
    }
}

/// Whether an answer begins as a refusal does, as text or as JSON: as text it may also be of a stage that is called `refused`.
pub(crate) fn may_be_refusal(answer: &[u8]) -> bool {
    answer.starts_with(b"refused ") || is_json_refusal(answer)
}

/// What the source and the sink know of each other.
#[derive(Drop)]
pub struct Watch {
    alloc: Global,
    /// The front of what the last line was answered.
    answer: Cell<Vec<u8>>,
    /// Whether a further line can be given on without waiting.
    is_more: Cell<bool>,
}

impl Watch {
    /// Nothing was answered, and nothing waits. Room is made for all that is kept, so that no refusal is lost where memory
    /// runs out later.
    pub fn new(alloc: Global) -> Result<Watch, AllocError> {
        Ok(Watch {
            alloc,
            answer: Cell::new(Vec::with_capacity(alloc, MOST_KEPT)?),
            is_more: Cell::new(false),
        })
    }

    /// Keeps the front of an answer.
    fn keep(&self, bytes: &[u8]) {
        let mut answer = self.answer.replace(Vec::new(self.alloc));
        let room = MOST_KEPT.saturating_sub(answer.len());
        let front = bytes.get(..room).unwrap_or(bytes);
        // (there is room for it)
        let _ = answer.extend_from_slice(front);
        self.answer.set(answer);
    }

    /// Nothing is given on any more, so nothing is held back.
    pub fn ends(&self) {
        self.is_more.set(false);
    }

    /// Whether what was answered is a refusal.
    fn is_refused(&self) -> bool {
        let answer = self.answer.replace(Vec::new(self.alloc));
        let is_refused = may_be_refusal(answer.as_slice());
        self.answer.set(answer);
        is_refused
    }
}

/// A sink that keeps what was answered.
#[derive(Drop)]
pub struct ListeningSink<'a, S> {
    /// Where the answers go.
    pub sink: S,
    /// What the source is told by.
    pub watch: &'a Watch,
}

impl<S: Sink> Sink for ListeningSink<'_, S> {
    ghost held = { λ listening. S.held listening.sink };

    ghost failures = { λ listening. S.failures listening.sink };

    fn accept(&mut self, bytes: &[u8]) -> usize {
        let taken = self.sink.accept(bytes);
        self.watch.keep(&bytes[..taken]);
        taken
    }

    fn flush(&mut self) -> Result<(), WriteFault> {
        if self.watch.is_more.get() && !self.watch.is_refused() {
            return Ok(());
        }
        self.sink.flush()
    }
}

/// A source that gives a script on line by line.
#[derive(Drop)]
pub struct ListeningSource<'a, 't, R> {
    reader: CountedReader<R>,
    watch: &'a Watch,
    teller: StepTeller<'t>,
    chunk: Vec<u8>,
    /// How much of the chunk was given on.
    taken: usize,
    /// How much of the chunk was read.
    filled: usize,
    /// What was given on of the last line.
    line: Vec<u8>,
    number: u64,
    is_line_done: bool,
    ghost ordered: { taken ≤ filled },
    ghost within: { filled ≤ length chunk.items },
}

impl<'a, 't, R: Read> ListeningSource<'a, 't, R> {
    ghost use Rattle.console.specs.Listened.{failed_reads, is_ended, script_left, waiting};
    ghost use Rattle.console.specs.Stopping.{unless_stopped};
    ghost use Rattle.text_io.specs.Counted.{reader_of};

    /// A source that has read nothing yet, by chunks as long as this one.
    pub fn new(
        alloc: Global,
        reader: R,
        watch: &'a Watch,
        teller: StepTeller<'t>,
        chunk: Vec<u8>,
    ) -> ListeningSource<'a, 't, R>
        ensures failures { failed_reads result ≡ 0 }
        ensures left { script_left R.remaining result ≡ unless_stopped teller.entry (length chunk.items) (R.remaining reader) }
    {
        ListeningSource {
            reader: CountedReader::new(reader),
            watch,
            teller,
            chunk,
            taken: 0,
            filled: 0,
            line: Vec::new(alloc),
            number: 1,
            is_line_done: false,
        }
    }

    /// Tells what there is to tell of the last line and its answer, and begins the next one.
    pub fn tell(&mut self)
        ensures failures { failed_reads self.new ≡ failed_reads self.old }
        ensures left { Keeps (script_left R.remaining self.old) (script_left R.remaining self.new) }
    {
        let mut answer = self.watch.answer.replace(Vec::new(self.watch.alloc));
        self.teller
            .tell(self.number, self.line.as_slice(), answer.as_slice());
        answer.clear();
        self.watch.answer.set(answer);
        self.line.clear();
        self.number = self.number.saturating_add(1);
        self.is_line_done = false;
    }

    /// Whether the script was ended at a refused step.
    pub fn is_stopped(&self) -> bool
        ensures { result ≡ is_ended self.now }
    {
        self.teller.is_stopped()
    }

    /// Tells of the last line, if it was given on whole, and answers whether a refused step has ended the script.
    fn ends_here(&mut self) -> bool
        ensures failures { failed_reads self.new ≡ failed_reads self.old }
        ensures left { Keeps (script_left R.remaining self.old) (script_left R.remaining self.new) }
        ensures answer { result ≡ is_ended self.new }
    {
        if self.is_line_done {
            self.tell();
        }
        self.teller.is_stopped()
    }

    /// Reads more of the script, if none waits.
    fn fill(&mut self) -> Result<(), ReadFault>
        requires { failed_reads self.old < 2 ^ 64 - 1 }
        ensures teller { self.new.teller ≡ self.old.teller }
        ensures left { Keeps (script_left R.remaining self.old) (script_left R.remaining self.new) }
        ensures end { OnOk result (0 < length self.new.chunk.items → waiting self.new ≡ [] → IsAtEnd (R.remaining (reader_of self.new.reader))) }
        ensures failures { failed_reads self.new ≡ failed_reads self.old + (if is_ok result then 0 else 1) }
    {
        if self.taken >= self.filled {
            let count = self.reader.read(self.chunk.as_mut_slice())?;
            self.taken = 0;
            self.filled = count;
        }
        Ok(())
    }

    /// Gives on what waits, up to the end of a line.
    fn give(&mut self, buffer: &mut [u8]) -> usize
        ensures bound { result ≤ length buffer.new }
        ensures bytes { waiting self.old ≡ take result buffer.new ++ waiting self.new }
        ensures none { result ≡ 0 → 0 < length buffer.new → waiting self.new ≡ [] }
        ensures reader { self.new.reader ≡ self.old.reader }
        ensures teller { self.new.teller ≡ self.old.teller }
        ensures room { length self.new.chunk.items ≡ length self.old.chunk.items }
    {
        let waiting = &self.chunk.as_slice()[self.taken..self.filled];
        let end = match memchr(b'\n', waiting) {
            Some(index) => index + 1,
            None => waiting.len(),
        };
        let count = end.min(buffer.len());
        let given = &waiting[..count];
        buffer[..count].copy_from_slice(given);
        self.is_line_done = given.last() == Some(&b'\n');
        let room = LONGEST_LINE.saturating_sub(self.line.len());
        let front = given.get(..room).unwrap_or(given);
        if self.line.extend_from_slice(front).is_err() {
            self.line.clear();
        }
        self.taken += count;
        self.watch.is_more.set(self.taken < self.filled);
        count
    }
}

impl<R: Read> Source for ListeningSource<'_, '_, R> {
    ghost use Rattle.console.specs.Listened.{failed_reads, script_left};

    ghost remaining = { script_left R.remaining };

    ghost failures = { failed_reads };

    fn read(&mut self, buffer: &mut [u8]) -> Result<usize, ReadFault> {
        if self.ends_here() {
            return Ok(0);
        }
        self.fill()?;
        Ok(self.give(buffer))
    }
}
