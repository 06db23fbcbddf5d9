//! How many edits and reads a second the clients of a desk come to, each on a session of its own.
use crate::stages::set_times;
use crate::steps::{Request, Script, Step, edit};
use session_core::{Event, Reply};
use share_tree::{Again, Held};
use stage_graph::Edits;
use std::alloc::{AllocError, Global};

/// What each client does so many times.
#[derive(Clone, Copy)]
pub(crate) struct Plan<'a> {
    /// The recording of version 0.
    pub(crate) recording: &'a str,
    /// The stage whose time is set by each edit.
    pub(crate) stage: &'a str,
    /// How many clients there are, from 1 to 64.
    pub(crate) clients: u32,
    /// How many versions each client makes.
    pub(crate) edits: u32,
    /// How many versions each client reads.
    pub(crate) reads: u32,
}

/// Two lists of edits in turn, so that each changes something.
#[derive(Drop)]
struct Lists {
    even: Held<Edits>,
    odd: Held<Edits>,
}

impl Lists {
    fn new(alloc: Global, stage: &str) -> Result<Lists, AllocError> {
        Ok(Lists {
            even: set_times(alloc, stage, 20)?,
            odd: set_times(alloc, stage, 21)?,
        })
    }

    /// The list of a turn.
    fn at(&self, turn: u32) -> Result<Held<Edits>, AllocError> {
        if turn % 2 == 0 {
            self.even.again()
        } else {
            self.odd.again()
        }
    }
}

impl<'a> Plan<'a> {
    /// All clients have come so far so many times.
    fn all(self, times: u64) -> u64 {
        times.saturating_mul(u64::from(self.clients))
    }

    /// The version that is read at a turn.
    fn version(self, turn: u32) -> u32 {
        let versions = self.clients.saturating_mul(self.edits).max(1);
        turn % versions
    }

    /// A client makes its versions.
    fn add_edits(self, alloc: Global, script: &mut Script, session: u32) -> Result<(), AllocError> {
        let lists = Lists::new(alloc, self.stage)?;
        for turn in 0..self.edits {
            script.push(Step::new(edit(session, lists.at(turn)?)))?;
        }
        Ok(())
    }

    /// A client reads its versions.
    fn add_reads(self, script: &mut Script) -> Result<(), AllocError> {
        for turn in 0..self.reads {
            script.push(Step::new(Request::Read(self.version(turn))))?;
        }
        Ok(())
    }

    /// A client waits until all have come so far so many times.
    fn add_meeting(self, script: &mut Script, times: u64) -> Result<(), AllocError> {
        script.push(Step::after(0, Request::Read(0), true))?;
        script.push(Step::after(self.all(times), Request::Read(0), false))
    }

    /// Adds the steps of the client with this number: it edits, it reads, and then the first one reads while the others edit.
    pub(crate) fn add_steps(
        self,
        alloc: Global,
        session: u32,
        script: &mut Script,
    ) -> Result<(), AllocError> {
        script.push(Step::ask(Event::Open {
            session,
            version: 0,
        }))?;
        self.add_meeting(script, 1)?;
        self.add_edits(alloc, script, session)?;
        self.add_meeting(script, 2)?;
        self.add_reads(script)?;
        self.add_meeting(script, 3)?;
        script.push(Step::ask(Event::Head { session }))?;
        if session == 1 {
            self.add_reads(script)
        } else {
            self.add_edits(alloc, script, session)
        }
    }
}

/// How many answers hold among some of a kind, and how many of these there would be in a second.
#[derive(Clone, Copy)]
struct Count {
    done: u64,
    rate: u64,
}

/// How many commits there are among steps, or how many reads.
fn count_of(steps: &[Step], commits: bool) -> Count {
    let (mut done, mut nanos) = (0u64, 0u64);
    for step in steps {
        let is_commit = matches!(step.answer.reply, Reply::Committed(_));
        if step.answer.holds && is_commit == commits {
            done = done.saturating_add(1);
            nanos = nanos.saturating_add(step.answer.nanos);
        }
    }
    Count {
        done,
        rate: done.saturating_mul(1_000_000_000) / nanos.max(1),
    }
}

impl<'a> Plan<'a> {
    /// Where the reads begin among a client's steps: after the opening, two meetings and the edits.
    fn first_read(self) -> usize {
        (self.edits as usize).saturating_add(5)
    }

    /// Where the steps after the reads, a meeting and the look at the session begin.
    fn end(self) -> usize {
        self.first_read()
            .saturating_add(self.reads as usize)
            .saturating_add(3)
    }

    /// The edits, or the reads, of all clients at once.
    fn total(self, scripts: &[Script], commits: bool) -> Count {
        let (mut done, mut rate) = (0u64, 0u64);
        for script in scripts {
            let steps = script.steps.as_slice();
            let (edits, others) = steps.split_at(self.first_read().min(steps.len()));
            let (reads, _) = others.split_at((self.reads as usize).min(others.len()));
            let count = count_of(if commits { edits } else { reads }, commits);
            done = done.saturating_add(count.done);
            rate = rate.saturating_add(count.rate);
        }
        Count { done, rate }
    }

    /// The nanoseconds of the first client's reads beside the others' edits, in order.
    fn nanos(self, alloc: Global, scripts: &[Script]) -> Result<Vec<u64>, AllocError> {
        let mut nanos = Vec::new(alloc);
        if let Some(first) = scripts.first() {
            for step in first.steps.iter().skip(self.end()) {
                if step.answer.holds {
                    nanos.push(step.answer.nanos)?;
                }
            }
        }
        nanos.sort()?;
        Ok(nanos)
    }

    /// What is told of the clients.
    pub(crate) fn text(self, alloc: Global, scripts: &[Script]) -> Result<String, AllocError> {
        let edits = self.total(scripts, true);
        let reads = self.total(scripts, false);
        let nanos = self.nanos(alloc, scripts)?;
        let beside = nanos.len();
        let median = nanos.get(beside / 2).copied().unwrap_or(0);
        let late = nanos
            .get(beside.saturating_sub(beside / 100 + 1))
            .copied()
            .unwrap_or(0);
        format!(in alloc;
            "{} edits, {} a second; {} reads, {} a second; {beside} reads beside edits, median {median} ns, 99th percentile {late} ns",
            edits.done, edits.rate, reads.done, reads.rate
        )
    }
}
