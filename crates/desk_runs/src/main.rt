//! Runs a desk's clients in threads, and tells what held: the same at every run, whatever the schedule.
//!
//! - `two clients`: one client's edit of version 0 meets the other one's undo at a gate in the runner;
//! - `refusals`: what is full, of another graph, or missing;
//! - `own commits`: each client reads each of its commits back at once;
//! - `soak`: clients take random steps on shared sessions. The log is replayed by a table of one thread, each client's
//!   calls are compared with the log's, and each version is read back and compared with its graph's evaluation from
//!   scratch.
//!
//! `desk_runs measure FILE STAGE CLIENTS EDITS READS` starts a desk with a recording, and each client opens a session of its
//! own. Each makes so many versions, by edits that set how long the stage runs; then each reads so many; then the first
//! one reads as many again, while the others make as many again.
#![tactic(auto)]

mod asking;
mod checking;
mod closing;
mod examples;
mod measures;
mod runs;
mod seats;
mod signals;
mod stages;
mod steps;
mod walks;

use anyhow::{Result, bail};
use measures::Plan;
use runs::{Run, on_new_desk};
use signals::Way;
use std::alloc::Global;
use std::env;
use std::fs::File;
use std::io::Read;
use std::sync::Wait;
use std::thread::Threads;
use std::time::Clock;

/// The runs whose output is the same each time.
const EXAMPLES: [Run<'static>; 7] = [
    Run::TwoClients {
        way: Way::OneThread,
        undoes: true,
    },
    Run::TwoClients {
        way: Way::Scoped,
        undoes: true,
    },
    Run::TwoClients {
        way: Way::Pooled,
        undoes: true,
    },
    Run::TwoClients {
        way: Way::Scoped,
        undoes: false,
    },
    Run::Refusals,
    Run::OwnCommits,
    Run::Soak,
];

/// Prints what is told of runs, each in a line.
fn tell<H: Threads + Wait + Clock + Print + Copy + Drop + Send + Sync>(
    rt: H,
    alloc: Global,
    runs: &[Run<'_>],
) -> Result<()> {
    for run in runs {
        let line = on_new_desk(rt, alloc, *run)?;
        println!(rt; "{line}")?;
    }
    Ok(())
}

/// The recording in a file.
fn recording_in(rt: &HostRuntime, path: &str) -> Result<String> {
    let mut recording = Vec::new(rt.alloc());
    File::open(rt, path)?.read_to_end(&mut recording)?;
    Ok(String::from_utf8(recording)?)
}

fn main(rt: HostRuntime) -> Result<()> {
    let words: Vec<String> = env::args(&rt)?.skip(1).collect(rt.alloc())?;
    if words.is_empty() {
        return tell(rt, rt.alloc(), &EXAMPLES);
    }
    let [_measure, path, stage, clients, edits, reads] = words.as_slice() else {
        bail!("of which file, stage, clients, edits and reads?");
    };
    let recording = recording_in(&rt, path.as_str())?;
    let plan = Plan {
        recording: recording.as_str(),
        stage: stage.as_str(),
        clients: clients.parse()?,
        edits: edits.parse()?,
        reads: reads.parse()?,
    };
    tell(rt, rt.alloc(), &[Run::Measure(plan)])
}
