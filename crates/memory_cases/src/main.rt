//! Calls of the libraries, each with its requests for memory refused in turn.
//!
//! Standard input is the table of cases, blocks of lines with an empty line between them: those that begin with `recording`,
//! `stages`, `step` or `trace` give what the cases of the block are made of, and those that begin with `call` are cases. Where a library
//! stands before the heap that refuses requests, each case is tried with each of its requests refused, once alone and once
//! with all after it. Its answer then has to be out of memory, or the ordinary one; what the caller holds is as it was; the
//! same call with memory gives its ordinary answer; and a call is out of memory only where a request was refused. Where no
//! such library is there, each case is run once.
#![tactic(auto)]

mod calls;
mod cases;
mod closing;
mod desks;
mod drafts;
mod graphs;
mod lists;
mod makers;
mod marks;
mod orders;
mod planted;
mod refusals;
mod reports;
mod runs;
mod scene;
mod seats;
mod sources;
mod sweep;
mod tables;
mod texts;
mod told;
mod turn;
mod versions;
mod writers;
mod written;

use anyhow::Result;
use share_tree::Flat;
use stage_graph::InShared;
use std::io::Read;
use std::process::ExitCode;
use std::sync::Wait;
use std::thread::Threads;
use sweep::Sweep;

/// All cases of a table, with shared lists; those of lists alone with both kinds.
fn all_cases<H: Print + Threads + Wait + Sync>(
    rt: &H,
    sweep: &mut Sweep,
    table: &str,
) -> Result<()> {
    cases::all::<Flat<u32>, InShared, H>(rt, sweep, table)
}

fn main(rt: HostRuntime) -> Result<ExitCode> {
    let mut table = Vec::new(rt.alloc());
    rt.stdin().read_to_end(&mut table)?;
    let mut sweep = Sweep::new(rt.alloc());
    all_cases(&rt, &mut sweep, std::str::from_utf8(table.as_slice())?)?;
    match sweep.end(&rt)? {
        true => Ok(ExitCode::SUCCESS),
        false => Ok(ExitCode::FAILURE),
    }
}
