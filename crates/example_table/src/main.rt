//! Tells a table of examples: what edits make of recordings, and what is reported then.
//!
//! Standard input is the table, `stdout` beside this folder what has to be told of it. Lines that begin with `recording`,
//! `step` or `report` have an answer below them:
//!
//! - `recording JSON` is read, and its fault is told;
//! - `step JSON` edits the last version: its refusal, or the graph that it makes (each place with the places of its feeds),
//!   the order of that graph (each place with its rank and its dependents), and the touched places;
//! - `report WORDS` is told of the last version: `all`, `changes`, `drift`, `times`, `one`, `blame`, `path` or `sweep` with a
//!   stage, `queues` and `halves` of it, which are sweeps of these, or `changes` and `drift` with `against`, which compares it
//!   with the recording.
//!
//! Each representation of graphs and each runner of levels has to tell the same.
#![tactic(auto)]

mod edits;
mod graphs;
mod reports;
mod runners;
mod scene;

use anyhow::{Result, bail};
use runners::AnyRunner;
use scene::told;
use stage_graph::{InFlat, InShared};
use std::alloc::Global;
use std::io::Read;
use std::thread::Threads;

/// What is told in the representation of the program.
fn told_shared<H: Threads + Sync>(
    alloc: Global,
    runner: &AnyRunner<'_, H>,
    table: &str,
) -> Result<String> {
    told::<InShared, AnyRunner<'_, H>>(alloc, runner, table)
}

/// What is told in the representation whose lists are vectors.
fn told_flat<H: Threads + Sync>(
    alloc: Global,
    runner: &AnyRunner<'_, H>,
    table: &str,
) -> Result<String> {
    told::<InFlat, AnyRunner<'_, H>>(alloc, runner, table)
}

/// A way tells what is wanted.
fn alike(found: Result<String>, wanted: &str, way: &str) -> Result<()> {
    if found?.as_str() != wanted {
        bail!("{way} tells something else");
    }
    Ok(())
}

/// Each runner tells what is wanted in each representation.
fn all_alike<H: Threads + Sync>(rt: &H, alloc: Global, table: &str, wanted: &str) -> Result<()> {
    let flat = |runner: &AnyRunner<'_, H>| told_flat(alloc, runner, table);
    let shared = |runner: &AnyRunner<'_, H>| told_shared(alloc, runner, table);
    alike(
        flat(&AnyRunner::in_one_thread(rt)),
        wanted,
        "the flat representation",
    )?;
    alike(shared(&AnyRunner::by_one_worker(rt)), wanted, "one worker")?;
    alike(
        shared(&AnyRunner::by_two_workers(rt)),
        wanted,
        "two workers",
    )?;
    alike(
        flat(&AnyRunner::by_sixteen_workers(rt)),
        wanted,
        "sixteen workers",
    )?;
    alike(shared(&AnyRunner::in_the_pool(rt)), wanted, "the pool")
}

/// What is told, which is the same in each representation and by each runner.
fn told_in_each<H: Threads + Sync>(rt: &H, alloc: Global, table: &str) -> Result<String> {
    let wanted = told_shared(alloc, &AnyRunner::in_one_thread(rt), table)?;
    all_alike(rt, alloc, table, wanted.as_str())?;
    Ok(wanted)
}

fn main(rt: HostRuntime) -> Result<()> {
    let mut table = Vec::new(rt.alloc());
    rt.stdin().read_to_end(&mut table)?;
    let table = String::from_utf8(table)?;
    let text = told_in_each(&rt, rt.alloc(), table.as_str())?;
    print!(rt; "{text}")?;
    Ok(())
}
