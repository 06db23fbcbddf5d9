//! The jobs that a user waits for, on inputs that it makes of a seed, to be timed.
//!
//! `job_bench JOB SEED` runs one of the jobs `report`, `ends`, `serve`, `spread`, `sweep`, `slack`, `rescue`, `compare`, `page`, `import`,
//! `small`, `hubs`, `windows` and `joins`, and prints a digest of all that it wrote. Without words it runs each once on small inputs, which is what the gate runs.
#![tactic(auto)]

mod changes;
mod digest;
mod jobs;
mod joins;
mod names;
mod random;
mod recordings;
mod scripts;
mod traces;

use anyhow::{Result, bail};
use jobs::{Job, Scale, run};
use level_pool::OneThread;
use stage_graph::InShared;
use std::alloc::Global;
use std::env;
use std::thread::Threads;

/// The jobs, by name.
const JOBS: [&str; 14] = [
    "report", "ends", "serve", "spread", "sweep", "slack", "rescue", "compare", "page", "import",
    "small", "hubs", "windows", "joins",
];

/// The line of a job: its name, and the digest and the number of the bytes that it wrote.
fn line_of<H: Threads + Sync>(
    rt: &H,
    alloc: Global,
    name: &str,
    scale: Scale,
    seed: u32,
) -> Result<String> {
    let Some(job) = Job::named(name) else {
        bail!("no job {name}");
    };
    let digest = run::<InShared, OneThread<H>>(alloc, &OneThread::new(rt), job, scale, seed)?;
    Ok(format!(in alloc; "{name} {:016x} of {} bytes", digest.hash, digest.bytes)?)
}

fn main(rt: HostRuntime) -> Result<()> {
    let words: Vec<String> = env::args(&rt)?.skip(1).collect(rt.alloc())?;
    if words.is_empty() {
        for name in &JOBS {
            let line = line_of(&rt, rt.alloc(), name, Scale { divisor: 64 }, 1)?;
            println!(rt; "{line}")?;
        }
        return Ok(());
    }
    let [job, seed] = words.as_slice() else {
        bail!("which job, and of which seed?");
    };
    let line = line_of(
        &rt,
        rt.alloc(),
        job.as_str(),
        Scale { divisor: 1 },
        seed.parse()?,
    )?;
    println!(rt; "{line}")?;
    Ok(())
}
