//! What is run on a new desk, and what is told of it.
ghost use Rattle.std.specs.Prelude.{◌≡◌, ◌≤◌, ◌^◌};
ghost use Rattle.version_store.specs.Plain.{opening_version};
ghost use Rattle.session_core.specs.Machine.{opening};

use crate::checking::{MOST, text_of_walks};
use crate::closing::{text_of_close, text_of_closes};
use crate::examples::{
    asks_in_vain, commits_often, edits_at_gate, text_of_commits, text_of_meeting, text_of_refusals,
    undoes_meanwhile,
};
use crate::measures::Plan;
use crate::seats::{Played, play_all};
use crate::signals::{Signals, Way};
use crate::stages::{MANY_STAGES, TWO_STAGES, opened};
use crate::steps::Script;
use crate::walks::walks;
use desk::{Client, Desk, Naming, NewArchive, start};
use stage_graph::InShared;
use std::alloc::{AllocError, Global};
use std::marker::Brand;
use std::sync::Wait;
use std::sync::ledger::Blank;
use std::thread::Threads;
use std::time::Clock;
use version_store::{StateRepresentation, Version};

/// What is run.
#[derive(Clone, Copy)]
pub(crate) enum Run<'a> {
    /// One client undoes its edit, or not, while the other one's is computed in this way.
    TwoClients { way: Way, undoes: bool },
    Refusals,
    OwnCommits,
    Soak,
    /// The clients are measured.
    Measure(Plan<'a>),
}

impl<'a> Run<'a> {
    /// The recording of version 0.
    fn recording(self) -> &'a str {
        match self {
            Run::Soak => MANY_STAGES,
            Run::Measure(plan) => plan.recording,
            _ => TWO_STAGES,
        }
    }

    /// How many clients there are.
    fn clients(self) -> u32
        ensures { (1 ≤ result) × (result ≤ 64) }
    {
        match self {
            Run::TwoClients { .. } | Run::Refusals => 2,
            Run::OwnCommits => 4,
            Run::Soak => 8,
            Run::Measure(plan) => plan.clients.clamp(1, 64),
        }
    }

    /// For how many versions there is room.
    fn most(self) -> u32
        ensures { (1 ≤ result) × (result ≤ 2 ^ 16) }
    {
        match self {
            Run::Refusals => 1,
            Run::Soak => MOST,
            _ => 65_536,
        }
    }

    /// Adds what the client with this number does to its script.
    fn add_steps(self, alloc: Global, number: u32, script: &mut Script) -> Result<(), AllocError> {
        match self {
            Run::TwoClients { way, .. } if number == 1 => edits_at_gate(alloc, way, script),
            Run::TwoClients { undoes, .. } => undoes_meanwhile(alloc, undoes, script),
            Run::Refusals if number == 1 => asks_in_vain(alloc, script),
            Run::Refusals => Ok(()),
            Run::OwnCommits => commits_often(alloc, number, script),
            Run::Soak => walks(alloc, number, script),
            Run::Measure(plan) => plan.add_steps(alloc, number, script),
        }
    }

    /// What the client with this number does.
    fn script(self, alloc: Global, number: u32) -> Result<Script, AllocError> {
        let mut script = Script::new(alloc);
        self.add_steps(alloc, number, &mut script)?;
        Ok(script)
    }
}

/// What is told of the clients' scripts.
fn text_of_scripts(alloc: Global, run: Run<'_>, scripts: &[Script]) -> Result<String, AllocError> {
    match run {
        Run::TwoClients { .. } => text_of_meeting(alloc, scripts),
        Run::Refusals => text_of_refusals(alloc, scripts),
        Run::OwnCommits => text_of_commits(alloc, scripts),
        Run::Soak => String::from_str(alloc, "soak: 8 clients take 500 steps each"),
        Run::Measure(plan) => plan.text(alloc, scripts),
    }
}

/// What is told of the end of a run, where its desk is closed.
fn text_of_end<N: Naming, K: StateRepresentation, H: Threads + Wait + Drop + Sync>(
    rt: &H,
    alloc: Global,
    desk: Desk<N, K, H>,
    clients: Vec<Client<N, K>>,
    run: Run<'_>,
    scripts: &[Script],
) -> Result<String, AllocError>
    requires { N.clients ≡ N.parts }
{
    match run {
        Run::Refusals => text_of_closes(alloc, desk, clients),
        Run::Soak => text_of_walks(rt, alloc, desk, clients, scripts),
        _ => text_of_close(alloc, desk, clients),
    }
}

/// What is told of scripts, and of the end of their desk.
fn joined(
    alloc: Global,
    told: Result<String, AllocError>,
    end: Result<String, AllocError>,
) -> Result<String, AllocError> {
    let mut text = told?;
    let end = end?;
    text.push_str("; ")?;
    text.push_str(end.as_str())?;
    Ok(text)
}

/// What is told of a run whose clients have played, and of their desk's end.
fn text_of_played<N: Naming, K: StateRepresentation, H: Threads + Wait + Drop + Sync>(
    rt: &H,
    alloc: Global,
    desk: Desk<N, K, H>,
    played: Played<Client<N, K>>,
    run: Run<'_>,
) -> Result<String, AllocError>
    requires { N.clients ≡ N.parts }
{
    let Played { clients, scripts } = played;
    let end = text_of_end(rt, alloc, desk, clients, run, &scripts);
    joined(alloc, text_of_scripts(alloc, run, &scripts), end)
}

/// What is told of a run once its clients have played, and of their desk's end.
fn text_of_run<N: Naming, K: StateRepresentation, H: Threads + Wait + Drop + Sync>(
    rt: &H,
    alloc: Global,
    desk: Desk<N, K, H>,
    played: Result<Played<Client<N, K>>, AllocError>,
    run: Run<'_>,
) -> Result<String, AllocError>
    requires { N.clients ≡ N.parts }
{
    match played {
        Ok(played) => text_of_played(rt, alloc, desk, played, run),
        Err(fault) => Err(fault),
    }
}

/// The script of each client in a run, where there are so many.
fn scripts_of(alloc: Global, run: Run<'_>, count: u32) -> Result<Vec<Script>, AllocError> {
    let mut scripts = Vec::new(alloc);
    for before in 0..count {
        scripts.push(run.script(alloc, before + 1)?)?;
    }
    Ok(scripts)
}

/// What is told of a run with these scripts, on the new desk that has this name.
fn on_named_desk<N: Naming + Send + Sync, H: Threads + Wait + Clock + Copy + Drop + Send + Sync>(
    rt: H,
    alloc: Global,
    blank: Blank,
    archive: NewArchive<InShared>,
    first: Version<InShared>,
    scripts: Vec<Script>,
    run: Run<'_>,
    count: u32,
    most: u32,
) -> Result<String, AllocError>
    requires name { blank.name ≡ N.name }
    requires parts { blank.parts ≡ N.parts }
    requires book { archive.seen.book ≡ N.book }
    requires clients { (1 ≤ count) × (count ≤ 64) × (blank.parts ≡ count) × (N.clients ≡ count) }
    requires first { first ≡ opening_version first.graph }
    requires most { (1 ≤ most) × (most ≤ 2 ^ 16) }
    requires opening { N.opening ≡ opening first most }
{
    let (desk, clients) = start::<N, InShared, H>(rt, alloc, blank, archive, first, count, most)?;
    let played = play_all(&rt, alloc, &desk, &Signals::new(), clients, scripts);
    text_of_run(&rt, alloc, desk, played, run)
}

/// What is told of a run on a new desk.
pub(crate) fn on_new_desk<H: Threads + Wait + Clock + Copy + Drop + Send + Sync>(
    rt: H,
    alloc: Global,
    run: Run<'_>,
) -> Result<String, AllocError> {
    let count = run.clients();
    let most = run.most();
    let scripts = scripts_of(alloc, run, count)?;
    let first = opened::<InShared>(alloc, run.recording())?;
    let blank = Blank::new(u64::from(count));
    let archive = NewArchive::new();
    on_named_desk::<Brand, H>(rt, alloc, blank, archive, first, scripts, run, count, most)
}
