//! How long a draft of a version takes, against evaluation of its graph from scratch.
//!
//! `draft_bench FILE EDITS STAGE..` loads the recording, and then makes so many versions, each a draft of the last one by
//! one list of edits, which sets how long each of the named stages runs. Without words it does nothing, so that the gate
//! builds it and doesn't time it.
#![tactic(auto)]

ghost use Rattle.std.specs.Prelude.{IfOk};
ghost use Rattle.stage_graph.specs.Walk.{IsRanked};

use anyhow::{Result, bail};
use level_pool::{OneThread, Runner};
use recording::read_recording;
use scratch_eval::evaluate;
use share_tree::Held;
use stage_graph::{Edit, Edits, Graph, InShared, Name};
use stage_ops::{JavaOps, Meter};
use std::alloc::Global;
use std::env;
use std::fs::File;
use std::io::Read;
use std::thread::Threads;
use std::time::{Clock, Instant};
use version_store::{StateRepresentation, Version};

/// The marker of this program's meters.
#[derive(Drop)]
struct Measured;

/// What is measured.
#[derive(Drop)]
struct Plan {
    path: String,
    edits: u32,
    stages: Vec<String>,
}

/// The graph of a recording.
fn read<R: StateRepresentation>(alloc: Global, recording: &[u8]) -> Result<Graph<R>>
    ensures { IfOk result (λ graph. IsRanked graph.places) }
{
    match read_recording(alloc, recording) {
        Ok(graph) => Ok(graph),
        Err(fault) => bail!("{fault}"),
    }
}

/// The edit of a turn that sets how long a stage runs.
fn edit(alloc: Global, stage: &String, turn: u32) -> Result<Edit> {
    Ok(Edit::SetTimes {
        name: Name::new(alloc, stage.as_str())?,
        queued: 0,
        runs: 20 + u64::from(turn % 5),
    })
}

/// The list of edits of a turn.
fn edits(alloc: Global, stages: &[String], turn: u32) -> Result<Held<Edits>> {
    let mut edits = Vec::new(alloc);
    for stage in stages {
        edits.push(edit(alloc, stage, turn)?)?;
    }
    match Edits::new(edits) {
        Ok(edits) => Ok(Held::new(alloc, edits)?),
        Err(_) => bail!("name 1 to 64 stages"),
    }
}

/// The version that a list of edits makes of another.
fn drafted<R: StateRepresentation, W: Runner>(
    alloc: Global,
    runner: &W,
    version: &Version<R>,
    number: u32,
    edits: &Held<Edits>,
) -> Result<Version<R>> {
    let mut meter = Meter::new(Measured);
    let draft = version.draft(alloc, edits, runner, &mut meter)?;
    Ok(draft.numbered(number)?)
}

/// The version that the edits of a turn make of another.
fn drafted_in<R: StateRepresentation, W: Runner>(
    alloc: Global,
    runner: &W,
    version: &Version<R>,
    stages: &[String],
    turn: u32,
) -> Result<Version<R>> {
    let edits = edits(alloc, stages, turn)?;
    drafted(alloc, runner, version, turn, &edits)
}

/// How many stages the last of the plan's drafts touches, each of which is a draft of the version that the last one made.
fn draft_all<R: StateRepresentation, W: Runner>(
    alloc: Global,
    runner: &W,
    plan: &Plan,
    first: Version<R>,
) -> Result<usize> {
    let mut last = first;
    for turn in 0..plan.edits {
        last = drafted_in(alloc, runner, &last, plan.stages.as_slice(), turn)?;
    }
    Ok(last.touched().len())
}

/// The moment by the clock.
fn now(clock: &impl Clock) -> Option<Instant> {
    Instant::now(clock).ok()
}

/// The microseconds since a moment.
fn micros_since(clock: &impl Clock, start: Option<Instant>) -> u128 {
    match start.and_then(|start| start.elapsed(clock).ok()) {
        Some(took) => took.as_micros(),
        None => 0,
    }
}

/// The microseconds of one evaluation of the graph from scratch.
fn evaluated<R: StateRepresentation, H: Clock>(
    rt: &H,
    alloc: Global,
    graph: &Graph<R>,
) -> Result<u128>
    requires { IsRanked graph.now.places }
{
    let start = now(rt);
    let mut meter = Meter::new(Measured);
    let _answers = evaluate(alloc, graph, &JavaOps, &mut meter)?;
    Ok(micros_since(rt, start))
}

/// Version 0 of a graph, and the microseconds that it took.
fn loaded<R: StateRepresentation, H: Clock>(
    rt: &H,
    alloc: Global,
    graph: Graph<R>,
) -> Result<(Version<R>, u128)>
    requires { IsRanked graph.places }
{
    let start = now(rt);
    let version = Version::load(alloc, graph)?;
    Ok((version, micros_since(rt, start)))
}

/// What was measured: microseconds, and how many stages the last draft touches.
#[derive(Clone, Copy)]
struct Times {
    loading: u128,
    touched: usize,
    drafts: u128,
}

/// What loading a graph and the plan's drafts take.
fn timed<R: StateRepresentation, W: Runner, H: Clock>(
    rt: &H,
    alloc: Global,
    runner: &W,
    graph: Graph<R>,
    plan: &Plan,
) -> Result<Times>
    requires { IsRanked graph.places }
{
    let (version, loading) = loaded(rt, alloc, graph)?;
    let start = now(rt);
    let touched = draft_all(alloc, runner, plan, version)?;
    Ok(Times {
        loading,
        touched,
        drafts: micros_since(rt, start),
    })
}

/// The line of what was measured of a recording.
fn line_of<R: StateRepresentation, W: Runner, H: Clock>(
    rt: &H,
    alloc: Global,
    runner: &W,
    recording: &[u8],
    plan: &Plan,
) -> Result<String> {
    let graph: Graph<R> = read(alloc, recording)?;
    let stages = graph.len();
    let scratch = evaluated(rt, alloc, &graph)?;
    let Times {
        loading,
        touched,
        drafts,
    } = timed(rt, alloc, runner, graph, plan)?;
    Ok(format!(in alloc;
        "{stages} stages: from scratch {scratch} us, version 0 {loading} us, {} drafts of {touched} touched {drafts} us",
        plan.edits
    )?)
}

/// The line of what was measured of a recording, with shared lists and in one thread.
fn shared_line<H: Threads + Clock + Sync>(
    rt: &H,
    alloc: Global,
    recording: &[u8],
    plan: &Plan,
) -> Result<String> {
    line_of::<InShared, OneThread<H>, H>(rt, alloc, &OneThread::new(rt), recording, plan)
}

/// The plan of the words behind the name of the program, if there are any.
fn plan_of(alloc: Global, words: Vec<String>) -> Result<Option<Plan>> {
    let mut words = words.into_iter();
    let (Some(path), Some(edits)) = (words.next(), words.next()) else {
        return Ok(None);
    };
    Ok(Some(Plan {
        edits: edits.parse()?,
        path,
        stages: words.collect(alloc)?,
    }))
}

fn main(rt: HostRuntime) -> Result<()> {
    let words = env::args(&rt)?.skip(1).collect(rt.alloc())?;
    let Some(plan) = plan_of(rt.alloc(), words)? else {
        return Ok(());
    };
    let mut recording = Vec::new(rt.alloc());
    File::open(&rt, plan.path.as_str())?.read_to_end(&mut recording)?;
    let line = shared_line(&rt, rt.alloc(), &recording, &plan)?;
    println!(rt; "{line}")?;
    Ok(())
}
