//! Lists of edits, one after the other, by operations that record which stages they compute.
ghost use Rattle.std.specs.Prelude.{◌≡◌, IfOk};
ghost use Rattle.stage_graph.specs.Walk.{IsRanked};
ghost use Rattle.stage_ops.specs.Java.{java_step};
ghost use Rattle.stage_ops.specs.JavaLaws.{java_reads_decide, java_blames_read, java_soon};
ghost use Rattle.propagate.specs.Reach.{AreStates};

use crate::edits::edits_of;
use act_expr::Mode;
use level_pool::OneThread;
use propagate::{Old, Patched, StateRepresentation, States, propagate};
use rank_order::Order;
use recording::read_recording;
use scratch_eval::evaluate;
use share_tree::Held;
use stage_graph::{Edits, Fault, Graph, Stage};
use stage_ops::{JavaOps, Look, Meter, Pass, StageOps, State};
use std::alloc::{AllocError, Global};
use std::process::Abort;
use std::sync::atomic::{AtomicU64, Ordering};
use std::test::Fail;
use std::thread::Threads;
use test_kit::{CHAIN, COMPOSE_PICKS, FIRST_RUN, REWIRE_A, REWIRED};

/// The marker of the meters that count the computed stages.
#[derive(Drop)]
struct Computed;

/// The operations of a completion stage, which record the places of the first eight stages that they compute.
#[derive(Drop)]
struct Recorder {
    count: AtomicU64,
    places: Vec<AtomicU64>,
}

impl Recorder {
    fn new(alloc: Global) -> Result<Recorder, AllocError> {
        let mut places = Vec::new(alloc);
        for _place in 0..8 {
            places.push(AtomicU64::new(0))?;
        }
        Ok(Recorder {
            count: AtomicU64::new(0),
            places,
        })
    }

    /// Keeps one more place.
    fn record(&self, place: u32) {
        let turn = self.count.fetch_add(1, Ordering::SeqCst);
        if let Some(kept) = self.places.get(turn as usize) {
            kept.store(u64::from(place), Ordering::SeqCst);
        }
    }

    /// The stages at these places were computed, each once, in this order, and no others.
    fn is_just(&self, places: &[u32]) -> bool {
        let mut kept = self.places.iter().zip(places);
        self.count.load(Ordering::SeqCst) == places.len() as u64
            && kept.all(|(kept, place)| kept.load(Ordering::SeqCst) == u64::from(*place))
    }
}

impl<N> StageOps<N> for Recorder {
    ghost step = { λ _ops. java_step };

    fn compute<L: Look>(&self, mode: Mode, stage: &Stage, pass: &Pass<N>, look: &L) -> State {
        self.record(stage.place);
        JavaOps.compute(mode, stage, pass, look)
    }

    ghost reads_decide = { λ _ops. java_reads_decide };

    ghost blames_read = { λ _ops. java_blames_read };

    ghost soon = { λ _ops. java_soon };
}

/// The states of a graph, from scratch.
fn states_of<R: StateRepresentation>(
    alloc: Global,
    graph: &Graph<R>,
) -> Result<States<R>, AllocError>
    requires { IsRanked graph.now.places }
    ensures { IfOk result (AreStates (java_step graph.now.mode) graph.now.places) }
{
    let answers = evaluate(alloc, graph, &JavaOps, &mut Meter::new(Computed))?;
    States::from_answers(alloc, graph, &answers)
}

/// A graph with its states, and its order.
fn placed<R: StateRepresentation>(
    alloc: Global,
    graph: Graph<R>,
    states: States<R>,
) -> Result<Patched<R>, AllocError>
    requires ranked { IsRanked graph.places }
    requires states { AreStates (java_step graph.mode) graph.places states }
    ensures ranked { IfOk result (λ patched. IsRanked patched.graph.places) }
    ensures order { IfOk result (λ patched. patched.order.graph ≡ patched.graph) }
    ensures states { IfOk result (λ patched. AreStates (java_step patched.graph.mode) patched.graph.places patched.states) }
{
    let graph = Held::new(alloc, graph)?;
    let order = Order::build(alloc, &graph)?;
    Ok(Patched {
        graph,
        order,
        states,
        touched: Vec::new(alloc),
    })
}

/// The graph of a recording with its order and its states, all from scratch.
fn evaluated<R: StateRepresentation>(alloc: Global, recording: &str) -> Result<Patched<R>, Fail>
    ensures ranked { IfOk result (λ patched. IsRanked patched.graph.places) }
    ensures order { IfOk result (λ patched. patched.order.graph ≡ patched.graph) }
    ensures states { IfOk result (λ patched. AreStates (java_step patched.graph.mode) patched.graph.places patched.states) }
{
    let graph = read_recording::<R>(alloc, recording.as_bytes())?;
    let states = states_of(alloc, &graph)?;
    Ok(placed(alloc, graph, states)?)
}

/// The computed stages are the touched ones; none is computed where the edits are refused.
fn are_computed<R: StateRepresentation>(
    rt: &impl Abort,
    recorder: &Recorder,
    count: u64,
    answer: &Result<Patched<R>, Fault>,
) {
    let touched = match answer {
        Ok(patched) => patched.touched.as_slice(),
        Err(_) => &[],
    };
    assert!(rt; recorder.is_just(touched));
    assert!(rt; count == touched.len() as u64);
}

/// What edits make of a graph. The computed stages are the touched ones; none is computed where the edits are refused.
fn edited<R: StateRepresentation, H: Abort + Threads + Sync>(
    rt: &H,
    alloc: Global,
    old: &Patched<R>,
    edits: &Edits,
) -> Result<Patched<R>, Fault>
    requires ranked { IsRanked old.now.graph.places }
    requires order { old.now.order.graph ≡ old.now.graph }
    requires states { AreStates (java_step old.now.graph.mode) old.now.graph.places old.now.states }
    ensures ranked { IfOk result (λ patched. IsRanked patched.graph.places) }
    ensures order { IfOk result (λ patched. patched.order.graph ≡ patched.graph) }
    ensures states { IfOk result (λ patched. AreStates (java_step patched.graph.mode) patched.graph.places patched.states) }
{
    let recorder = Recorder::new(alloc)?;
    let mut meter = Meter::new(Computed);
    let before = Old {
        graph: &old.graph,
        order: &old.order,
        states: &old.states,
    };
    let runner = OneThread::new(rt);
    let answer = propagate(alloc, before, edits, &recorder, &runner, &mut meter);
    are_computed(rt, &recorder, meter.count(), &answer);
    answer
}

/// What a step makes of a graph, where it touches the stages at these places.
fn touched_by<R: StateRepresentation, H: Abort + Threads + Sync>(
    rt: &H,
    alloc: Global,
    old: &Patched<R>,
    step: &str,
    touched: &[u32],
) -> Result<Patched<R>, Fail>
    requires ranked { IsRanked old.now.graph.places }
    requires order { old.now.order.graph ≡ old.now.graph }
    requires states { AreStates (java_step old.now.graph.mode) old.now.graph.places old.now.states }
    ensures ranked { IfOk result (λ patched. IsRanked patched.graph.places) }
    ensures order { IfOk result (λ patched. patched.order.graph ≡ patched.graph) }
    ensures states { IfOk result (λ patched. AreStates (java_step patched.graph.mode) patched.graph.places patched.states) }
{
    let edits = edits_of(alloc, step)?;
    let new = edited(rt, alloc, old, &edits)?;
    assert!(rt; new.touched.as_slice() == touched);
    Ok(new)
}

/// The steps, each on the graph that the one before left, touch the stages at these places.
fn touch<R: StateRepresentation, H: Abort + Threads + Sync>(
    rt: &H,
    alloc: Global,
    old: &Patched<R>,
    rows: &[(&str, &[u32])],
) -> Result<(), Fail>
    requires ranked { IsRanked old.now.graph.places }
    requires order { old.now.order.graph ≡ old.now.graph }
    requires states { AreStates (java_step old.now.graph.mode) old.now.graph.places old.now.states }
{
    let [(step, touched), others @ ..] = rows else {
        return Ok(());
    };
    let new = touched_by(rt, alloc, old, step, touched)?;
    touch(rt, alloc, &new, others)
}

/// The same of steps on the graph of a recording.
fn touches<R: StateRepresentation, H: Abort + Threads + Sync>(
    rt: &H,
    alloc: Global,
    recording: &str,
    rows: &[(&str, &[u32])],
) -> Result<(), Fail> {
    let first: Patched<R> = evaluated(alloc, recording)?;
    touch(rt, alloc, &first, rows)
}

fn pin_bare<R: StateRepresentation, H: Abort + Threads + Sync>(
    rt: &H,
    alloc: Global,
) -> Result<(), Fail> {
    let rows: [(&str, &[u32]); 4] = [
        (
            r#"{"do":"pinResult","session":1,"stage":"a","result":{"bare":"X"}}"#,
            &[0, 1],
        ),
        (
            r#"{"do":"add","session":1,"new":{"name":"c","op":"thenRun","sources":["b"],"takes":7,"action":0}}"#,
            &[2],
        ),
        (
            r#"{"do":"setTakes","session":1,"stage":"b","takes":9}"#,
            &[1],
        ),
        (
            r#"{"do":"pinResult","session":1,"stage":"a","result":null}"#,
            &[0, 1, 2],
        ),
    ];
    touches::<R, H>(rt, alloc, FIRST_RUN, &rows)
}

fn compose_picks<R: StateRepresentation, H: Abort + Threads + Sync>(
    rt: &H,
    alloc: Global,
) -> Result<(), Fail> {
    let rows: [(&str, &[u32]); 3] = [
        (
            r#"{"do":"setTakes","session":1,"stage":"i1","takes":4}"#,
            &[2],
        ),
        (
            r#"{"do":"setAction","session":1,"stage":"s","action":1}"#,
            &[0, 3],
        ),
        (
            r#"{"do":"setTakes","session":1,"stage":"i1","takes":6}"#,
            &[2, 3],
        ),
    ];
    touches::<R, H>(rt, alloc, COMPOSE_PICKS, &rows)
}

fn rewire_propagates<R: StateRepresentation, H: Abort + Threads + Sync>(
    rt: &H,
    alloc: Global,
) -> Result<(), Fail> {
    let rows: [(&str, &[u32]); 1] = [(REWIRE_A, &[3, 4, 5])];
    touches::<R, H>(rt, alloc, REWIRED, &rows)
}

/// The cycle for which edits are refused.
fn path_of(alloc: Global, fault: Fault) -> Result<Vec<u32>, Fail> {
    match fault {
        Fault::Cycle(path) => Ok(Vec::from_slice(alloc, path.as_slice())?),
        _ => Err(Fail::from("no cycle is closed")),
    }
}

/// The cycle that a step closes on a graph.
fn closed_cycle<R: StateRepresentation, H: Abort + Threads + Sync>(
    rt: &H,
    alloc: Global,
    old: &Patched<R>,
    step: &str,
) -> Result<Vec<u32>, Fail>
    requires ranked { IsRanked old.now.graph.places }
    requires order { old.now.order.graph ≡ old.now.graph }
    requires states { AreStates (java_step old.now.graph.mode) old.now.graph.places old.now.states }
{
    let edits = edits_of(alloc, step)?;
    match edited(rt, alloc, old, &edits) {
        Ok(_) => Err(Fail::from("no cycle is closed")),
        Err(fault) => path_of(alloc, fault),
    }
}

/// The cycle that a step closes on a recording's graph.
fn cycle_of<R: StateRepresentation, H: Abort + Threads + Sync>(
    rt: &H,
    alloc: Global,
    recording: &str,
    step: &str,
) -> Result<Vec<u32>, Fail> {
    let first: Patched<R> = evaluated(alloc, recording)?;
    closed_cycle(rt, alloc, &first, step)
}

fn cycle<R: StateRepresentation, H: Abort + Threads + Sync>(
    rt: &H,
    alloc: Global,
) -> Result<(), Fail> {
    let onto_b = r#"{"do":"rewire","session":1,"stage":"a","sources":["b"],"inner":[]}"#;
    let path = cycle_of::<R, H>(rt, alloc, CHAIN, onto_b)?;
    assert!(rt; path.as_slice() == [1, 2, 1].as_slice());
    Ok(())
}

/// What holds of propagation.
pub(crate) fn hold<R: StateRepresentation, H: Abort + Threads + Sync>(
    rt: &H,
    alloc: Global,
) -> Result<(), Fail> {
    pin_bare::<R, H>(rt, alloc)?;
    compose_picks::<R, H>(rt, alloc)?;
    rewire_propagates::<R, H>(rt, alloc)?;
    cycle::<R, H>(rt, alloc)
}
