//! How long single edits of a graph take, and what the graphs that they leave cost to keep.
//!
//! `edit_bench KIND STAGES EDITS [keep]` makes a chain of so many stages, and then so many edits of
//! one kind, each on the graph that the last one left; with `keep` all graphs are kept to the end.
//! Without words it does nothing, so that the gate builds it and doesn't time it.
#![tactic(auto)]

use act_expr::{Expr, Form, Mode, Outcome, Value};
use anyhow::{Result, bail};
use stage_graph::{
    Act, Edit, Edits, End, Ends, Graph, InShared, Name, NameList, Op, Representation, Spec, Specs,
};
use std::alloc::{AllocError, Global};
use std::env;
use std::time::Instant;

/// Which edit is made.
#[derive(Clone, Copy)]
enum Kind {
    PinResult,
    PinMoment,
    SetTimes,
    SetAction,
    SetEnds,
    Rewire,
    Add,
    Remove,
}

impl Kind {
    fn named(word: &str) -> Option<Kind> {
        match word.as_bytes() {
            b"pin-result" => Some(Kind::PinResult),
            b"pin-moment" => Some(Kind::PinMoment),
            b"set-times" => Some(Kind::SetTimes),
            b"set-action" => Some(Kind::SetAction),
            b"set-ends" => Some(Kind::SetEnds),
            b"rewire" => Some(Kind::Rewire),
            b"add" => Some(Kind::Add),
            b"remove" => Some(Kind::Remove),
            _ => None,
        }
    }
}

/// The name of the stage of a number.
fn name(alloc: Global, number: u32) -> Result<Name, AllocError> {
    let text = format!(in alloc; "s{number}")?;
    Name::new(alloc, text.as_str())
}

fn names(alloc: Global, number: u32) -> Result<NameList, AllocError> {
    let mut list = NameList::new(alloc);
    list.push(name(alloc, number)?)?;
    Ok(list)
}

/// A stage that waits for the one before it; the first waits for none.
fn spec(alloc: Global, number: u32, source: Option<u32>) -> Result<Spec, AllocError> {
    let sources = match source {
        Some(source) => names(alloc, source)?,
        None => NameList::new(alloc),
    };
    Ok(Spec {
        name: name(alloc, number)?,
        op: if source.is_some() {
            Op::ThenApply
        } else {
            Op::Async
        },
        sources,
        inner: NameList::new(alloc),
        created: 0,
        queued: 0,
        runs: 1,
        action: Some(Expr::new(alloc, Form::Literal(Value::Null))?),
        pin_result: None,
        pin_moment: None,
        ends: Ends::new(alloc),
    })
}

fn chain(alloc: Global, stages: u32) -> Result<Specs, AllocError> {
    let mut specs = Specs::new(alloc);
    for number in 0..stages {
        let source = if number == 0 { None } else { Some(number - 1) };
        specs.push(spec(alloc, number, source)?)?;
    }
    Ok(specs)
}

fn ends(alloc: Global, at: u64) -> Result<Ends, AllocError> {
    let mut ends = Ends::new(alloc);
    ends.push(End {
        at,
        act: Act::Cancel,
    })?;
    Ok(ends)
}

/// The edit of a turn: of some stage of the chain, or of the last one.
fn edit(alloc: Global, kind: Kind, stages: u32, turn: u32) -> Result<Edit, AllocError> {
    let number = turn.wrapping_mul(2_654_435_761) % stages.max(1);
    let ticks = u64::from(turn % 1000);
    Ok(match kind {
        Kind::PinResult => Edit::PinResult {
            name: name(alloc, number)?,
            result: Some(Outcome::Value(Value::Num(i64::from(turn)))),
        },
        Kind::PinMoment => Edit::PinMoment {
            name: name(alloc, number)?,
            moment: Some(ticks),
        },
        Kind::SetTimes => Edit::SetTimes {
            name: name(alloc, number)?,
            queued: 0,
            runs: ticks,
        },
        Kind::SetAction => Edit::SetAction {
            name: name(alloc, number)?,
            action: Expr::new(alloc, Form::Literal(Value::Num(i64::from(turn))))?,
        },
        Kind::SetEnds => Edit::SetEnds {
            name: name(alloc, number)?,
            ends: ends(alloc, ticks)?,
        },
        Kind::Rewire => Edit::Rewire {
            name: name(alloc, stages.saturating_sub(1))?,
            sources: names(alloc, number / 2)?,
            inner: NameList::new(alloc),
        },
        Kind::Add => Edit::Add(spec(alloc, stages.saturating_add(turn), Some(0))?),
        Kind::Remove => Edit::Remove(name(alloc, stages.saturating_sub(turn).saturating_sub(1))?),
    })
}

/// The graph that an edit of a graph leaves.
fn edited<R: Representation>(alloc: Global, graph: &Graph<R>, edit: Edit) -> Result<Graph<R>> {
    let edits = Edits::one(alloc, edit)?;
    match graph.change(alloc, &edits) {
        Ok(graph) => Ok(graph),
        Err(_) => bail!("an edit was refused"),
    }
}

/// What is measured.
#[derive(Clone, Copy)]
struct Plan {
    kind: Kind,
    stages: u32,
    edits: u32,
    keep: bool,
}

/// The graph of a chain of so many stages.
fn loaded<R: Representation>(alloc: Global, stages: u32) -> Result<Graph<R>> {
    match Graph::load(alloc, Mode::Computed, &chain(alloc, stages)?) {
        Ok(graph) => Ok(graph),
        Err(_) => bail!("the chain was refused"),
    }
}

/// The graph that the plan's edits leave, one after the other; those before it are kept if the plan says so.
fn edit_all<R: Representation>(
    alloc: Global,
    plan: Plan,
    graph: Graph<R>,
    kept: &mut Vec<Graph<R>>,
) -> Result<Graph<R>> {
    let mut graph = graph;
    for turn in 0..plan.edits {
        let next = edited(alloc, &graph, edit(alloc, plan.kind, plan.stages, turn)?)?;
        if plan.keep {
            kept.push(graph)?;
        }
        graph = next;
    }
    Ok(graph)
}

fn measure<R: Representation>(rt: &HostRuntime, plan: Plan) -> Result<()> {
    let mut kept = Vec::new(rt.alloc());
    let start = Instant::now(rt)?;
    let graph: Graph<R> = loaded(rt.alloc(), plan.stages)?;
    let loaded = start.elapsed(rt)?.as_micros();
    let start = Instant::now(rt)?;
    let graph = edit_all(rt.alloc(), plan, graph, &mut kept)?;
    let took = start.elapsed(rt)?.as_micros();
    let (stages, edits, places) = (plan.stages, plan.edits, graph.len());
    println!(rt;
        "{stages} stages loaded in {loaded} us, {edits} edits in {took} us, {places} places"
    )?;
    Ok(())
}

fn main(rt: HostRuntime) -> Result<()> {
    let mut words = env::args(&rt)?;
    let _program = words.next();
    let Some(kind) = words.next() else {
        return Ok(());
    };
    let Some(kind) = Kind::named(kind.as_str()) else {
        bail!("no such kind of edit");
    };
    let (Some(stages), Some(edits)) = (words.next(), words.next()) else {
        bail!("how many stages, and how many edits?");
    };
    let plan = Plan {
        kind,
        stages: stages.parse()?,
        edits: edits.parse()?,
        keep: words.next().is_some(),
    };
    measure::<InShared>(&rt, plan)
}
