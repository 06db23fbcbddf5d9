//! Edits of graphs: the graph that a step makes, or its refusal.
ghost use Rattle.stage_graph.specs.Walk.{IsRanked};

use crate::edits::edits_of;
use recording::read_recording;
use stage_graph::{Fault, Graph, Refusal, Refused, Representation, Stage};
use std::alloc::{AllocError, Global};
use std::process::Abort;
use std::test::Fail;
use test_kit::{CHAIN, FIRST_RUN};

/// Writes places, with a space before each.
fn push_places(text: &mut String, alloc: Global, places: &[u32]) -> Result<(), Fail> {
    for place in places {
        text.push_str(format!(in alloc; " {place}")?.as_str())?;
    }
    Ok(())
}

/// Writes the name of a stage and the places of its feeds.
fn push_stage(text: &mut String, alloc: Global, stage: Option<&Stage>) -> Result<(), Fail> {
    let Some(stage) = stage else {
        text.push_str("-;")?;
        return Ok(());
    };
    text.push_str(stage.name.as_str())?;
    push_places(text, alloc, stage.sources.as_slice())?;
    push_places(text, alloc, stage.inner.as_slice())?;
    text.push_str(";")?;
    Ok(())
}

/// Each place of a graph: the name of its stage and the places of its feeds, or a dash.
fn drawn<R: Representation>(alloc: Global, graph: &Graph<R>) -> Result<String, Fail> {
    let mut text = String::new(alloc);
    for place in 0..graph.len() as u32 {
        push_stage(&mut text, alloc, graph.stage(place))?;
    }
    Ok(text)
}

/// A refusal: its number and name, its detail, and the index of its edit.
fn refusal_of(alloc: Global, refused: Refused) -> Result<String, Fail> {
    let (refusal, at) = (refused.refusal, refused.at);
    match refusal {
        Refusal::InUse(place) => Ok(format!(in alloc; "{refusal} {place} in {at}")?),
        _ => Ok(format!(in alloc; "{refusal} in {at}")?),
    }
}

/// Why edits are refused.
fn fault_of(alloc: Global, fault: Fault) -> Result<String, Fail> {
    match fault {
        Fault::Cycle(path) => {
            let mut text = String::from_str(alloc, "19 Cycle")?;
            push_places(&mut text, alloc, path.as_slice())?;
            Ok(text)
        }
        Fault::Refused(refused) => refusal_of(alloc, refused),
        Fault::Memory => Err(Fail::from(AllocError)),
    }
}

/// The graph that the edits of a step make, drawn, or why they are refused.
fn answer<R: Representation>(alloc: Global, graph: &Graph<R>, step: &str) -> Result<String, Fail>
    requires { IsRanked graph.now.places }
{
    let edits = edits_of(alloc, step)?;
    match graph.apply(alloc, &edits) {
        Ok(edited) => drawn(alloc, &edited),
        Err(fault) => fault_of(alloc, fault),
    }
}

/// Each step, alone on the graph, has its answer.
fn answered<R: Representation>(
    rt: &impl Abort,
    alloc: Global,
    graph: &Graph<R>,
    rows: &[(&str, &str)],
) -> Result<(), Fail>
    requires { IsRanked graph.now.places }
{
    for (step, wanted) in rows {
        let found = answer(alloc, graph, step)?;
        assert!(rt; found.as_str() == *wanted);
    }
    Ok(())
}

/// Whether the graph is that of the recording.
fn is_of<R: Representation>(
    alloc: Global,
    graph: &Graph<R>,
    recording: &str,
) -> Result<bool, Fail> {
    let same = read_recording::<R>(alloc, recording.as_bytes())?;
    Ok(graph.same(&same))
}

/// Each step, alone on the recording's graph, has its answer; and the graph stays as it was.
fn answers<R: Representation>(
    rt: &impl Abort,
    alloc: Global,
    recording: &str,
    rows: &[(&str, &str)],
) -> Result<(), Fail> {
    let graph = read_recording::<R>(alloc, recording.as_bytes())?;
    answered(rt, alloc, &graph, rows)?;
    assert!(rt; is_of(alloc, &graph, recording)?);
    Ok(())
}

fn cycle<R: Representation>(rt: &impl Abort, alloc: Global) -> Result<(), Fail> {
    let rows = [
        (
            r#"{"do":"rewire","session":1,"stage":"a","sources":["b"],"inner":[]}"#,
            "19 Cycle 1 2 1",
        ),
        (
            r#"{"do":"rewire","session":1,"stage":"a","sources":["a"],"inner":[]}"#,
            "19 Cycle 1 1",
        ),
    ];
    answers::<R>(rt, alloc, CHAIN, &rows)
}

fn edit_list_refusals<R: Representation>(rt: &impl Abort, alloc: Global) -> Result<(), Fail> {
    let rows = [
        (
            r#"{"do":"edits","session":1,"edits":[{"do":"add","new":{"name":"c","op":"thenApply","sources":["b"],"action":0}},
                {"do":"remove","stage":"b"}]}"#,
            "18 InUse 2 in 1",
        ),
        (
            r#"{"do":"edits","session":1,"edits":[{"do":"setTakes","stage":"a","takes":1},
                {"do":"setTakes","stage":"zz","takes":1}]}"#,
            "10 NoStage in 1",
        ),
        (
            r#"{"do":"edits","session":1,"edits":[{"do":"rewire","stage":"b","sources":["b"],"inner":[]},
                {"do":"remove","stage":"b"}]}"#,
            "18 InUse 1 in 1",
        ),
        (
            r#"{"do":"edits","session":1,"edits":[{"do":"add","new":{"name":"t","op":"manual"}},
                {"do":"remove","stage":"t"}]}"#,
            "a;b 0;-;",
        ),
    ];
    answers::<R>(rt, alloc, FIRST_RUN, &rows)
}

/// What holds of edits of graphs.
pub(crate) fn hold<R: Representation, H: Abort>(rt: &H, alloc: Global) -> Result<(), Fail> {
    cycle::<R>(rt, alloc)?;
    edit_list_refusals::<R>(rt, alloc)
}
