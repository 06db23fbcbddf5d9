//! Evaluation from scratch: what is asked of a graph stage by stage.
use recording::read_recording;
use scratch_eval::{Answers, QueryFault, chain, dependents_of, evaluate};
use stage_graph::{Graph, Representation};
use stage_ops::{JavaOps, Meter};
use std::alloc::Global;
use std::process::Abort;
use std::test::Fail;
use test_kit::CHAIN;

/// The marker of this module's meters.
#[derive(Drop)]
struct Asked;

/// The rank of a stage, its dependents and its chain of blame.
fn stage_told<R: Representation>(
    alloc: Global,
    graph: &Graph<R>,
    answers: &Answers,
    place: u32,
) -> Result<String, Fail> {
    let rank = answers.rank(place)?;
    let its_dependents = dependents_of(alloc, graph, place)?;
    let blamed = chain(alloc, answers, place)?;
    let (its_dependents, blamed) = (its_dependents.as_slice(), blamed.as_slice());
    Ok(format!(in alloc; "{place} rank {rank} {its_dependents:?} blames {blamed:?};")?)
}

/// The same of each stage.
fn stages_told<R: Representation>(
    alloc: Global,
    graph: &Graph<R>,
    answers: &Answers,
) -> Result<String, Fail> {
    let mut text = String::new(alloc);
    for place in 0..graph.len() as u32 {
        text.push_str(stage_told(alloc, graph, answers, place)?.as_str())?;
    }
    Ok(text)
}

/// The same of each stage of a recording.
fn told<R: Representation>(alloc: Global, recording: &str) -> Result<String, Fail> {
    let graph = read_recording::<R>(alloc, recording.as_bytes())?;
    let answers = evaluate(alloc, &graph, &JavaOps, &mut Meter::new(Asked))?;
    stages_told(alloc, &graph, &answers)
}

fn compose_index<R: Representation>(rt: &impl Abort, alloc: Global) -> Result<(), Fail> {
    let text = told::<R>(
        alloc,
        r#"{"stages":[{"name":"s","op":"async","takes":2,"action":1},
        {"name":"i0","op":"async","takes":10,"action":7},
        {"name":"i1","op":"async","takes":1,"action":["throw","Z"]},
        {"name":"c","op":"thenCompose","sources":["s"],"inner":["i0","i1"],"takes":3,"action":["arg",0]}]}"#,
    )?;
    assert!(rt;
        text.as_str()
            == "0 rank 0 [3] blames [];1 rank 0 [3] blames [];2 rank 0 [3] blames [2];3 rank 1 [] blames [3, 2];"
    );
    Ok(())
}

/// Whether what is asked of a place where no stage stands is refused as such.
fn are_refused<R: Representation>(
    alloc: Global,
    graph: &Graph<R>,
    answers: &Answers,
    place: u32,
) -> bool {
    answers.rank(place).is_err()
        && matches!(
            &dependents_of(alloc, graph, place),
            Err(QueryFault::NoStage)
        )
        && matches!(&chain(alloc, answers, place), Err(QueryFault::NoStage))
}

fn no_stage<R: Representation>(rt: &impl Abort, alloc: Global) -> Result<(), Fail> {
    let graph = read_recording::<R>(alloc, CHAIN.as_bytes())?;
    let answers = evaluate(alloc, &graph, &JavaOps, &mut Meter::new(Asked))?;
    assert!(rt; are_refused(alloc, &graph, &answers, 3));
    assert!(rt; !are_refused(alloc, &graph, &answers, 2));
    Ok(())
}

/// What holds of evaluation from scratch.
pub(crate) fn hold<R: Representation, H: Abort>(rt: &H, alloc: Global) -> Result<(), Fail> {
    compose_index::<R>(rt, alloc)?;
    no_stage::<R>(rt, alloc)
}
