//! Recordings and steps that are read. The faults that are found stand in `tools/trial`, for the built program.
use act_expr::{Answer, Args, Mode, Outcome, Value};
use recording::{Asked, Step, Subject, read_recording, read_step};
use stage_graph::{Act, Edit, Op, Representation, Stage};
use std::alloc::Global;
use std::process::Abort;
use std::test::Fail;

/// Two stages, of which the second adds 1 to what the first gives.
const FIRST_RUN: &str =
    r#"{"stages":[{"name":"a","op":"supplyAsync","takes":10,"action":4},{"name":"b","op":"thenApplyAsync","sources":["a"],"takes":5,"action":["add",["arg",0],1]}]}"#;

/// How a recording's exceptions count, and how many places it has.
fn size<R: Representation>(alloc: Global, recording: &[u8]) -> Result<(Mode, usize), Fail> {
    let graph = read_recording::<R>(alloc, recording)?;
    Ok((graph.mode(), graph.len()))
}

/// What the action of a stage gives to a number.
fn given(stage: &Stage, number: i64) -> Option<Answer> {
    let args = Args {
        first: Value::Num(number),
        second: Value::Null,
        failure: None,
    };
    stage.action.as_ref().map(|action| action.eval(&args))
}

/// Whether a stage is the second one of `FIRST_RUN`.
fn is_second(stage: &Stage) -> bool {
    stage.name.as_str() == "b"
        && stage.op == Op::ThenApply
        && stage.sources.as_slice() == [0_u32].as_slice()
        && (stage.queued, stage.runs) == (0, 5)
        && given(stage, 4) == Some(Answer::Gives(Value::Num(5)))
}

/// Whether the second stage of a recording is that of `FIRST_RUN`.
fn has_second<R: Representation>(alloc: Global, recording: &[u8]) -> Result<bool, Fail> {
    let graph = read_recording::<R>(alloc, recording)?;
    match graph.stage(1) {
        Some(stage) => Ok(is_second(stage)),
        None => Ok(false),
    }
}

fn first_run<R: Representation>(rt: &impl Abort, alloc: Global) -> Result<(), Fail> {
    let bytes = FIRST_RUN.as_bytes();
    assert!(rt; size::<R>(alloc, bytes)? == (Mode::Computed, 2));
    assert!(rt; has_second::<R>(alloc, bytes)?);
    Ok(())
}

/// For how many ticks the first stage of a recording is queued and runs.
fn first_times<R: Representation>(
    alloc: Global,
    recording: &[u8],
) -> Result<Option<(u64, u64)>, Fail> {
    let graph = read_recording::<R>(alloc, recording)?;
    match graph.stage(0) {
        Some(stage) => Ok(Some((stage.queued, stage.runs))),
        None => Ok(None),
    }
}

fn times_of_both_forms<R: Representation>(rt: &impl Abort, alloc: Global) -> Result<(), Fail> {
    let first =
        br#"{"form":1,"stages":[{"name":"a","op":"async","queued":-1,"runs":null,"takes":7,"action":4}]}"#;
    let second =
        br#"{"form":2,"stages":[{"name":"a","op":"async","queued":2,"runs":3,"action":4}]}"#;
    assert!(rt; first_times::<R>(alloc, first)? == Some((0, 7)));
    assert!(rt; first_times::<R>(alloc, second)? == Some((2, 3)));
    Ok(())
}

/// Whether a stage is pinned to null and has the two ends of `pins_and_ends`.
fn is_pinned_and_ended(stage: &Stage) -> bool {
    let [cancel, timeout] = stage.ends.as_slice() else {
        return false;
    };
    let act = Act::CompleteOnTimeout {
        delay: 3,
        value: Value::Num(8),
    };
    stage.pin_result == Some(Outcome::Value(Value::Null))
        && stage.pin_moment.is_none()
        && cancel.act == Act::Cancel
        && timeout.act == act
}

/// Whether the first stage of a recording is pinned and ended so.
fn has_pinned_and_ended<R: Representation>(alloc: Global, recording: &[u8]) -> Result<bool, Fail> {
    let graph = read_recording::<R>(alloc, recording)?;
    match graph.stage(0) {
        Some(stage) => Ok(is_pinned_and_ended(stage)),
        None => Ok(false),
    }
}

fn pins_and_ends<R: Representation>(rt: &impl Abort, alloc: Global) -> Result<(), Fail> {
    let text = br#"{"wrap":"literal","stages":[{"name":"m","op":"manual","pinResult":{"value":null},
        "pinMoment":null,"ends":[{"at":3,"do":"cancel","delay":true},{"at":0,"do":"completeOnTimeout","delay":3,"value":8}]}]}"#;
    assert!(rt; size::<R>(alloc, text)? == (Mode::Literal, 1));
    assert!(rt; has_pinned_and_ended::<R>(alloc, text)?);
    Ok(())
}

/// What holds of recordings.
pub(crate) fn hold<R: Representation, H: Abort>(rt: &H, alloc: Global) -> Result<(), Fail> {
    first_run::<R>(rt, alloc)?;
    times_of_both_forms::<R>(rt, alloc)?;
    pins_and_ends::<R>(rt, alloc)
}

/// Whether the only edit has the stage `a` take 20 ticks.
fn sets_takes(edits: &[Edit]) -> bool {
    let [Edit::SetTimes { name, queued, runs }] = edits else {
        return false;
    };
    name.as_str() == "a" && (*queued, *runs) == (0, 20)
}

/// Whether a step is that change of version 0.
fn is_change(step: &Step) -> bool {
    let Step::Change {
        session,
        base,
        edits,
        listed,
    } = step
    else {
        return false;
    };
    (*session, *base, *listed) == (1, Some(0), false) && sets_takes(edits.as_slice())
}

/// Whether a step asks whom the stage `a` of version 2 blames.
fn is_blame(step: &Step) -> bool {
    let Step::Report {
        subject: Subject::Version(2),
        asked: Asked::Blame(name),
    } = step
    else {
        return false;
    };
    name.as_str() == "a"
}

#[test]
fn steps(rt: HostRuntime) -> Result<(), Fail> {
    let takes = br#"{"do":"setTakes","session":1,"base":0,"stage":"a","takes":20}"#;
    assert!(rt; is_change(&read_step(rt.alloc(), takes)?));
    let blame = br#"{"do":"report","version":2,"what":"blame","stage":"\u0061"}"#;
    assert!(rt; is_blame(&read_step(rt.alloc(), blame)?));
    Ok(())
}

/// Whether the edits are the three of `listed_edits`.
fn are_three(edits: &[Edit]) -> bool {
    let [
        Edit::PinResult { result, .. },
        Edit::Add(spec),
        Edit::Rewire { sources, inner, .. },
    ] = edits
    else {
        return false;
    };
    result.is_none()
        && (spec.queued, spec.runs) == (0, 7)
        && (sources.as_slice().len(), inner.as_slice().len()) == (2, 1)
}

/// Whether a step is a list of these edits.
fn is_list(step: &Step) -> bool {
    let Step::Change {
        edits,
        listed: true,
        ..
    } = step
    else {
        return false;
    };
    are_three(edits.as_slice())
}

#[test]
fn listed_edits(rt: HostRuntime) -> Result<(), Fail> {
    let text = br#"{"do":"edits","session":1,"edits":[
        {"do":"pinResult","stage":"b","result":null,"session":"ignored","base":null},
        {"do":"add","new":{"name":"c","op":"async","runs":7,"action":0}},
        {"do":"rewire","stage":"h","sources":["a","b"],"inner":["c"]}]}"#;
    assert!(rt; is_list(&read_step(rt.alloc(), text)?));
    Ok(())
}
