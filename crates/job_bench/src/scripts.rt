//! Scripts: the steps of people who look for the cause of a late reply, and of a program that tries every change.

use crate::names::push_name;
use crate::random::Random;
use crate::recordings::{Plan, Shape};
use std::alloc::{AllocError, Global};
use std::fmt::Write;

/// Sessions that are open at once.
const SESSIONS: u32 = 4;

/// Adds a step of a session about a stage, up to its further members.
pub(crate) fn push_about(
    text: &mut String,
    plan: &Plan,
    step: &str,
    session: u32,
    stage: u32,
) -> Result<(), AllocError> {
    write!(
        text,
        "{{\"do\":\"{step}\",\"session\":{session},\"stage\":\""
    )?;
    push_name(text, plan.seed, stage)?;
    text.push_str("\"")
}

/// Adds a report of the version at which a session stands, of a stage.
fn push_report(
    text: &mut String,
    plan: &Plan,
    session: u32,
    what: &str,
    stage: u32,
) -> Result<(), AllocError> {
    write!(
        text,
        "{{\"do\":\"report\",\"session\":{session},\"what\":\"{what}\",\"stage\":\""
    )?;
    push_name(text, plan.seed, stage)?;
    text.push_str("\"}\n")
}

/// A stage that few others come after: one of the last, or, in trees, any.
fn late_stage(plan: &Plan, random: &mut Random) -> u32 {
    match plan.shape {
        Shape::Trees => random.below(plan.stages),
        _ => plan
            .stages
            .saturating_sub(1)
            .saturating_sub(random.below(24)),
    }
}

/// What the steps of a script are.
#[derive(Clone, Copy, PartialEq, Eq)]
pub(crate) enum Steps {
    /// Three edits or undos to each report.
    WithReports,
    /// Edits and undos.
    EditsAlone,
}

/// Adds a report of a kind from 0 to 4.
fn push_asked(
    text: &mut String,
    plan: &Plan,
    session: u32,
    stage: u32,
    kind: u32,
) -> Result<(), AllocError> {
    match kind {
        0 => push_report(text, plan, session, "one", stage),
        1 => push_report(text, plan, session, "blame", stage),
        2 => push_report(text, plan, session, "path", stage),
        3 => write!(
            text,
            "{{\"do\":\"report\",\"session\":{session},\"what\":\"changes\"}}\n"
        ),
        _ => write!(
            text,
            "{{\"do\":\"report\",\"session\":{session},\"what\":\"drift\"}}\n"
        ),
    }
}

/// Adds an undo, a question for the head, or a small edit, of a kind from 0 to 14.
fn push_edit(
    text: &mut String,
    plan: &Plan,
    random: &mut Random,
    session: u32,
    stage: u32,
    kind: u32,
) -> Result<(), AllocError> {
    match kind {
        0 => write!(text, "{{\"do\":\"undo\",\"session\":{session}}}\n"),
        1 => write!(text, "{{\"do\":\"head\",\"session\":{session}}}\n"),
        2 => {
            push_about(text, plan, "pinResult", session, stage)?;
            write!(text, ",\"result\":{{\"value\":{}}}}}\n", random.below(1000))
        }
        3 => {
            push_about(text, plan, "pinResult", session, stage)?;
            text.push_str(",\"result\":{\"wrapped\":\"java.util.concurrent.TimeoutException\"}}\n")
        }
        4 => {
            push_about(text, plan, "pinMoment", session, stage)?;
            write!(text, ",\"at\":{}}}\n", random.below(100_000))
        }
        _ => {
            push_about(text, plan, "setTimes", session, stage)?;
            write!(
                text,
                ",\"queued\":{},\"runs\":{}}}\n",
                random.below(5),
                random.below(200)
            )
        }
    }
}

/// Adds a step.
fn push_step(
    text: &mut String,
    plan: &Plan,
    random: &mut Random,
    steps: Steps,
) -> Result<(), AllocError> {
    let session = 1 + random.below(SESSIONS);
    let stage = late_stage(plan, random);
    let kind = match steps {
        Steps::WithReports => random.below(20),
        Steps::EditsAlone => 5 + random.below(15),
    };
    match kind.checked_sub(5) {
        None => push_asked(text, plan, session, stage, kind),
        Some(edit) => push_edit(text, plan, random, session, stage, edit),
    }
}

/// The steps that open the sessions.
pub(crate) fn opened(alloc: Global) -> Result<String, AllocError> {
    let mut text = String::new(alloc);
    for session in 0..SESSIONS {
        write!(
            text,
            "{{\"do\":\"open\",\"session\":{},\"version\":0}}\n",
            session + 1
        )?;
    }
    Ok(text)
}

/// A script of so many small edits, with their reports among them, or alone and a report of all stages for each session.
pub(crate) fn small_edits(
    alloc: Global,
    plan: &Plan,
    steps: Steps,
    count: u32,
) -> Result<String, AllocError> {
    let mut random = Random::new(plan.seed ^ 0x5eed);
    let mut text = opened(alloc)?;
    for _ in 0..count {
        push_step(&mut text, plan, &mut random, steps)?;
    }
    if steps == Steps::EditsAlone {
        for session in 1..=SESSIONS {
            write!(
                text,
                "{{\"do\":\"report\",\"session\":{session},\"what\":\"all\"}}\n"
            )?;
        }
    }
    Ok(text)
}

/// A script of edits, each of which touches all that waits for the first stages, and of reports of all stages.
pub(crate) fn great_edits(alloc: Global, plan: &Plan, edits: u32) -> Result<String, AllocError> {
    let mut random = Random::new(plan.seed ^ 0xa11);
    let mut text = opened(alloc)?;
    for turn in 0..edits {
        push_about(&mut text, plan, "setTimes", 1, 0)?;
        write!(
            text,
            ",\"queued\":{},\"runs\":{}}}\n",
            turn % 3,
            11 + turn % 7 + random.below(40)
        )?;
        if turn % 8 == 7 {
            text.push_str("{\"do\":\"report\",\"session\":1,\"what\":\"all\"}\n")?;
            text.push_str("{\"do\":\"report\",\"session\":1,\"what\":\"drift\"}\n")?;
        }
        if turn % 8 == 3 {
            text.push_str("{\"do\":\"report\",\"session\":1,\"what\":\"times\"}\n")?;
            text.push_str("{\"do\":\"report\",\"session\":1,\"what\":\"changes\"}\n")?;
        }
    }
    Ok(text)
}
