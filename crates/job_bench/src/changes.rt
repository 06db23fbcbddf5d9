//! Scripts that change what waits for what, and those of what many wait for. Each ends with a report of all stages.

use crate::joins::{HUBS, ROOTS, Range, joined, push_range};
use crate::names::push_name;
use crate::random::Random;
use crate::recordings::Plan;
use crate::scripts::{opened, push_about};
use std::alloc::{AllocError, Global};
use std::fmt::Write;

/// Adds a report of all stages of the version at which the first session stands.
fn push_all(text: &mut String) -> Result<(), AllocError> {
    text.push_str("{\"do\":\"report\",\"session\":1,\"what\":\"all\"}\n")
}

/// A script that sets by turns how long the first stage takes.
pub(crate) fn source_edits(alloc: Global, plan: &Plan, edits: u32) -> Result<String, AllocError> {
    let mut text = opened(alloc)?;
    for turn in 0..edits {
        push_about(&mut text, plan, "setTakes", 1, 0)?;
        write!(text, ",\"takes\":{}}}\n", 10 + turn % 97)?;
    }
    push_all(&mut text)?;
    Ok(text)
}

/// A script that rewires the second stage by turns to nothing and to the first.
pub(crate) fn first_rewires(alloc: Global, plan: &Plan, edits: u32) -> Result<String, AllocError> {
    let mut text = opened(alloc)?;
    for turn in 0..edits {
        push_about(&mut text, plan, "rewire", 1, 1)?;
        if turn % 2 == 0 {
            text.push_str(",\"sources\":[],\"inner\":[]}\n")?;
        } else {
            text.push_str(",\"sources\":[\"")?;
            push_name(&mut text, plan.seed, 0)?;
            text.push_str("\"],\"inner\":[]}\n")?;
        }
    }
    push_all(&mut text)?;
    Ok(text)
}

/// A stage of a recording of joins, of which one in four is of the operation that stands at this remainder.
fn one_of(plan: &Plan, random: &mut Random, remainder: u32) -> u32 {
    let number = random.below(plan.stages).max(ROOTS + HUBS);
    number.saturating_sub(number % 4).saturating_add(remainder)
}

/// Adds what an edit does to a stage, up to its further members.
fn push_do(text: &mut String, plan: &Plan, step: &str, stage: u32) -> Result<(), AllocError> {
    write!(text, "\"do\":\"{step}\",\"stage\":\"")?;
    push_name(text, plan.seed, stage)?;
    text.push_str("\"")
}

/// Adds the members of an edit that changes a stage's action, its ends or what it waits for.
fn push_members(text: &mut String, plan: &Plan, random: &mut Random) -> Result<(), AllocError> {
    match random.below(6) {
        0 => {
            push_do(text, plan, "setAction", one_of(plan, random, 0))?;
            write!(
                text,
                ",\"action\":[\"mul\",[\"arg\",0],{}]",
                random.below(100)
            )
        }
        1 => {
            push_do(text, plan, "setAction", ROOTS + random.below(HUBS))?;
            write!(
                text,
                ",\"action\":[\"sub\",{},[\"arg\",0]]",
                random.below(100)
            )
        }
        2 => {
            push_do(text, plan, "setEnds", one_of(plan, random, 2))?;
            write!(
                text,
                ",\"ends\":[{{\"at\":0,\"do\":\"orTimeout\",\"delay\":{}}}]",
                random.below(60)
            )
        }
        3 => {
            push_do(text, plan, "setEnds", one_of(plan, random, 2))?;
            text.push_str(",\"ends\":[]")
        }
        4 => {
            push_do(text, plan, "rewire", ROOTS + random.below(HUBS))?;
            let root = random.below(ROOTS);
            let range = Range {
                first: root,
                end: root.saturating_add(1),
            };
            push_range(text, plan.seed, range)?;
            text.push_str(",\"inner\":[]")
        }
        _ => {
            let stage = one_of(plan, random, 3);
            push_do(text, plan, "rewire", stage)?;
            push_range(text, plan.seed, joined(random, stage))?;
            text.push_str(",\"inner\":[]")
        }
    }
}

/// Adds the members of an edit that adds a join of the number as a stage.
fn push_addition(
    text: &mut String,
    plan: &Plan,
    random: &mut Random,
    number: u32,
) -> Result<(), AllocError> {
    text.push_str("\"do\":\"add\",\"new\":{\"name\":\"")?;
    push_name(text, plan.seed, number)?;
    text.push_str("\",\"op\":\"allOf\"")?;
    push_range(text, plan.seed, joined(random, plan.stages))?;
    text.push_str("}")
}

/// Adds a list of 2 to 8 edits.
fn push_list(text: &mut String, plan: &Plan, random: &mut Random) -> Result<(), AllocError> {
    text.push_str("\"do\":\"edits\",\"edits\":[")?;
    for at in 0..2 + random.below(7) {
        text.push_str(if at == 0 { "{" } else { ",{" })?;
        push_members(text, plan, random)?;
        text.push_str("}")?;
    }
    text.push_str("]")
}

/// A script of edits of a recording of joins: one in six adds a join, which the next one removes, one in six is a list, and
/// the others change a stage each.
pub(crate) fn join_edits(alloc: Global, plan: &Plan, edits: u32) -> Result<String, AllocError> {
    let mut random = Random::new(plan.seed ^ 0x70_1115);
    let mut text = opened(alloc)?;
    for turn in 0..edits {
        text.push_str("{\"session\":1,")?;
        match turn % 6 {
            0 => push_addition(
                &mut text,
                plan,
                &mut random,
                plan.stages.saturating_add(turn),
            )?,
            1 => {
                let added = plan.stages.saturating_add(turn.saturating_sub(1));
                push_do(&mut text, plan, "remove", added)?;
            }
            2 => push_list(&mut text, plan, &mut random)?,
            _ => push_members(&mut text, plan, &mut random)?,
        }
        text.push_str("}\n")?;
        if turn % 512 == 511 {
            push_all(&mut text)?;
        }
    }
    push_all(&mut text)?;
    Ok(text)
}
