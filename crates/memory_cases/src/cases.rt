//! The table of cases: blocks of lines with an empty line between them.
use crate::refusals::{Refused, Window};
use crate::scene::{Scene, step_count};
use crate::sweep::Sweep;
use crate::turn::Turn;
use crate::{desks, drafts, graphs, lists, makers, marks, orders, planted, runs, tables, writers};
use anyhow::Result;
use level_pool::{OneThread, Runner};
use share_tree::Keeps;
use std::alloc::Global;
use std::sync::Wait;
use std::thread::Threads;
use version_store::StateRepresentation;

/// A case that is made by a runner.
fn show_by<R: StateRepresentation, W: Runner>(
    window: &mut Window,
    scene: Scene<'_>,
    turn: &mut Turn,
    runner: &W,
) -> Result<()> {
    match scene.group {
        "table" => tables::show::<R, W>(window, scene, turn, runner),
        "run" => runs::show::<R, W>(window, scene, turn, runner),
        "serve" | "recorded" | "import" => writers::show::<R, W>(window, scene, turn, runner),
        _ => drafts::show_by::<R, W>(window, scene, turn, runner),
    }
}

/// A case. `F` is a list of numbers in one vector, and `R` has the type of each persistent list.
fn show<F: Keeps<u32>, R: StateRepresentation, H: Threads + Wait + Sync>(
    rt: &H,
    window: &mut Window,
    scene: Scene<'_>,
    turn: &mut Turn,
) -> Result<()> {
    match scene.group {
        "flat" => lists::show::<F>(window, scene, turn),
        "shared" => lists::show::<R::Ranks>(window, scene, turn),
        "marks" => marks::show(window, scene, turn),
        "make" => makers::show::<R>(window, scene, turn),
        "graph" => graphs::show::<R>(window, scene, turn),
        "order" => orders::show::<R>(window, scene, turn),
        "draft" => drafts::show::<R, H>(rt, window, scene, turn),
        "desk" => desks::show::<R, H>(rt, window, scene, turn),
        "wrong" => planted::show(window, scene.call, turn),
        _ => show_by::<R, _>(window, scene, turn, &OneThread::new(rt)),
    }
}

/// The turn of a case.
pub(crate) fn turn_of<F: Keeps<u32>, R: StateRepresentation, H: Threads + Wait + Sync>(
    rt: &H,
    alloc: Global,
    scene: Scene<'_>,
    refused: Refused,
) -> Result<Turn> {
    let mut turn = Turn::new(alloc);
    show::<F, R, H>(rt, &mut Window::new(alloc, refused), scene, &mut turn)?;
    Ok(turn)
}

/// The cases of a call: where it is an event on a table, one for each step of the block, after the steps before it.
fn cases_of<F: Keeps<u32>, R: StateRepresentation, H: Print + Threads + Wait + Sync>(
    rt: &H,
    sweep: &mut Sweep,
    scene: Scene<'_>,
) -> Result<()> {
    let first = match scene.call {
        "take" | "client" => 1,
        _ => scene.steps,
    };
    for steps in first..=scene.steps {
        sweep.case::<F, R, H>(rt, Scene { steps, ..scene })?;
    }
    Ok(())
}

/// The scene of a call's words.
fn scene_of<'a>(words: &'a str, block: &'a str) -> Scene<'a> {
    let (group, rest) = words.split_once(" ").unwrap_or((words, ""));
    let (call, number) = rest.split_once(" ").unwrap_or((rest, ""));
    Scene {
        name: words,
        group,
        call,
        number: number.parse().unwrap_or(0),
        block,
        steps: step_count(block),
    }
}

/// The cases of a block.
fn block_of<F: Keeps<u32>, R: StateRepresentation, H: Print + Threads + Wait + Sync>(
    rt: &H,
    sweep: &mut Sweep,
    block: &str,
) -> Result<()> {
    for line in block.lines() {
        if let Some(words) = line.strip_prefix("call ") {
            cases_of::<F, R, H>(rt, sweep, scene_of(words, block))?;
        }
    }
    Ok(())
}

/// All cases of a table.
pub(crate) fn all<F: Keeps<u32>, R: StateRepresentation, H: Print + Threads + Wait + Sync>(
    rt: &H,
    sweep: &mut Sweep,
    table: &str,
) -> Result<()> {
    for block in table.split("\n\n") {
        block_of::<F, R, H>(rt, sweep, block)?;
    }
    Ok(())
}
