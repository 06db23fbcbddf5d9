//! The versions of an example, line by line.
use crate::edits::edits_of;
use crate::graphs::{push_fault, push_graph, push_order};
use crate::reports::push_report;
use anyhow::Result;
use level_pool::Runner;
use recording::read_recording;
use share_tree::{Again, Held};
use stage_graph::{Edits, Fault};
use stage_ops::Meter;
use std::alloc::Global;
use std::fmt::Write;
use version_store::{Draft, StateRepresentation, Version};

/// The marker of the meters.
#[derive(Drop)]
struct Computed;

/// A recording's version 0, and the last version that was made of it.
#[derive(Drop)]
pub(crate) struct Scene<R: StateRepresentation> {
    pub(crate) first: Version<R>,
    pub(crate) last: Version<R>,
}

/// The scene of a recording; where it is refused, its fault is told.
fn opened<R: StateRepresentation>(
    alloc: Global,
    recording: &str,
    text: &mut String,
) -> Result<Option<Scene<R>>> {
    match read_recording::<R>(alloc, recording.as_bytes()) {
        Ok(graph) => {
            let first = Version::load(alloc, graph)?;
            let last = first.again()?;
            Ok(Some(Scene { first, last }))
        }
        Err(fault) => {
            write!(text, "{fault}\n")?;
            Ok(None)
        }
    }
}

/// The draft that edits make of the last version, and how many stages were computed for it.
fn drafted<R: StateRepresentation, W: Runner>(
    alloc: Global,
    runner: &W,
    scene: &Scene<R>,
    edits: Edits,
) -> Result<(Result<Draft<R>, Fault>, u64)> {
    let edits = Held::new(alloc, edits)?;
    let mut meter = Meter::new(Computed);
    let draft = scene.last.draft(alloc, &edits, runner, &mut meter);
    Ok((draft, meter.count()))
}

/// Tells the version that was made.
fn push_version<R: StateRepresentation>(
    version: &Version<R>,
    computed: u64,
    text: &mut String,
) -> Result<()> {
    push_graph(version.graph(), text)?;
    push_order(version, text)?;
    let touched = version.touched();
    write!(text, "touched {touched:?}, computed {computed}\n")?;
    Ok(())
}

/// Tells what a draft makes of the last version, which it is from then on; a refused one changes nothing.
fn settle<R: StateRepresentation>(
    scene: &mut Scene<R>,
    draft: &Draft<R>,
    computed: u64,
    text: &mut String,
) -> Result<()> {
    scene.last = draft.numbered(scene.last.number().wrapping_add(1))?;
    push_version(&scene.last, computed, text)
}

/// Edits the last version, and tells what came of it.
fn edit<R: StateRepresentation, W: Runner>(
    alloc: Global,
    runner: &W,
    scene: &mut Scene<R>,
    edits: Edits,
    text: &mut String,
) -> Result<()> {
    let (draft, computed) = drafted(alloc, runner, scene, edits)?;
    match draft {
        Ok(draft) => settle(scene, &draft, computed, text),
        Err(fault) => push_fault(&fault, text),
    }
}

/// Answers a step: the edits that its text has, or why it has none.
fn step<R: StateRepresentation, W: Runner>(
    alloc: Global,
    runner: &W,
    scene: &mut Scene<R>,
    step: &str,
    text: &mut String,
) -> Result<()> {
    match edits_of(alloc, step) {
        Ok(Some(edits)) => edit(alloc, runner, scene, edits, text),
        Ok(None) => {
            text.push_str("the step edits nothing\n")?;
            Ok(())
        }
        Err(fault) => {
            write!(text, "{fault}\n")?;
            Ok(())
        }
    }
}

/// Answers a line about a scene.
fn answer<R: StateRepresentation, W: Runner>(
    alloc: Global,
    runner: &W,
    scene: &mut Scene<R>,
    word: &str,
    rest: &str,
    text: &mut String,
) -> Result<()> {
    match word {
        "step" => step(alloc, runner, scene, rest, text),
        "report" => push_report(alloc, runner, scene, rest, text),
        _ => Ok(()),
    }
}

/// Answers a line: a recording makes a new scene, and before the first one there is nothing to tell.
fn answer_line<R: StateRepresentation, W: Runner>(
    alloc: Global,
    runner: &W,
    scene: &mut Option<Scene<R>>,
    line: &str,
    text: &mut String,
) -> Result<()> {
    let Some((word, rest)) = line.split_once(" ") else {
        return Ok(());
    };
    if word == "recording" {
        *scene = opened(alloc, rest, text)?;
    } else if let Some(scene) = scene {
        answer(alloc, runner, scene, word, rest, text)?;
    }
    Ok(())
}

/// Tells the lines of a table, each with its answer.
fn tell_lines<R: StateRepresentation, W: Runner>(
    alloc: Global,
    runner: &W,
    table: &str,
    scene: &mut Option<Scene<R>>,
    text: &mut String,
) -> Result<()> {
    for line in table.lines() {
        write!(text, "{line}\n")?;
        answer_line(alloc, runner, scene, line, text)?;
    }
    Ok(())
}

/// What is told of a table of examples.
pub(crate) fn told<R: StateRepresentation, W: Runner>(
    alloc: Global,
    runner: &W,
    table: &str,
) -> Result<String> {
    let mut text = String::new(alloc);
    let mut scene: Option<Scene<R>> = None;
    let is_told = tell_lines(alloc, runner, table, &mut scene, &mut text);
    drop(scene);
    is_told?;
    Ok(text)
}
