//! Versions that are drafted, by each runner.
ghost use Rattle.std.specs.Prelude.{◌≡◌, IfOk};
ghost use Rattle.version_store.specs.Plain.{opening_version};

use crate::refusals::Window;
use crate::scene::Scene;
use crate::sources::{graph_of, held_edits_of};
use crate::texts::{push_fault, push_version};
use crate::told::Told;
use crate::turn::{Turn, shown};
use crate::versions;
use anyhow::Result;
use level_pool::{NoGate, OneThread, Pooled, Runner, Scoped};
use session_core::draft_of;
use share_tree::Held;
use stage_graph::{Edits, Fault};
use stage_ops::Meter;
use std::alloc::Global;
use std::thread::Threads;
use version_store::{Draft, StateRepresentation, Version};

/// The marker of the meters.
#[derive(Drop)]
struct Counted;

/// A version and edits of it.
#[derive(Drop)]
struct Drafting<'a, R: StateRepresentation, W> {
    runner: &'a W,
    version: &'a Version<R>,
    edits: Held<Edits>,
}

/// Version 0 of a recording that is not refused.
pub(crate) fn loaded<R: StateRepresentation>(alloc: Global, recording: &str) -> Result<Version<R>>
    ensures { IfOk result (λ version. version ≡ opening_version version.graph) }
{
    Ok(Version::load(alloc, graph_of(alloc, recording)?)?)
}

/// The draft that edits make of a version.
fn draft<R: StateRepresentation, W: Runner>(
    alloc: Global,
    runner: &W,
    version: &Version<R>,
    edits: &Held<Edits>,
) -> Result<Draft<R>, Fault> {
    let mut meter = Meter::new(Counted);
    version.draft(alloc, edits, runner, &mut meter)
}

/// The draft that a step makes of a version.
fn drafted<R: StateRepresentation, W: Runner>(
    alloc: Global,
    runner: &W,
    version: &Version<R>,
    step: &str,
) -> Result<Draft<R>> {
    let edits = held_edits_of(alloc, step)?;
    Ok(draft_of(alloc, version, &edits, runner)?)
}

/// The version with this number that a step makes of another one.
pub(crate) fn made_of<R: StateRepresentation, W: Runner>(
    alloc: Global,
    runner: &W,
    version: &Version<R>,
    step: &str,
    number: u32,
) -> Result<Version<R>> {
    let draft = drafted(alloc, runner, version, step)?;
    let made = draft.numbered(number);
    drop(draft);
    Ok(made?)
}

/// Tells a draft, as version 1.
fn push_numbered<R: StateRepresentation>(alloc: Global, text: &mut Told, draft: &Draft<R>) {
    match draft.numbered(1) {
        Ok(version) => push_version(alloc, text, &version),
        Err(_) => text.keep(false),
    }
}

/// Tells a draft, or why there is none.
fn push_draft<R: StateRepresentation>(
    alloc: Global,
    text: &mut Told,
    answer: &Result<Draft<R>, Fault>,
) -> bool {
    match answer {
        Ok(draft) => push_numbered(alloc, text, draft),
        Err(fault) => return push_fault(text, fault),
    }
    false
}

impl<R: StateRepresentation, W: Runner> Drafting<'_, R, W> {
    /// The call.
    fn push_answer(&self, window: &mut Window, text: &mut Told) -> bool {
        let alloc = window.alloc;
        window.begin();
        let draft = draft(alloc, self.runner, self.version, &self.edits);
        window.end();
        push_draft(alloc, text, &draft)
    }

    fn show(&self, window: &mut Window, turn: &mut Turn) {
        shown!(
            turn,
            window,
            |text| push_version(window.alloc, text, self.version),
            |window, text| self.push_answer(window, text)
        )
    }
}

/// The draft that a step makes of a version, by a runner.
fn show_on<R: StateRepresentation, W: Runner>(
    window: &mut Window,
    step: &str,
    turn: &mut Turn,
    runner: &W,
    version: &Version<R>,
) -> Result<()> {
    let drafting = Drafting {
        runner,
        version,
        edits: held_edits_of(window.alloc, step)?,
    };
    drafting.show(window, turn);
    Ok(())
}

/// The draft that the step makes of version 0 of the recording, by a runner; or what is asked of the version that it makes.
pub(crate) fn show_by<R: StateRepresentation, W: Runner>(
    window: &mut Window,
    scene: Scene<'_>,
    turn: &mut Turn,
    runner: &W,
) -> Result<()> {
    let version: Version<R> = loaded(window.alloc, scene.recording())?;
    match scene.group {
        "draft" => show_on(window, scene.step(), turn, runner, &version),
        _ => versions::show(window, scene, turn, runner, &version),
    }
}

/// A draft, by the runner that the call names.
pub(crate) fn show<R: StateRepresentation, H: Threads + Sync>(
    rt: &H,
    window: &mut Window,
    scene: Scene<'_>,
    turn: &mut Turn,
) -> Result<()> {
    match scene.call {
        "one" => show_by::<R, _>(window, scene, turn, &OneThread::new(rt)),
        "two" => show_by::<R, _>(window, scene, turn, &Scoped::new(rt, 2, NoGate)),
        "sixteen" => show_by::<R, _>(window, scene, turn, &Scoped::new(rt, 16, NoGate)),
        _ => show_by::<R, _>(window, scene, turn, &Pooled::new(rt)),
    }
}
