//! Calls of a desk: its start, those of its clients, and its close.
ghost use Rattle.std.specs.Prelude.{◌≡◌, ◌≤◌, ◌^◌};
ghost use Rattle.version_store.specs.Plain.{opening_version};
ghost use Rattle.session_core.specs.Machine.{opening};

use crate::calls::Trial;
use crate::closing::Started;
use crate::drafts::loaded;
use crate::refusals::Window;
use crate::scene::Scene;
use crate::seats::CLIENTS;
use crate::turn::{Shown, Turn};
use anyhow::Result;
use desk::{Naming, NewArchive, start};
use level_pool::{OneThread, Runner};
use std::marker::Brand;
use std::sync::Wait;
use std::sync::ledger::Blank;
use std::thread::Threads;
use version_store::{StateRepresentation, Version};

/// For how many versions the desk of a call has room.
fn most_of(call: &str) -> u32
    ensures { (1 ≤ result) × (result ≤ 2 ^ 16) }
{
    match call {
        "full" => 1,
        _ => 65_536,
    }
}

/// Starts the desk that has this name in the window, and plays a case on it.
fn show_on_named<N: Naming, R: StateRepresentation, H: Wait, W: Runner>(
    trial: &Trial<'_, H, W>,
    blank: Blank,
    archive: NewArchive<R>,
    first: Version<R>,
    most: u32,
    window: &mut Window,
    calls: &mut [Window],
    shown: &mut Shown,
) -> Result<()>
    requires name { blank.name ≡ N.name }
    requires parts { blank.parts ≡ N.parts }
    requires book { archive.seen.book ≡ N.book }
    requires clients { (blank.parts ≡ 2) × (N.clients ≡ 2) }
    requires first { first ≡ opening_version first.graph }
    requires most { (1 ≤ most) × (most ≤ 2 ^ 16) }
    requires opening { N.opening ≡ opening first most }
{
    window.begin();
    let started = start::<N, R, &H>(trial.rt, trial.alloc, blank, archive, first, CLIENTS, most);
    window.end();
    let Ok((desk, clients)) = started else {
        shown.out_of_memory = true;
        return Ok(());
    };
    let started = Started {
        trial,
        desk,
        clients,
    };
    started.show(calls, shown)
}

/// Starts a new desk in the window, and plays a case on it.
fn show_on_new<R: StateRepresentation, H: Wait, W: Runner>(
    trial: &Trial<'_, H, W>,
    first: Version<R>,
    most: u32,
    window: &mut Window,
    calls: &mut [Window],
    shown: &mut Shown,
) -> Result<()>
    requires first { first ≡ opening_version first.graph }
    requires most { (1 ≤ most) × (most ≤ 2 ^ 16) }
{
    let blank = Blank::new(u64::from(CLIENTS));
    let archive = NewArchive::new();
    show_on_named::<Brand, R, H, W>(trial, blank, archive, first, most, window, calls, shown)
}

/// Starts a desk with the recording in the window, and plays a case on it, with its call in each of these windows.
fn show_in<R: StateRepresentation, H: Wait, W: Runner>(
    trial: &Trial<'_, H, W>,
    window: &mut Window,
    calls: &mut [Window],
    shown: &mut Shown,
) -> Result<()> {
    let first: Version<R> = loaded(trial.alloc, trial.scene.recording())?;
    let most = most_of(trial.scene.call);
    show_on_new(trial, first, most, window, calls, shown)
}

/// The start of a desk in the window.
fn show_start<R: StateRepresentation, H: Wait, W: Runner>(
    trial: &Trial<'_, H, W>,
    window: &mut Window,
    turn: &mut Turn,
) -> Result<()> {
    show_in::<R, H, W>(trial, window, &mut [], &mut turn.first)?;
    turn.met = window.met;
    if turn.first.out_of_memory {
        show_in::<R, H, W>(trial, &mut window.with_memory(), &mut [], &mut turn.again)?;
    }
    Ok(())
}

/// A call in the window: a desk before it, another one after it, and a third one after the same call with memory.
fn show_call<R: StateRepresentation, H: Wait, W: Runner>(
    trial: &Trial<'_, H, W>,
    window: &mut Window,
    turn: &mut Turn,
) -> Result<()> {
    let mut with_memory = window.with_memory();
    let mut before = Shown::new(trial.alloc);
    show_in::<R, H, W>(trial, &mut with_memory, &mut [], &mut before)?;
    turn.before.be(&before.after);
    let mut calls = [*window, with_memory];
    show_in::<R, H, W>(trial, &mut with_memory, &mut calls[..1], &mut turn.first)?;
    turn.met = calls[0].met;
    if turn.first.out_of_memory {
        show_in::<R, H, W>(trial, &mut with_memory, &mut calls, &mut turn.again)?;
    }
    Ok(())
}

/// A call of a desk.
pub(crate) fn show<R: StateRepresentation, H: Threads + Wait + Sync>(
    rt: &H,
    window: &mut Window,
    scene: Scene<'_>,
    turn: &mut Turn,
) -> Result<()> {
    let trial = Trial {
        rt,
        alloc: window.alloc,
        runner: &OneThread::new(rt),
        scene,
    };
    match scene.call {
        "start" => show_start::<R, H, _>(&trial, window, turn),
        _ => show_call::<R, H, _>(&trial, window, turn),
    }
}
