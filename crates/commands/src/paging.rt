//! The page of an incident.
ghost use Rattle.std.specs.Prelude.{IfSome};
ghost use Rattle.stage_graph.specs.Plain.{IsLive};

use crate::fault::stopped;
use crate::place::place_named;
use crate::played::{Played, play_script};
use command_line::{Input, Manner, VERSION};
use console::{Fault, Voice, flushed, tell_last_stage, warn, with_reason};
use incident_page::{Frame, Heading, Script, write_page};
use level_pool::{Pooled, Runner};
use page_text::{head, tail};
use std::cell::Cell;
use std::mem::forget;
use std::sync::Wait;
use std::thread::Threads;
use tried_changes::last_stage;
use version_store::{StateRepresentation, Version};

/// Writes a page that tells of a recording, and of a stage: the one that is named, or where none is the one that completes last,
/// if there is one. Where a script is named, the page has the versions that it makes. Many trials are made on the processors that
/// there are.
pub fn run_page<
    'a,
    K: StateRepresentation,
    H: Threads + Wait + Copy + Drop + Send + Sync,
    W: Runner,
>(
    rt: &'a HostRuntime,
    threads: H,
    runner: &W,
    manner: Manner,
    input: Input<'a>,
    script: Option<&'a str>,
    stage: Option<&str>,
) -> Result<(), Fault> {
    let voice = Voice::new(rt, manner, input);
    let recording = console::recording(rt, voice, input)?;
    warn(rt.alloc(), voice, &recording)?;
    let version = version_of::<K>(rt, voice, &recording, script)?;
    let target = target_of(rt, voice, &recording, &version, stage)?;
    let played = match script {
        Some(script) => Some(play_script::<K, W>(rt, runner, voice, &recording, script)?),
        None => None,
    };
    let heading = heading_of(input, &recording, script_of(&played));
    let trials = Pooled::new(&threads);
    let end = page_of(
        rt,
        voice,
        heading,
        &version,
        made_of(&played),
        target,
        &trials,
    );
    // The program ends with its page.
    forget(version);
    forget(played);
    end
}

/// Version 0 of a recording, of which a script may be about to be played.
fn version_of<K: StateRepresentation>(
    rt: &HostRuntime,
    voice: Voice<'_>,
    recording: &[u8],
    script: Option<&str>,
) -> Result<Version<K>, Fault> {
    match console::graph::<K>(rt.alloc(), voice, recording) {
        Ok(graph) => Ok(Version::load(rt.alloc(), graph)?),
        Err(fault) => match script {
            Some(_) => Err(fault.before_script(rt.alloc())),
            None => Err(fault),
        },
    }
}

/// What the page says of itself.
fn heading_of<'a>(
    input: Input<'a>,
    recording: &'a [u8],
    script: Option<Script<'a>>,
) -> Heading<'a> {
    Heading {
        program: VERSION,
        file: match input {
            Input::Standard => "-",
            Input::File(path) => path,
        },
        recording,
        script,
    }
}

/// What the page says of the script that was played, if one was.
fn script_of<'a, K: StateRepresentation>(played: &'a Option<Played<'a, K>>) -> Option<Script<'a>> {
    match played {
        Some(played) => Some(Script {
            file: played.file,
            text: played.text.as_slice(),
            answers: played.answers.as_slice(),
        }),
        None => None,
    }
}

/// The versions that were made of version 0.
fn made_of<'a, K: StateRepresentation>(played: &'a Option<Played<'a, K>>) -> &'a [Version<K>] {
    match played {
        Some(played) => played.made.as_slice(),
        None => &[],
    }
}

/// Where the stage stands that the page is about, if it is about one.
fn target_of<K: StateRepresentation>(
    rt: &HostRuntime,
    voice: Voice<'_>,
    recording: &[u8],
    version: &Version<K>,
    stage: Option<&str>,
) -> Result<Option<u32>, Fault> {
    match stage {
        Some(name) => Ok(Some(place_named(rt, voice, recording, version, name)?)),
        None => Ok(told_last(voice, version)),
    }
}

/// Where the stage stands that completes last, which people are told; none where no stage does.
fn told_last<K: StateRepresentation>(voice: Voice<'_>, version: &Version<K>) -> Option<u32> {
    let place = last_stage(version)?;
    tell_last_stage(voice, "--stage", version.graph().name_of(place));
    Some(place)
}

/// The place, if a stage stands there.
fn live<K: StateRepresentation>(version: &Version<K>, place: Option<u32>) -> Option<u32>
    ensures { IfSome result (λ place. IsLive version.now.graph.places place) }
{
    let place = place?;
    let Some(_) = version.stage(place) else {
        return None;
    };
    Some(place)
}

/// Writes the page of a version, and of those that were made of it.
fn page_of<K: StateRepresentation, W: Runner>(
    rt: &HostRuntime,
    voice: Voice<'_>,
    heading: Heading<'_>,
    version: &Version<K>,
    made: &[Version<K>],
    target: Option<u32>,
    runner: &W,
) -> Result<(), Fault> {
    let frame = Frame {
        head: head(),
        tail: tail(),
    };
    let target = live(version, target);
    let reason = Cell::new(None);
    let mut sink = console::output(rt, &reason)?;
    let end = write_page(
        rt.alloc(),
        frame,
        heading,
        version,
        made,
        target,
        runner,
        &mut sink,
    );
    with_reason(voice, &reason, flushed(&mut sink, stopped(end)))
}
