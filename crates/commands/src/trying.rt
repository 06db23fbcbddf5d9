//! What would come of changes of a recording.
use crate::draw::file_of;
use crate::drawing_trial::draw_changed;
use crate::export::write_version;
use crate::fault::told;
use crate::format::format_of;
use crate::place::{place_named, place_of};
use change_words::MakingFault;
use command_line::{Asked, Input, Manner, Trial};
use console::{Fault, Voice, changes_of, flushed, output, warn, why_not_made, with_reason};
use level_pool::Runner;
use report_form::Form;
use std::cell::Cell;
use std::mem::forget;
use tried_changes::{tell_trial, tried};
use version_rows::Source;
use version_store::{StateRepresentation, Version};

/// Prints what would come of changes of a recording, or writes the recording that they make, or a picture of it.
pub fn run_try<'a, K: StateRepresentation, W: Runner>(
    rt: &'a HostRuntime,
    runner: &W,
    manner: Manner,
    input: Input<'a>,
    trial: &Trial<'a>,
) -> Result<(), Fault> {
    let words = trial.changes.as_slice();
    let changes = changes_of(rt.alloc(), words)?;
    let voice = Voice::new(rt, manner, input);
    let recording = console::recording(rt, voice, input)?;
    warn(rt.alloc(), voice, &recording)?;
    let (graph, told) = console::labelled_graph::<K>(rt.alloc(), voice, &recording)?;
    let before = Version::load(rt.alloc(), graph)?;
    let version = match tried(rt.alloc(), &before, changes.as_slice(), runner) {
        Ok(version) => version,
        Err(MakingFault::Memory) => return Err(Fault::Memory),
        Err(fault) => {
            let changes = changes.as_slice();
            let why = why_not_made(rt.alloc(), voice, &recording, words, changes, &fault);
            return Err(Fault::NotMade(fault, why));
        }
    };
    let end = match trial.asked {
        Asked::Recording => write_version(rt, voice, &version),
        Asked::Picture(stage) => {
            let target = target_of(rt, voice, &recording, &before, stage)?;
            let source = Source {
                file: file_of(input),
                unit: told.unit.as_str(),
                deadline: told.deadline,
            };
            draw_changed(rt, voice, &version, source, changes.as_slice(), target)
        }
        Asked::Reports(stage) => {
            let place = place_of(rt, voice, &recording, &before, stage, "--stage")?;
            let form = format_of(manner).form(None);
            tell(rt, voice, &version, &before, place, form)
        }
    };
    // The program ends with its answer.
    forget(version);
    forget(before);
    end
}

/// Where the stage of a name stands, if one is named.
fn target_of<K: StateRepresentation>(
    rt: &HostRuntime,
    voice: Voice<'_>,
    recording: &[u8],
    before: &Version<K>,
    stage: Option<&str>,
) -> Result<Option<u32>, Fault> {
    match stage {
        Some(name) => Ok(Some(place_named(rt, voice, recording, before, name)?)),
        None => Ok(None),
    }
}

/// Prints what came of the changes.
fn tell<K: StateRepresentation>(
    rt: &HostRuntime,
    voice: Voice<'_>,
    version: &Version<K>,
    before: &Version<K>,
    place: u32,
    form: Form,
) -> Result<(), Fault> {
    // (no change removes a stage)
    let Some(_) = version.stage(place) else {
        return Err(Fault::NoStage(None));
    };
    let reason = Cell::new(None);
    let mut sink = output(rt, &reason)?;
    let end = tell_trial(rt.alloc(), version, before, place, form, &mut sink);
    with_reason(voice, &reason, flushed(&mut sink, told(end)))
}
