//! What is reported of a recording as it is.
use crate::fault::{reported, told};
use crate::format::format_of;
use crate::naming::with_name_explained;
use crate::place::last_place;
use command_line::{Input, Manner};
use console::{Fault, Voice, flushed, warn, with_explanation, with_reason};
use level_pool::{Pooled, Runner};
use recording_reports::{StageReport, WholeReport, report_all, report_stage, tell_stage};
use report_form::Form;
use std::cell::Cell;
use std::mem::forget;
use std::sync::Wait;
use std::thread::Threads;
use version_store::{StateRepresentation, Version};

/// Prints what is asked of all stages of a recording.
pub fn run_report<'a, K: StateRepresentation>(
    rt: &'a HostRuntime,
    manner: Manner,
    input: Input<'a>,
    asked: WholeReport,
) -> Result<(), Fault> {
    let voice = Voice::new(rt, manner, input);
    let recording = console::recording(rt, voice, input)?;
    warn(rt.alloc(), voice, &recording)?;
    let reason = Cell::new(None);
    let mut sink = console::output(rt, &reason)?;
    let end = report_all::<K, _>(
        rt.alloc(),
        &recording,
        asked,
        format_of(manner).form(None),
        &mut sink,
    );
    let end = flushed(&mut sink, reported(end));
    with_explanation(
        rt.alloc(),
        voice,
        &recording,
        with_reason(voice, &reason, end),
    )
}

/// Prints what is asked of one stage of a recording, of the one that completes last where none is named; many trials, of a sweep,
/// of slacks or of rescues, are made on the processors that there are.
pub fn run_report_stage<'a, K: StateRepresentation, H: Threads + Wait + Copy + Drop + Send + Sync>(
    rt: &'a HostRuntime,
    threads: H,
    manner: Manner,
    input: Input<'a>,
    stage: Option<&str>,
    asked: StageReport,
) -> Result<(), Fault> {
    let voice = Voice::new(rt, manner, input);
    let recording = console::recording(rt, voice, input)?;
    warn(rt.alloc(), voice, &recording)?;
    let runner = Pooled::new(&threads);
    let form = format_of(manner).form(None);
    match stage {
        Some(name) => report_named::<K, _>(rt, voice, &recording, name, asked, &runner, form),
        None => report_last::<K, _>(rt, voice, &recording, asked, &runner, form),
    }
}

/// Prints what is asked of the stage of a name.
fn report_named<K: StateRepresentation, W: Runner>(
    rt: &HostRuntime,
    voice: Voice<'_>,
    recording: &[u8],
    name: &str,
    asked: StageReport,
    runner: &W,
    form: Form,
) -> Result<(), Fault> {
    let reason = Cell::new(None);
    let mut sink = console::output(rt, &reason)?;
    let end = report_stage::<K, _, _>(rt.alloc(), recording, name, asked, runner, form, &mut sink);
    let end = with_reason(voice, &reason, flushed(&mut sink, reported(end)));
    with_name_explained(rt.alloc(), voice, recording, name, end)
}

/// Prints what is asked of the stage that completes last.
fn report_last<K: StateRepresentation, W: Runner>(
    rt: &HostRuntime,
    voice: Voice<'_>,
    recording: &[u8],
    asked: StageReport,
    runner: &W,
    form: Form,
) -> Result<(), Fault> {
    let graph = console::graph::<K>(rt.alloc(), voice, recording)?;
    let version = Version::load(rt.alloc(), graph)?;
    let place = last_place(rt, voice, &version, "STAGE")?;
    // (a stage stands there)
    let Some(_) = version.stage(place) else {
        return Err(Fault::NoStage(None));
    };
    let reason = Cell::new(None);
    let mut sink = console::output(rt, &reason)?;
    let end = tell_stage(rt.alloc(), &version, place, asked, runner, form, &mut sink);
    // The program ends with its report.
    forget(version);
    with_reason(voice, &reason, flushed(&mut sink, told(end)))
}
