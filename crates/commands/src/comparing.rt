//! What made a stage late in one run that was not late in another.
use crate::fault::{compared, told};
use crate::format::format_of;
use crate::naming::with_name_explained;
use crate::place::{last_place, place_named};
use command_line::{Input, Manner};
use console::{Fault, Voice, flushed, warn, why_read_twice, with_reason};
use recording_reports::{PairFault, Which, compare_recordings, tell_pair};
use report_form::Form;
use std::cell::Cell;
use std::mem::forget;
use version_store::{StateRepresentation, Version};

/// A recording, and by which voice people are told of it.
#[derive(Clone, Copy)]
struct Run<'a> {
    voice: Voice<'a>,
    recording: &'a [u8],
}

/// Prints in which stages two recordings differ, a good one and a bad one, and the path of a stage in both; where none is named,
/// of the one that completes last in the bad one.
pub fn run_compare<'a, K: StateRepresentation>(
    rt: &'a HostRuntime,
    manner: Manner,
    good: Input<'a>,
    bad: Input<'a>,
    stage: Option<&str>,
) -> Result<(), Fault> {
    if matches!((good, bad), (Input::Standard, Input::Standard)) {
        return Err(Fault::Word(why_read_twice(rt.alloc())?));
    }
    let good_voice = Voice::new(rt, manner, good).of_several();
    let bad_voice = Voice::new(rt, manner, bad).of_several();
    let good = console::recording(rt, good_voice, good)?;
    warn(rt.alloc(), good_voice, &good)?;
    let bad = console::recording(rt, bad_voice, bad)?;
    warn(rt.alloc(), bad_voice, &bad)?;
    let good = Run {
        voice: good_voice,
        recording: good.as_slice(),
    };
    let bad = Run {
        voice: bad_voice,
        recording: bad.as_slice(),
    };
    let form = format_of(manner).form(None);
    match stage {
        Some(name) => compare_named::<K>(rt, good, bad, name, form),
        None => compare_last::<K>(rt, good, bad, form),
    }
}

/// The version that a recording opens with.
fn opened<K: StateRepresentation>(rt: &HostRuntime, run: Run<'_>) -> Result<Version<K>, Fault> {
    let graph = console::graph::<K>(rt.alloc(), run.voice, run.recording)?;
    Ok(Version::load(rt.alloc(), graph)?)
}

/// Prints the same of the stage that completes last in the bad run, which is read before the good one.
fn compare_last<K: StateRepresentation>(
    rt: &HostRuntime,
    good: Run<'_>,
    bad: Run<'_>,
    form: Form,
) -> Result<(), Fault> {
    let bad_version = opened::<K>(rt, bad)?;
    let at_bad = last_place(rt, bad.voice, &bad_version, "STAGE")?;
    let good_version = opened::<K>(rt, good)?;
    let name = bad_version.graph().name_of(at_bad);
    let at_good = place_named(rt, good.voice, good.recording, &good_version, name)?;
    // (a stage stands at both)
    let Some(_) = bad_version.stage(at_bad) else {
        return Err(Fault::NoStage(None));
    };
    let Some(_) = good_version.stage(at_good) else {
        return Err(Fault::NoStage(None));
    };
    let reason = Cell::new(None);
    let mut sink = console::output(rt, &reason)?;
    let end = tell_pair(
        rt.alloc(),
        &good_version,
        at_good,
        &bad_version,
        at_bad,
        form,
        &mut sink,
    );
    // The program ends with its report.
    forget(good_version);
    forget(bad_version);
    with_reason(good.voice, &reason, flushed(&mut sink, told(end)))
}

/// Prints the same of the stage of a name.
fn compare_named<K: StateRepresentation>(
    rt: &HostRuntime,
    good: Run<'_>,
    bad: Run<'_>,
    name: &str,
    form: Form,
) -> Result<(), Fault> {
    let reason = Cell::new(None);
    let mut sink = console::output(rt, &reason)?;
    let end = compare_recordings::<K, _>(
        rt.alloc(),
        good.recording,
        bad.recording,
        name,
        form,
        &mut sink,
    );
    let run = match which_of(&end) {
        Which::Good => good,
        Which::Bad => bad,
    };
    let end = with_reason(good.voice, &reason, flushed(&mut sink, compared(end)));
    with_name_explained(rt.alloc(), run.voice, run.recording, name, end)
}

/// Of which recording people are told why the comparison ended early.
fn which_of(end: &Result<(), PairFault>) -> Which {
    match end {
        Err(PairFault::Refused(which, _)) => *which,
        Err(PairFault::NoStage(which)) => *which,
        _ => Which::Good,
    }
}
