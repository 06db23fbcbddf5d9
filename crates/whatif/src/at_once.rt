//! Several scripts at once.
ghost use Rattle.std.specs.Prelude.{◌≡◌, ◌-◌, ◌^◌, ◌<◌, All, length, vec_len};
ghost use Rattle.stage_graph.specs.Walk.{IsRanked};
ghost use Rattle.text_io.specs.Counted.{read_failures};

use crate::fault::ended;
use command_line::{Manner, Scripts};
use commands::format_of;
use console::{
    Fault, KeepingSink, KeptScript, Named, StepTeller, Voice, explained, file, graph,
    opened_scripts, unread_scripts, warn, with_reason, with_unread_script,
};
use many_scripts::many;
use report_form::Format;
use stage_graph::{Graph, InShared};
use std::alloc::Global;
use std::cell::Cell;
use std::sync::Wait;
use std::thread::Threads;

/// Answers several scripts about a graph. What was printed is kept, if the refused steps are to be told or are to end the
/// program.
fn answered<H: Threads + Wait + Copy + Drop + Send + Sync>(
    rt: &HostRuntime,
    threads: H,
    voice: Voice<'_>,
    format: Format,
    scripts: &Scripts<'_>,
    kept: &mut [KeptScript],
    graph: Graph<InShared>,
) -> Result<Option<Vec<u8>>, Fault>
    requires { IsRanked graph.places }
{
    let sources = opened_scripts(rt, voice, scripts.paths(), kept)?;
    let reason = Cell::new(None);
    let output = console::output(rt, &reason)?;
    let is_wanted = !voice.is_quiet() || voice.is_strict();
    let mut sink = KeepingSink::new(rt.alloc(), output, is_wanted);
    let end = many(
        threads,
        rt.alloc(),
        sources,
        &mut sink,
        graph,
        scripts.workers().count(),
        format,
    );
    with_reason(voice, &reason, ended(end))?;
    Ok(sink.into_answers())
}

/// Answers several scripts, each from a file of its own, about the recording of a file, and then tells of their refused
/// steps.
pub(crate) fn run_many<'a, H: Threads + Wait + Copy + Drop + Send + Sync>(
    rt: &'a HostRuntime,
    threads: H,
    manner: Manner,
    path: &'a str,
    scripts: &Scripts<'a>,
) -> Result<(), Fault> {
    let voice = Voice::of_file(rt, manner, path);
    let recording = file(rt, voice, path, Named::Recording)?;
    warn(rt.alloc(), voice, &recording)?;
    let graph = graph(rt.alloc(), voice, &recording)?;
    let paths = scripts.paths();
    let mut kept = unread_scripts(rt.alloc(), paths.len(), !voice.is_quiet())?;
    let format = format_of(manner);
    let end = answered(rt, threads, voice, format, scripts, &mut kept, graph);
    match with_unread_script(voice, paths, &kept, end)? {
        Some(answers) => tell_of_steps(rt.alloc(), voice, recording, paths, &kept, &answers),
        None if voice.is_strict() => Err(Fault::Memory),
        None => Ok(()),
    }
}

/// Tells of the refused steps of scripts that were answered; where one is to end the program it does.
fn tell_of_steps<'a>(
    alloc: Global,
    voice: Voice<'a>,
    recording: Vec<u8>,
    paths: &[&'a str],
    scripts: &[KeptScript],
    answers: &[u8],
) -> Result<(), Fault> {
    let mut teller = StepTeller::new(alloc, voice, recording);
    let is_refused = explained(alloc, &mut teller, paths, scripts, answers);
    if is_refused && voice.is_strict() {
        return Err(Fault::Step);
    }
    Ok(())
}
