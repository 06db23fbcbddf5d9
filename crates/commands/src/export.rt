//! The version that a script makes last, as a recording.
ghost use Rattle.std.specs.Prelude.{◌≡◌};
ghost use Rattle.stage_graph.specs.Walk.{IsRanked};
ghost use Rattle.text_io.specs.Counted.{write_failures};

use crate::fault::{served, written};
use command_line::Manner;
use console::{
    Fault, ListeningSink, ListeningSource, Named, Remembering, StepTeller, Voice, Watch, flushed,
    opened, warn, with_read_reason, with_reason,
};
use level_pool::Runner;
use recording_text::write_recording;
use report_form::Format;
use script_lines::AT_ONCE;
use serve_script::play;
use stage_graph::Graph;
use std::alloc::Global;
use std::cell::Cell;
use std::fs::File;
use std::io;
use text_io::{CountedWriter, Sink, Source};
use version_store::{StateRepresentation, Version};

/// Writes the version that the script of a file makes last of the recording of a file.
pub fn run_export<'a, K: StateRepresentation, W: Runner>(
    rt: &'a HostRuntime,
    runner: &W,
    manner: Manner,
    path: &'a str,
    script: &'a str,
) -> Result<(), Fault> {
    let voice = Voice::of_file(rt, manner, path);
    let recording = console::file(rt, voice, path, Named::Recording)?;
    warn(rt.alloc(), voice, &recording)?;
    match console::graph::<K>(rt.alloc(), voice, &recording) {
        Ok(graph) => {
            let teller = StepTeller::new(rt.alloc(), voice, recording);
            export_of(rt, runner, voice, teller, graph, script)
        }
        Err(fault) => Err(fault.before_script(rt.alloc())),
    }
}

/// Plays the script of a file, tells of its refused steps, and writes the version that it made last.
fn export_of<K: StateRepresentation, W: Runner>(
    rt: &HostRuntime,
    runner: &W,
    voice: Voice<'_>,
    teller: StepTeller<'_>,
    graph: Graph<K>,
    script: &str,
) -> Result<(), Fault>
    requires { IsRanked graph.places }
{
    let file = opened(rt, voice, script, Named::Script)?;
    let reason = Cell::new(None);
    let end = last_version(rt, runner, teller, graph, file, &reason);
    let version = with_read_reason(voice, script, &reason, end)?;
    write_version(rt, voice, &version)
}

/// Where answers go that nobody prints. It lives as standard output does, as the borrow checker covers a call that plays a
/// script only where its sink has such a lifetime.
fn unprinted<'a>(
    _rt: &'a HostRuntime,
    reason: &'a Cell<Option<io::Error>>,
) -> CountedWriter<Remembering<'a, io::Sink>>
    ensures { write_failures result ≡ 0 }
{
    CountedWriter::new(Remembering {
        device: io::sink(),
        reason,
    })
}

/// The version that a script makes last; its refused steps are told, and the reason why it can't be read is put where it is
/// looked for.
fn last_version<K: StateRepresentation, W: Runner>(
    rt: &HostRuntime,
    runner: &W,
    teller: StepTeller<'_>,
    graph: Graph<K>,
    script: File,
    reason: &Cell<Option<io::Error>>,
) -> Result<Version<K>, Fault>
    requires { IsRanked graph.places }
{
    let watch = Watch::new(rt.alloc())?;
    let unwritten = Cell::new(None);
    let answers = unprinted(rt, &unwritten);
    let script = Remembering {
        device: script,
        reason,
    };
    let chunk = vec![in rt.alloc(); 0; AT_ONCE]?;
    let mut source = ListeningSource::new(rt.alloc(), script, &watch, teller, chunk);
    let mut sink = ListeningSink {
        sink: answers,
        watch: &watch,
    };
    let end = played(rt.alloc(), runner, &mut source, &mut sink, &watch, graph);
    source.tell();
    if end.is_ok() && source.is_stopped() {
        return Err(Fault::Step);
    }
    end
}

/// Plays a script, and gives the version that it makes last.
fn played<K: StateRepresentation, W: Runner, R: Source, S: Sink>(
    alloc: Global,
    runner: &W,
    source: &mut R,
    sink: &mut S,
    watch: &Watch,
    graph: Graph<K>,
) -> Result<Version<K>, Fault>
    requires ranked { IsRanked graph.places }
    requires reads { R.failures source.old ≡ 0 }
    requires writes { S.failures sink.old ≡ 0 }
{
    let end = play(alloc, runner, source, sink, graph, Format::Text);
    watch.ends();
    served(end)
}

/// Writes a version as a recording.
pub(crate) fn write_version<K: StateRepresentation>(
    rt: &HostRuntime,
    voice: Voice<'_>,
    version: &Version<K>,
) -> Result<(), Fault> {
    let reason = Cell::new(None);
    let mut sink = console::output(rt, &reason)?;
    let end = written(write_recording(rt.alloc(), version.graph(), &mut sink));
    let end = flushed(&mut sink, end);
    with_reason(voice, &reason, end)
}
