//! A script from standard input, answered line by line.
ghost use Rattle.std.specs.Prelude.{◌≡◌};
ghost use Rattle.stage_graph.specs.Walk.{IsRanked};

use crate::fault::served;
use crate::format::format_of;
use command_line::Manner;
use console::{
    Fault, ListeningSink, ListeningSource, Named, Remembering, StepTeller, Voice, Watch, flushed,
    warn, with_read_reason, with_reason,
};
use level_pool::Runner;
use report_form::Format;
use script_lines::AT_ONCE;
use serve_script::serve_last;
use stage_graph::Graph;
use std::alloc::Global;
use std::cell::Cell;
use text_io::{Sink, Source};
use version_store::StateRepresentation;

/// Answers a script from standard input, about the recording of a file.
pub fn run_serve<'a, K: StateRepresentation, W: Runner>(
    rt: &'a HostRuntime,
    runner: &W,
    manner: Manner,
    path: &'a str,
) -> Result<(), Fault> {
    let voice = Voice::of_file(rt, manner, path);
    let recording = console::file(rt, voice, path, Named::RecordingOfInput)?;
    warn(rt.alloc(), voice, &recording)?;
    match console::graph::<K>(rt.alloc(), voice, &recording) {
        Ok(graph) => {
            let teller = StepTeller::new(rt.alloc(), voice, recording);
            serve_listening(rt, runner, voice, teller, graph, format_of(manner))
        }
        Err(fault) => Err(fault.before_script(rt.alloc())),
    }
}

/// Answers a script from standard input, and tells of its refused steps.
fn serve_listening<K: StateRepresentation, W: Runner>(
    rt: &HostRuntime,
    runner: &W,
    voice: Voice<'_>,
    teller: StepTeller<'_>,
    graph: Graph<K>,
    format: Format,
) -> Result<(), Fault>
    requires { IsRanked graph.places }
{
    let watch = Watch::new(rt.alloc())?;
    let reason = Cell::new(None);
    let output = console::output(rt, &reason)?;
    let chunk = vec![in rt.alloc(); 0; AT_ONCE]?;
    let unread = Cell::new(None);
    let input = Remembering {
        device: rt.stdin(),
        reason: &unread,
    };
    let mut source = ListeningSource::new(rt.alloc(), input, &watch, teller, chunk);
    let mut sink = ListeningSink {
        sink: output,
        watch: &watch,
    };
    let end = answered(
        rt.alloc(),
        runner,
        &mut source,
        &mut sink,
        &watch,
        graph,
        format,
    );
    let end = with_reason(voice, &reason, end);
    let end = with_read_reason(voice, "standard input", &unread, end);
    source.tell();
    if end.is_ok() && source.is_stopped() {
        return Err(Fault::Step);
    }
    end
}

/// Answers a script, and passes on what was answered.
fn answered<K: StateRepresentation, W: Runner, R: Source, S: Sink>(
    alloc: Global,
    runner: &W,
    source: &mut R,
    sink: &mut S,
    watch: &Watch,
    graph: Graph<K>,
    format: Format,
) -> Result<(), Fault>
    requires ranked { IsRanked graph.places }
    requires reads { R.failures source.old ≡ 0 }
    requires writes { S.failures sink.old ≡ 0 }
{
    let end = serve_last(alloc, runner, source, sink, graph, format);
    watch.ends();
    flushed(sink, served(end))
}
