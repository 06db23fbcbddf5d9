//! A script that is played for a page or a picture.
ghost use Rattle.std.specs.Prelude.{◌≡◌};
ghost use Rattle.stage_graph.specs.Walk.{IsRanked};
ghost use Rattle.text_io.specs.Counted.{write_failures};

use crate::fault::served;
use console::{
    Fault, ListeningSink, ListeningSource, Remembering, StepTeller, Voice, Watch, with_read_reason,
};
use level_pool::Runner;
use recording::Told;
use report_form::Format;
use script_lines::AT_ONCE;
use serve_script::serve_table;
use session_core::Table;
use share_tree::Again;
use stage_graph::Graph;
use std::alloc::{AllocError, Global};
use std::cell::Cell;
use std::io;
use text_io::{CountedWriter, Sink, Source};
use version_store::{StateRepresentation, Version};

/// A script, and what came of it.
#[derive(Drop)]
pub(crate) struct Played<'a, K: StateRepresentation> {
    /// The name of its file.
    pub(crate) file: &'a str,
    /// Its text, as it was read.
    pub(crate) text: Vec<u8>,
    /// What its steps were answered: lines, each of which is one JSON object.
    pub(crate) answers: Vec<u8>,
    /// The versions that it made, the first of them version 1.
    pub(crate) made: Vec<Version<K>>,
    /// What the labels of the recording tell.
    pub(crate) told: Told,
}

/// Plays the script of a file about a recording, and tells of its refused steps.
pub(crate) fn play_script<'a, K: StateRepresentation, W: Runner>(
    rt: &HostRuntime,
    runner: &W,
    voice: Voice<'_>,
    recording: &[u8],
    script: &'a str,
) -> Result<Played<'a, K>, Fault> {
    let text = console::script(rt, voice, script)?;
    let (graph, told) = console::labelled_graph::<K>(rt.alloc(), voice, recording)?;
    let mut known = Vec::with_capacity(rt.alloc(), recording.len())?;
    known.extend_from_slice(recording)?;
    let teller = StepTeller::new(rt.alloc(), voice, known);
    let end = answered(rt, runner, teller, graph, text.as_slice());
    let (answers, table) = with_read_reason(voice, script, &Cell::new(None), end)?;
    Ok(Played {
        file: script,
        text,
        answers,
        made: made_versions(rt.alloc(), &table)?,
        told,
    })
}

/// Where answers are kept. It lives as standard output does, as the borrow checker covers a call that plays a script only where
/// its sink has such a lifetime.
fn kept_answers<'a>(
    rt: &'a HostRuntime,
    reason: &'a Cell<Option<io::Error>>,
) -> CountedWriter<Remembering<'a, Vec<u8>>>
    ensures { write_failures result ≡ 0 }
{
    CountedWriter::new(Remembering {
        device: Vec::new(rt.alloc()),
        reason,
    })
}

/// What the steps of a script are answered, and the table that they leave; its refused steps are told.
fn answered<K: StateRepresentation, W: Runner>(
    rt: &HostRuntime,
    runner: &W,
    teller: StepTeller<'_>,
    graph: Graph<K>,
    script: &[u8],
) -> Result<(Vec<u8>, Table<K>), Fault>
    requires { IsRanked graph.places }
{
    let watch = Watch::new(rt.alloc())?;
    let unkept = Cell::new(None);
    let answers = kept_answers(rt, &unkept);
    let chunk = vec![in rt.alloc(); 0; AT_ONCE]?;
    let mut source = ListeningSource::new(rt.alloc(), script, &watch, teller, chunk);
    let mut sink = ListeningSink {
        sink: answers,
        watch: &watch,
    };
    let end = table_left(rt.alloc(), runner, &mut source, &mut sink, &watch, graph);
    source.tell();
    if end.is_ok() && source.is_stopped() {
        return Err(Fault::Step);
    }
    let table = end?;
    let ListeningSink { sink, .. } = sink;
    let Remembering { device, .. } = sink.into_inner();
    Ok((device, table))
}

/// Plays a script, and gives the table that it leaves. Answers go to memory, so a write fails where that runs out.
fn table_left<K: StateRepresentation, W: Runner, R: Source, S: Sink>(
    alloc: Global,
    runner: &W,
    source: &mut R,
    sink: &mut S,
    watch: &Watch,
    graph: Graph<K>,
) -> Result<Table<K>, Fault>
    requires ranked { IsRanked graph.places }
    requires reads { R.failures source.old ≡ 0 }
    requires writes { S.failures sink.old ≡ 0 }
{
    let end = serve_table(alloc, runner, source, sink, graph, Format::Json);
    watch.ends();
    match served(end) {
        Err(Fault::Write(_)) => Err(Fault::Memory),
        end => end,
    }
}

/// The versions of a table but the first.
fn made_versions<K: StateRepresentation>(
    alloc: Global,
    table: &Table<K>,
) -> Result<Vec<Version<K>>, AllocError> {
    let mut made = Vec::new(alloc);
    for number in 1..=table.last().number() {
        if let Ok(version) = table.version(number) {
            made.push(version.again()?)?;
        }
    }
    Ok(made)
}
