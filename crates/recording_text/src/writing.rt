//! The text of a recording, written to a sink a line at a time.
ghost use Rattle.std.specs.Prelude.{◌≡◌, ◌+◌, ◌-◌, ◌^◌, ◌<◌, ◌++◌, OnOk, OnErr, IfOk, is_some, ◌||◌, false};
ghost use Rattle.std.specs.Io.KnownBytes.{Appends};
ghost use Rattle.stage_graph.specs.Plain.{stage_at};
ghost use Rattle.text_io.specs.Sink.{AppendsPrefix};
ghost use Rattle.recording_text.specs.Faults.{failed_writes};
ghost use Rattle.recording_text.specs.Named.{named_stage, specs_of};
ghost use Rattle.recording_text.specs.Texts.{head_text, line_break, lines, place_text, recording_text, stage_text};

use crate::fault::TextFault;
use crate::stage::stage_line;
use act_expr::Mode;
use stage_graph::{Graph, Representation, Stage};
use std::alloc::Global;
use text_io::Sink;

/// What comes before the stages.
fn head_text(mode: Mode) -> &'static str
    ensures { result.now ≡ head_text mode }
{
    match mode {
        Mode::Computed => "{\"form\":2,\"wrap\":\"computed\",\"stages\":[",
        Mode::Literal => "{\"form\":2,\"wrap\":\"literal\",\"stages\":[",
    }
}

/// What ends the line before a stage.
pub(crate) fn line_break(later: bool) -> &'static str
    ensures { result.now ≡ line_break later }
{
    if later { ",\n" } else { "\n" }
}

/// Writes a text.
fn write_text<S: Sink>(text: &str, sink: &mut S) -> Result<(), TextFault>
    requires { S.failures sink.old < 2 ^ 64 - 1 }
    ensures ok { OnOk result (Appends (S.held sink.old) (S.held sink.new) text.now) }
    ensures err { OnErr result (AppendsPrefix (S.held sink.old) (S.held sink.new) text.now) }
    ensures failures { S.failures sink.new ≡ S.failures sink.old + failed_writes result }
{
    sink.write(text.as_bytes())?;
    Ok(())
}

/// Writes the line of a stage behind what ends the line before it.
fn write_stage<R: Representation, S: Sink>(
    alloc: Global,
    graph: &Graph<R>,
    stage: &Stage,
    later: bool,
    sink: &mut S,
) -> Result<(), TextFault>
    requires { S.failures sink.old < 2 ^ 64 - 1 }
    ensures ok { OnOk result (Appends (S.held sink.old) (S.held sink.new) (line_break later ++ stage_text (named_stage graph.now.places stage.now))) }
    ensures err { OnErr result (AppendsPrefix (S.held sink.old) (S.held sink.new) (line_break later ++ stage_text (named_stage graph.now.places stage.now))) }
    ensures failures { S.failures sink.new ≡ S.failures sink.old + failed_writes result }
{
    let line = stage_line(alloc, graph, stage)?;
    write_text(line_break(later), sink)?;
    sink.write(line.as_slice())?;
    Ok(())
}

/// Writes the line of the stage at a place, and answers whether a stage stands there or stood before.
fn write_place<R: Representation, S: Sink>(
    alloc: Global,
    graph: &Graph<R>,
    place: u32,
    later: bool,
    sink: &mut S,
) -> Result<bool, TextFault>
    requires { S.failures sink.old < 2 ^ 64 - 1 }
    ensures stood { IfOk result (λ stood. stood ≡ (later || is_some (stage_at graph.now.places place))) }
    ensures ok { OnOk result (Appends (S.held sink.old) (S.held sink.new) (place_text graph.now.places later (stage_at graph.now.places place))) }
    ensures err { OnErr result (AppendsPrefix (S.held sink.old) (S.held sink.new) (place_text graph.now.places later (stage_at graph.now.places place))) }
    ensures failures { S.failures sink.new ≡ S.failures sink.old + failed_writes result }
{
    match graph.stage(place) {
        Some(stage) => {
            write_stage(alloc, graph, stage, later, sink)?;
            Ok(true)
        }
        None => Ok(later),
    }
}

/// Writes the lines of all live stages.
fn write_stages<R: Representation, S: Sink>(
    alloc: Global,
    graph: &Graph<R>,
    sink: &mut S,
) -> Result<(), TextFault>
    requires { S.failures sink.old < 2 ^ 64 - 1 }
    ensures ok { OnOk result (Appends (S.held sink.old) (S.held sink.new) (lines false (specs_of graph.now))) }
    ensures err { OnErr result (AppendsPrefix (S.held sink.old) (S.held sink.new) (lines false (specs_of graph.now))) }
    ensures failures { S.failures sink.new ≡ S.failures sink.old + failed_writes result }
{
    let mut later = false;
    for place in 0..graph.len() as u32 {
        later = write_place(alloc, graph, place, later, sink)?;
    }
    Ok(())
}

/// Writes the text of a graph as a recording of form 2, a stage a line. A member that has its default is left out, and so
/// is an empty place.
///
/// Errors: `Write` where a write failed or took nothing; `Memory`. Then a prefix of the text was written.
pub fn write_recording<R: Representation, S: Sink>(
    alloc: Global,
    graph: &Graph<R>,
    sink: &mut S,
) -> Result<(), TextFault>
    requires { S.failures sink.old < 2 ^ 64 - 1 }
    ensures ok { OnOk result (Appends (S.held sink.old) (S.held sink.new) (recording_text graph.now)) }
    ensures err { OnErr result (AppendsPrefix (S.held sink.old) (S.held sink.new) (recording_text graph.now)) }
    ensures failures { S.failures sink.new ≡ S.failures sink.old + failed_writes result }
{
    write_text(head_text(graph.mode()), sink)?;
    write_stages(alloc, graph, sink)?;
    write_text("\n]}\n", sink)
}
