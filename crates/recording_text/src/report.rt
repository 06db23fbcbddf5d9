//! A version as a recording, where a script asks for it: as lines, or as a JSON object.
ghost use Rattle.std.specs.Prelude.{◌≡◌, ◌++◌, ◌∷◌, [], ◌+◌, ◌-◌, ◌^◌, ◌<◌, ◌≤◌, length, IfOk, OnOk, OnErr, codes, option_map, string_bytes};
ghost use Rattle.std.specs.Io.KnownBytes.{Appends};
ghost use Rattle.json.specs.Json.{string};
ghost use Rattle.json.specs.Print.{print};
ghost use Rattle.json.specs.Tree.{json_tokens};
ghost use Rattle.text_io.specs.Sink.{AppendsPrefix};
ghost use Rattle.stage_graph.specs.Plain.{stage_at};
ghost use Rattle.recording.specs.WrittenStages.{mode_text};
ghost use Rattle.recording_text.specs.Faults.{failed_writes};
ghost use Rattle.recording_text.specs.Json.{count, list_tokens, recording_json, row, row_tokens, stage_json};
ghost use Rattle.recording_text.specs.Named.{specs_of};
ghost use Rattle.recording_text.specs.Reports.{place_count, place_tokens, report_head, report_json, report_lines, report_object};

use crate::fault::TextFault;
use crate::line::Line;
use crate::members::{push_count, push_text};
use crate::stage::push_stage;
use crate::writing::write_recording;
use act_expr::Mode;
use json::Token;
use stage_graph::{Graph, Representation};
use std::alloc::{AllocError, Global};
use std::fmt::Write;
use text_io::Sink;

/// How many stages stand at a place.
fn count_at<R: Representation>(graph: &Graph<R>, place: u32) -> usize
    ensures { result ≡ place_count (stage_at graph.now.places place) }
{
    match graph.stage(place) {
        Some(_) => 1,
        None => 0,
    }
}

/// How many stages a graph has, without its empty places.
fn live_count<R: Representation>(graph: &Graph<R>) -> usize
    ensures count { result ≡ length (specs_of graph.now) }
    ensures bound { result ≤ length graph.now.places }
{
    let mut count = 0;
    for place in 0..graph.len() as u32 {
        count += count_at(graph, place);
    }
    count
}

/// Adds the line before a recording of so many lines.
fn push_report_head(line: &mut String, number: u32, lines: usize) -> Result<(), AllocError>
    ensures { OnOk result (string_bytes line.new ≡ string_bytes line.old ++ report_head number lines) }
{
    writeln!(line, "recording of version {number} lines {lines}")
}

/// The line before a graph as a recording.
fn report_head<R: Representation>(
    alloc: Global,
    graph: &Graph<R>,
    number: u32,
) -> Result<String, AllocError>
    ensures { IfOk result (λ line. string_bytes line ≡ report_head number (length (specs_of graph.now) + 2)) }
{
    // With its length a graph says that it is sound, as every graph is.
    let _ = graph.len();
    let lines = live_count(graph) + 2;
    let mut line = String::new(alloc);
    push_report_head(&mut line, number, lines)?;
    Ok(line)
}

/// Writes a version as a recording, behind a line that says its number and how many lines follow.
///
/// Errors: `Write` where a write failed or took nothing; `Memory`. Then a prefix was written.
pub fn write_report_lines<R: Representation, S: Sink>(
    alloc: Global,
    graph: &Graph<R>,
    number: u32,
    sink: &mut S,
) -> Result<(), TextFault>
    requires { S.failures sink.old < 2 ^ 64 - 1 }
    ensures ok { OnOk result (Appends (S.held sink.old) (S.held sink.new) (report_lines number graph.now)) }
    ensures err { OnErr result (AppendsPrefix (S.held sink.old) (S.held sink.new) (report_lines number graph.now)) }
    ensures failures { S.failures sink.new ≡ S.failures sink.old + failed_writes result }
{
    let head = report_head(alloc, graph, number)?;
    sink.write(head.as_bytes())?;
    write_recording(alloc, graph, sink)
}

fn mode_text(mode: Mode) -> &'static str
    ensures { result.now ≡ mode_text mode }
{
    match mode {
        Mode::Computed => "computed",
        Mode::Literal => "literal",
    }
}

/// Adds the stage at a place, if one stands there.
fn push_place<R: Representation>(
    line: &mut Line,
    graph: &Graph<R>,
    place: u32,
) -> Result<(), AllocError>
    ensures { OnOk result (line.new ≡ line.old ++ place_tokens graph.now.places (stage_at graph.now.places place)) }
{
    match graph.stage(place) {
        Some(stage) => push_stage(line, graph, stage),
        None => Ok(()),
    }
}

/// Adds all stages.
fn push_stages<R: Representation>(line: &mut Line, graph: &Graph<R>) -> Result<(), AllocError>
    ensures { OnOk result (line.new ≡ line.old ++ list_tokens stage_json (specs_of graph.now)) }
{
    for place in 0..graph.len() as u32 {
        push_place(line, graph, place)?;
    }
    Ok(())
}

/// Adds a recording.
fn push_recording<R: Representation>(line: &mut Line, graph: &Graph<R>) -> Result<(), AllocError>
    ensures { OnOk result (line.new ≡ line.old ++ json_tokens (recording_json graph.now.mode (specs_of graph.now))) }
{
    line.token(Token::BeginObject)?;
    push_count(line, "form", 2)?;
    push_text(line, "wrap", mode_text(graph.mode()))?;
    line.key("stages")?;
    line.token(Token::BeginArray)?;
    push_stages(line, graph)?;
    line.token(Token::EndArray)?;
    line.token(Token::EndObject)
}

/// Adds the number of the script's line that is answered, if there is a script.
fn push_line_number(line: &mut Line, number: Option<u64>) -> Result<(), AllocError>
    ensures { OnOk result (line.new ≡ line.old ++ row_tokens (codes "line", option_map count number)) }
{
    match number {
        Some(number) => push_count(line, "line", number),
        None => Ok(()),
    }
}

/// Adds a recording as a member.
fn push_named_recording<R: Representation>(
    line: &mut Line,
    graph: &Graph<R>,
) -> Result<(), AllocError>
    ensures { OnOk result (line.new ≡ line.old ++ row_tokens (row (codes "recording") (recording_json graph.now.mode (specs_of graph.now)))) }
{
    line.key("recording")?;
    push_recording(line, graph)
}

/// Adds the object that has a version as a recording.
fn push_report<R: Representation>(
    line: &mut Line,
    graph: &Graph<R>,
    number: u32,
    answered: Option<u64>,
) -> Result<(), AllocError>
    ensures { OnOk result (line.new ≡ line.old ++ json_tokens (report_json answered number graph.now)) }
{
    line.token(Token::BeginObject)?;
    push_line_number(line, answered)?;
    push_named_recording(line, graph)?;
    push_text(line, "report", "recording")?;
    push_count(line, "version", u64::from(number))?;
    line.token(Token::EndObject)
}

/// The object that has a version as a recording, as one line.
fn report_object<R: Representation>(
    alloc: Global,
    graph: &Graph<R>,
    number: u32,
    answered: Option<u64>,
) -> Result<Vec<u8>, AllocError>
    ensures { IfOk result (λ line. line.items ≡ report_object answered number graph.now) }
{
    let mut line = Line::new(alloc)?;
    push_report(&mut line, graph, number, answered)?;
    let mut bytes = line.into_bytes();
    bytes.push(b'\n')?;
    Ok(bytes)
}

/// Writes a version as a recording that is a member of a JSON object, as one line. `answered` is the number of the script's
/// line that the object answers, which becomes a member of it; None where there is no script.
///
/// Errors: `Write` where a write failed or took nothing; `Memory`, and then nothing is written.
pub fn write_report_object<R: Representation, S: Sink>(
    alloc: Global,
    graph: &Graph<R>,
    number: u32,
    answered: Option<u64>,
    sink: &mut S,
) -> Result<(), TextFault>
    requires { S.failures sink.old < 2 ^ 64 - 1 }
    ensures ok { OnOk result (Appends (S.held sink.old) (S.held sink.new) (report_object answered number graph.now)) }
    ensures err { OnErr result (AppendsPrefix (S.held sink.old) (S.held sink.new) (report_object answered number graph.now)) }
    ensures failures { S.failures sink.new ≡ S.failures sink.old + failed_writes result }
{
    let bytes = report_object(alloc, graph, number, answered)?;
    sink.write(bytes.as_slice())?;
    Ok(())
}
