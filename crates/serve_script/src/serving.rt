//! The loop that reads a script and answers its lines.
ghost use Rattle.std.specs.Prelude.{◌≡◌, [], ◌∷◌, ◌++◌, ◌+◌, ◌-◌, ◌^◌, ◌<◌, ◌≤◌, length, Some, OnOk, OnErr, IfOk, IfErr};
ghost use Rattle.std.specs.Option.{option_map};
ghost use Rattle.text_io.specs.Sink.{Advances, StopsShort};
ghost use Rattle.stage_graph.specs.Walk.{IsRanked};
ghost use Rattle.serve_script.specs.Faults.{failed_writes, failed_writes_of_serve};
ghost use Rattle.script_lines.specs.Lines.{IsBegun, comes_after};
ghost use Rattle.script_lines.specs.Seen.{seen};
ghost use Rattle.serve_script.specs.Serves.{ServesAll, ServesPart};
ghost use Rattle.serve_script.specs.Answers.{answers_from, answers_to, opening_state, played_from};
ghost use Rattle.serve_script.specs.Playing.{PlaysAll, PlaysOn, PlaysTo};

use crate::fault::{AnswerFault, ServeFault};
use crate::server::Server;
use level_pool::Runner;
use report_form::Format;
use script_lines::{Line, LineReader};
use session_core::Table;
use stage_graph::Graph;
use std::alloc::Global;
use std::mem::forget;
use text_io::{Sink, Source};
use version_store::{StateRepresentation, Version};

/// Reads a script to its end, and writes the answers to its steps as they come: version 0 has the graph, and 65,536 versions
/// are allowed. What was written is flushed before each read, so that a reader who waits for an answer gets it.
///
/// Errors: `Read` where a read failed or 1,073,741,824 bytes were read, `Write` where a write or a flush failed or took
/// nothing, `Memory`.
pub fn serve<K: StateRepresentation, W: Runner, R: Source, S: Sink>(
    alloc: Global,
    runner: &W,
    source: &mut R,
    sink: &mut S,
    graph: Graph<K>,
    format: Format,
) -> Result<(), ServeFault>
    requires ranked { IsRanked graph.places }
    requires reads { R.failures source.old < 2 ^ 64 - 1 }
    requires writes { S.failures sink.old < 2 ^ 64 - 1 }
    ensures ok { OnOk result (ServesAll (2 ^ 30) (answers_to format graph) (R.remaining source.old) (R.remaining source.new)
        (R.failures source.old) (R.failures source.new) (S.held sink.old) (S.held sink.new)) }
    ensures err { IfErr result (ServesPart (2 ^ 30) (answers_to format graph) (R.remaining source.old) (R.remaining source.new)
        (R.failures source.old) (R.failures source.new) (S.held sink.old) (S.held sink.new)) }
    ensures failures { S.failures sink.new ≡ S.failures sink.old + failed_writes_of_serve result }
{
    let mut server = Server::new(alloc, graph, runner)?;
    answer_script(alloc, source, &mut server, format, sink)
}

/// Reads and answers a script, as `serve` does, for a program that has nothing left to do then: the versions are not dropped one
/// by one, but left to the system, which takes back the memory of a process that ends.
///
/// Errors: those of `serve`.
pub fn serve_last<K: StateRepresentation, W: Runner, R: Source, S: Sink>(
    alloc: Global,
    runner: &W,
    source: &mut R,
    sink: &mut S,
    graph: Graph<K>,
    format: Format,
) -> Result<(), ServeFault>
    requires ranked { IsRanked graph.places }
    requires reads { R.failures source.old < 2 ^ 64 - 1 }
    requires writes { S.failures sink.old < 2 ^ 64 - 1 }
    ensures ok { OnOk result (ServesAll (2 ^ 30) (answers_to format graph) (R.remaining source.old) (R.remaining source.new)
        (R.failures source.old) (R.failures source.new) (S.held sink.old) (S.held sink.new)) }
    ensures err { IfErr result (ServesPart (2 ^ 30) (answers_to format graph) (R.remaining source.old) (R.remaining source.new)
        (R.failures source.old) (R.failures source.new) (S.held sink.old) (S.held sink.new)) }
    ensures failures { S.failures sink.new ≡ S.failures sink.old + failed_writes_of_serve result }
{
    let mut server = Server::new(alloc, graph, runner)?;
    let end = answer_script(alloc, source, &mut server, format, sink);
    forget(server);
    end
}

/// Reads and answers a script, as `serve` does, and gives the version that was made last: the one of the greatest number.
///
/// Errors: those of `serve`.
pub fn play<K: StateRepresentation, W: Runner, R: Source, S: Sink>(
    alloc: Global,
    runner: &W,
    source: &mut R,
    sink: &mut S,
    graph: Graph<K>,
    format: Format,
) -> Result<Version<K>, ServeFault>
    requires ranked { IsRanked graph.places }
    requires reads { R.failures source.old < 2 ^ 64 - 1 }
    requires writes { S.failures sink.old < 2 ^ 64 - 1 }
    ensures ok { IfOk result (λ version. PlaysTo (2 ^ 30) format graph version (R.remaining source.old) (R.remaining source.new)
        (R.failures source.old) (R.failures source.new) (S.held sink.old) (S.held sink.new)) }
    ensures err { IfErr result (ServesPart (2 ^ 30) (answers_to format graph) (R.remaining source.old) (R.remaining source.new)
        (R.failures source.old) (R.failures source.new) (S.held sink.old) (S.held sink.new)) }
    ensures failures { S.failures sink.new ≡ S.failures sink.old + failed_writes_of_serve result }
{
    let mut server = Server::new(alloc, graph, runner)?;
    answer_script(alloc, source, &mut server, format, sink)?;
    Ok(server.last()?)
}

/// Reads and answers a script, as `serve` does, and gives the table that it leaves: all versions that were made, version 0 first.
///
/// Errors: those of `serve`.
pub fn serve_table<K: StateRepresentation, W: Runner, R: Source, S: Sink>(
    alloc: Global,
    runner: &W,
    source: &mut R,
    sink: &mut S,
    graph: Graph<K>,
    format: Format,
) -> Result<Table<K>, ServeFault>
    requires ranked { IsRanked graph.places }
    requires reads { R.failures source.old < 2 ^ 64 - 1 }
    requires writes { S.failures sink.old < 2 ^ 64 - 1 }
    ensures ok { IfOk result (λ table. PlaysAll (2 ^ 30) format (opening_state graph) table.state (R.remaining source.old) (R.remaining source.new)
        (R.failures source.old) (R.failures source.new) (S.held sink.old) (S.held sink.new)) }
    ensures err { IfErr result (ServesPart (2 ^ 30) (answers_to format graph) (R.remaining source.old) (R.remaining source.new)
        (R.failures source.old) (R.failures source.new) (S.held sink.old) (S.held sink.new)) }
    ensures failures { S.failures sink.new ≡ S.failures sink.old + failed_writes_of_serve result }
{
    let mut server = Server::new(alloc, graph, runner)?;
    answer_script(alloc, source, &mut server, format, sink)?;
    Ok(server.into_table())
}

// Reads and answers a script.
fn answer_script<K: StateRepresentation, W: Runner, R: Source, S: Sink>(
    alloc: Global,
    source: &mut R,
    server: &mut Server<'_, K, W>,
    format: Format,
    sink: &mut S,
) -> Result<(), ServeFault>
    requires reads { R.failures source.old < 2 ^ 64 - 1 }
    requires writes { S.failures sink.old < 2 ^ 64 - 1 }
    ensures ok { OnOk result (PlaysAll (2 ^ 30) format server.old server.new (R.remaining source.old) (R.remaining source.new)
        (R.failures source.old) (R.failures source.new) (S.held sink.old) (S.held sink.new)) }
    ensures err { IfErr result (ServesPart (2 ^ 30) (answers_from format 1 server.old) (R.remaining source.old) (R.remaining source.new)
        (R.failures source.old) (R.failures source.new) (S.held sink.old) (S.held sink.new)) }
    ensures failures { S.failures sink.new ≡ S.failures sink.old + failed_writes_of_serve result }
{
    let mut lines = LineReader::new(alloc)?;
    serve_lines(&mut lines, source, server, format, sink)
}

// Answers a script, up to as many bytes as may be read.
fn serve_lines<K: StateRepresentation, W: Runner, R: Source, S: Sink>(
    lines: &mut LineReader,
    source: &mut R,
    server: &mut Server<'_, K, W>,
    format: Format,
    sink: &mut S,
) -> Result<(), ServeFault>
    requires begun { lines.old.line ≡ Some [] }
    requires waiting { lines.old.waiting ≡ [] }
    requires count { lines.old.left < 2 ^ 64 - 1 }
    requires reads { R.failures source.old < 2 ^ 64 - 1 }
    requires writes { S.failures sink.old < 2 ^ 64 - 1 }
    ensures ok { OnOk result (PlaysAll lines.old.left format server.old server.new (R.remaining source.old) (R.remaining source.new)
        (R.failures source.old) (R.failures source.new) (S.held sink.old) (S.held sink.new)) }
    ensures err { IfErr result (ServesPart lines.old.left (answers_from format 1 server.old) (R.remaining source.old) (R.remaining source.new)
        (R.failures source.old) (R.failures source.new) (S.held sink.old) (S.held sink.new)) }
    ensures failures { S.failures sink.new ≡ S.failures sink.old + failed_writes_of_serve result }
{
    let mut number = 1;
    loop {
        answer_waiting(lines, &mut number, server, format, sink)?;
        sink.flush()?;
        if lines.left() == 0 {
            return Err(ServeFault::Read);
        }
        if !lines.read_more(source)? {
            answer_any(lines.line(), number, server, format, sink)?;
            sink.flush()?;
            return Ok(());
        }
    }
}

// Answers the lines that end in what waits; `number` is that of the line that is begun.
fn answer_waiting<K: StateRepresentation, W: Runner, S: Sink>(
    lines: &mut LineReader,
    number: &mut u64,
    server: &mut Server<'_, K, W>,
    format: Format,
    sink: &mut S,
) -> Result<(), AnswerFault>
    requires room { S.failures sink.old < 2 ^ 64 - 1 }
    requires count { number.old + length lines.old.waiting < 2 ^ 64 }
    ensures count { OnOk result (number.new ≤ number.old + length lines.old.waiting) }
    ensures begun { OnOk result (IsBegun lines.new.line) }
    ensures waiting { OnOk result (lines.new.waiting ≡ []) }
    ensures left { lines.new.left ≡ lines.old.left }
    ensures ok { OnOk result (Advances
        (λ bytes. answers_from format number.old server.old (comes_after lines.old.line (lines.old.waiting ++ bytes)))
        (λ bytes. answers_from format number.new server.new (comes_after lines.new.line (lines.new.waiting ++ bytes)))
        (S.held sink.old) (S.held sink.new)) }
    ensures played { OnOk result (PlaysOn
        (λ bytes. played_from format number.old server.old (comes_after lines.old.line (lines.old.waiting ++ bytes)))
        (λ bytes. played_from format number.new server.new (comes_after lines.new.line (lines.new.waiting ++ bytes)))) }
    ensures err { OnErr result (StopsShort
        (λ bytes. answers_from format number.old server.old (comes_after lines.old.line (lines.old.waiting ++ bytes)))
        (S.held sink.old) (S.held sink.new)) }
    ensures failures { S.failures sink.new ≡ S.failures sink.old + failed_writes result }
{
    while lines.take_line()? {
        answer_any(lines.line(), *number, server, format, sink)?;
        *number += 1;
        lines.clear();
    }
    Ok(())
}

// Answers the line of this number, if it is no blank one.
fn answer_any<K: StateRepresentation, W: Runner, S: Sink>(
    line: Option<Line<'_>>,
    number: u64,
    server: &mut Server<'_, K, W>,
    format: Format,
    sink: &mut S,
) -> Result<(), AnswerFault>
    requires { S.failures sink.old < 2 ^ 64 - 1 }
    ensures ok { OnOk result (Advances
        (λ lines. answers_from format number server.old (option_map seen line.entry ∷ lines))
        (answers_from format (number + 1) server.new) (S.held sink.old) (S.held sink.new)) }
    ensures played { OnOk result (PlaysOn
        (λ lines. played_from format number server.old (option_map seen line.entry ∷ lines))
        (played_from format (number + 1) server.new)) }
    ensures err { OnErr result (StopsShort
        (λ lines. answers_from format number server.old (option_map seen line.entry ∷ lines))
        (S.held sink.old) (S.held sink.new)) }
    ensures failures { S.failures sink.new ≡ S.failures sink.old + failed_writes result }
{
    match line {
        Some(line) => server.answer(line, format.form(Some(number)), sink),
        None => Ok(()),
    }
}
