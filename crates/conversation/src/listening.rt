//! The lines from standard input, one after the other.
ghost use Rattle.stage_graph.specs.Walk.{IsRanked};

use crate::served::Served;
use crate::setting::Setting;
use crate::talk::Talk;
use command_line::{Manner, Printed};
use console::{Fault, Named, Remembering, Voice, warn, with_read_reason};
use level_pool::Runner;
use script_lines::{Line, LineFault, LineReader};
use stage_graph::Graph;
use std::cell::Cell;
use std::io::IsTerminal;
use text_io::CountedReader;
use version_store::StateRepresentation;

/// Answers the lines that a person says about the recording of a file.
pub fn run_console<'a, K: StateRepresentation, W: Runner>(
    rt: &'a HostRuntime,
    runner: &W,
    manner: Manner,
    path: &'a str,
    printed: Printed,
) -> Result<(), Fault> {
    let voice = Voice::of_file(rt, manner, path);
    let recording = console::file(rt, voice, path, Named::RecordingOfInput)?;
    warn(rt.alloc(), voice, &recording)?;
    let graph = console::graph::<K>(rt.alloc(), voice, &recording)?;
    converse(rt, runner, voice, recording.as_slice(), graph, printed)
}

/// Answers the lines that a person says about a graph.
fn converse<K: StateRepresentation, W: Runner>(
    rt: &HostRuntime,
    runner: &W,
    voice: Voice<'_>,
    recording: &[u8],
    graph: Graph<K>,
    printed: Printed,
) -> Result<(), Fault>
    requires { IsRanked graph.places }
{
    let served = Served::new(rt.alloc(), graph, runner)?;
    let setting = Setting {
        alloc: rt.alloc(),
        voice,
        runner,
        recording,
    };
    let mut talk = Talk::new(rt, setting, served, printed);
    talk.begin()?;
    let mut lines = LineReader::new(rt.alloc())?;
    listen(rt, voice, &mut lines, &mut talk)
}

/// Answers line after line, to the end of standard input or to the line that says so.
fn listen<K: StateRepresentation, W: Runner>(
    rt: &HostRuntime,
    voice: Voice<'_>,
    lines: &mut LineReader,
    talk: &mut Talk<'_, K, W>,
) -> Result<(), Fault> {
    let is_prompting = rt.stdin().is_terminal();
    for _ in 0..u64::MAX {
        if is_prompting {
            talk.prompt()?;
        }
        let is_more = next_line(rt, voice, lines)?;
        let goes_on = hear(talk, lines.line())?;
        if !goes_on {
            return Ok(());
        }
        if !is_more {
            if is_prompting {
                // (the shell's own prompt begins a line)
                let _ = rt.eprintln(format_args!(""));
            }
            return Ok(());
        }
    }
    Ok(())
}

/// Reads on to the end of the next line, or of standard input; whether the line has ended.
fn next_line(rt: &HostRuntime, voice: Voice<'_>, lines: &mut LineReader) -> Result<bool, Fault> {
    let unread = Cell::new(None);
    let mut source = CountedReader::new(Remembering {
        device: rt.stdin(),
        reason: &unread,
    });
    let end = match lines.advance(&mut source) {
        Ok(is_more) => Ok(is_more),
        Err(LineFault::Memory) => Err(Fault::Memory),
        Err(LineFault::Read) => Err(Fault::Read(None)),
    };
    with_read_reason(voice, "standard input", &unread, end)
}

/// Answers a line, if there is one; whether another one may follow.
fn hear<K: StateRepresentation, W: Runner>(
    talk: &mut Talk<'_, K, W>,
    line: Option<Line<'_>>,
) -> Result<bool, Fault> {
    match line {
        Some(Line::Kept(bytes)) => match str::from_utf8(bytes) {
            Ok(text) => talk.hear(text),
            Err(_) => {
                talk.tell("the line is not UTF-8 text");
                Ok(true)
            }
        },
        Some(Line::TooLong) => {
            talk.tell("the line has more than 65536 bytes");
            Ok(true)
        }
        None => Ok(true),
    }
}
