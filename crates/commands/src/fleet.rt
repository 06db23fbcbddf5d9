//! What the replies of many traces came to.
ghost use Rattle.std.specs.Prelude.{◌≡◌, ◌+◌, ◌-◌, ◌^◌, ◌<◌};
ghost use Rattle.text_io.specs.Writes.{failures_in};

use crate::fault::stopped;
use crate::fleet_counts::{Counts, tried_replies};
use crate::fleet_files::count_files;
use crate::fleet_joining::join_files;
use crate::format::format_of;
use crate::printing::print_text;
use command_line::{Fleet, Held, Input, Manner, Told};
use console::{Fault, Voice, flushed, output, why_read_again, with_reason};
use fleet_answer::{Answer, AnswerFault, Tried, answer_of, print_json, print_text as print_lines};
use fleet_summary::Summary;
use fleet_text::{PartSummary, WriteFault, write_summary};
use report_form::Format;
use std::alloc::Global;
use std::cell::Cell;
use std::thread::Threads;
use text_io::{Sink, Stopped};
use version_store::StateRepresentation;

/// Counts the traces of files, or joins the summaries of files, and writes the summaries, or what they answer.
pub fn run_fleet<'a, K: StateRepresentation, H: Threads + Copy + Sync>(
    rt: &'a HostRuntime,
    threads: &'a H,
    manner: Manner,
    fleet: &'a Fleet<'a>,
) -> Result<(), Fault> {
    let files = fleet.files();
    if files.iter().filter(|path| **path == "-").count() > 1 {
        return Err(Fault::Word(why_read_again(rt.alloc())?));
    }
    let voice = Voice::new(rt, manner, Input::of(files.first().copied()));
    let counts = match fleet.held {
        Held::Traces(counting) => Some(count_files::<K, H>(
            rt, threads, manner, files, counting, fleet,
        )?),
        Held::Summaries => join_files(rt, manner, files)?,
    };
    let Some(counts) = counts else {
        return Err(Fault::NoReply(voice.said("there is no summary")));
    };
    match fleet.told {
        Told::Summary => print_summaries(rt, voice, &counts),
        Told::Answer(slowest) => print_answer(rt, voice, manner, counts, slowest),
    }
}

/// Adds the line of a summary.
fn push_summary(alloc: Global, text: &mut String, part: &PartSummary) -> Result<(), Fault> {
    match write_summary(alloc, part) {
        Ok(line) => {
            text.push_str(&line)?;
            text.push('\n')?;
            Ok(())
        }
        // (each name is a text)
        Err(WriteFault::NotText | WriteFault::Memory) => Err(Fault::Memory),
    }
}

/// Writes the summary of the traces as they are, and that of each change, each on a line.
fn print_summaries(rt: &HostRuntime, voice: Voice<'_>, counts: &Counts) -> Result<(), Fault> {
    let mut text = String::new(rt.alloc());
    push_summary(rt.alloc(), &mut text, &counts.whole)?;
    for part in &counts.tries {
        push_summary(rt.alloc(), &mut text, part)?;
    }
    print_text(rt, voice, text.as_str())
}

/// What a summary answers, or why it answers nothing.
fn answered(
    alloc: Global,
    voice: Voice<'_>,
    summary: &Summary,
    tries: &[Tried],
    slowest: Option<u8>,
) -> Result<Answer, Fault> {
    match answer_of(alloc, summary, tries, slowest) {
        Ok(answer) => Ok(answer),
        Err(AnswerFault::NoReply) => Err(Fault::NoReply(voice.said("no trace has a reply"))),
        // (each name is a text)
        Err(AnswerFault::NotText | AnswerFault::Memory) => Err(Fault::Memory),
    }
}

/// Writes what a summary answers.
fn write_answer<S: Sink>(
    alloc: Global,
    answer: &Answer,
    format: Format,
    sink: &mut S,
) -> Result<(), Stopped>
    requires { S.failures sink.old < 2 ^ 64 - 1 }
    ensures { S.failures sink.new ≡ S.failures sink.old + failures_in result }
{
    match format {
        Format::Text => print_lines(alloc, answer, sink),
        Format::Json => print_json(alloc, answer, sink),
    }
}

/// Prints what was counted answers.
fn print_answer(
    rt: &HostRuntime,
    voice: Voice<'_>,
    manner: Manner,
    counts: Counts,
    slowest: Option<u8>,
) -> Result<(), Fault> {
    let Counts { whole, tries } = counts;
    let tries = tried_replies(rt.alloc(), tries)?;
    let answer = answered(rt.alloc(), voice, &whole.summary, tries.as_slice(), slowest)?;
    let reason = Cell::new(None);
    let mut sink = output(rt, &reason)?;
    let end = write_answer(rt.alloc(), &answer, format_of(manner), &mut sink);
    with_reason(voice, &reason, flushed(&mut sink, stopped(end)))
}
