//! Answers, written.
ghost use Rattle.std.specs.Prelude.{◌-◌, ◌^◌, ◌<◌};
ghost use Rattle.text_io.specs.Writes.{Writes};
ghost use Rattle.fleet_answer.specs.Json.{json_text};
ghost use Rattle.fleet_answer.specs.Texts.{answer_text};

use crate::answer::Answer;
use crate::json_writing::json_of;
use crate::text_writing::text_of;
use std::alloc::Global;
use text_io::{Sink, Stopped};

/// Writes an answer as lines.
pub fn print_text<S: Sink>(alloc: Global, answer: &Answer, sink: &mut S) -> Result<(), Stopped>
    requires { S.failures sink.old < 2 ^ 64 - 1 }
    ensures { Writes S.held S.failures sink.old sink.new result (answer_text answer.now) }
{
    let text = text_of(alloc, answer)?;
    sink.write(text.as_bytes())?;
    Ok(())
}

/// Writes an answer as a JSON object on a line.
pub fn print_json<S: Sink>(alloc: Global, answer: &Answer, sink: &mut S) -> Result<(), Stopped>
    requires { S.failures sink.old < 2 ^ 64 - 1 }
    ensures { Writes S.held S.failures sink.old sink.new result (json_text answer.now) }
{
    let text = json_of(alloc, answer)?;
    sink.write(text.as_bytes())?;
    Ok(())
}
