//! What a report says, written as one line.
ghost use Rattle.std.specs.Prelude.{◌≡◌, ◌++◌, ◌+◌, ◌-◌, ◌^◌, ◌<◌, IfOk, OnOk, Some};
ghost use Rattle.json.specs.Lex.{tokens};
ghost use Rattle.json.specs.Print.{print};
ghost use Rattle.serde_json.specs.Read.{read};
ghost use Rattle.serde_json.specs.Written.{compact_text};
ghost use Rattle.text_io.specs.Writes.{Writes, line_end};
ghost use Rattle.report_json.specs.Heads.{object_of};
ghost use Rattle.report_json.specs.Json.{answer_text, at_line, line_text};

use crate::heads::push_said;
use crate::line::Line;
use propagate::StateRepresentation;
use report_rows::Said;
use std::alloc::{AllocError, Global};
use text_io::{Sink, Stopped};

/// The bytes of a line, with its end.
pub(crate) fn ended(line: Line) -> Result<Vec<u8>, AllocError>
    ensures bytes { IfOk result (λ bytes. bytes.items ≡ print line ++ line_end) }
    ensures reads_back { tokens (print line) ≡ line }
{
    let mut bytes = line.into_bytes();
    bytes.push(b'\n')?;
    Ok(bytes)
}

// The line of a report, put together without a value of it, whose objects and texts would all be allocated.
fn line_of<R: StateRepresentation>(
    alloc: Global,
    said: &Said<'_, R>,
    number: Option<u64>,
) -> Result<Vec<u8>, AllocError>
    ensures line { IfOk result (λ bytes. bytes.items ≡ line_text (at_line number (object_of said.now))) }
    ensures reads_back { OnOk result (read (compact_text (at_line number (object_of said.now))) ≡ Some (at_line number (object_of said.now))) }
{
    let mut line = Line::new(alloc);
    push_said(&mut line, said, number)?;
    ended(line)
}

/// Writes what a report says as one line, which is an object. `number` is that of the script's line that it answers, which
/// becomes a member of it; None where there is no script. What was written reads back as the object.
pub(crate) fn write_said<R: StateRepresentation, S: Sink>(
    alloc: Global,
    said: &Said<'_, R>,
    number: Option<u64>,
    sink: &mut S,
) -> Result<(), Stopped>
    requires { S.failures sink.old < 2 ^ 64 - 1 }
    ensures written { Writes S.held S.failures sink.old sink.new result (answer_text number (object_of said.now)) }
    ensures reads_back { OnOk result (read (compact_text (at_line number (object_of said.now))) ≡ Some (at_line number (object_of said.now))) }
{
    let line = line_of(alloc, said, number)?;
    sink.write(line.as_slice())?;
    Ok(())
}
