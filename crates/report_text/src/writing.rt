//! What a report says, written as text.
ghost use Rattle.std.specs.Prelude.{◌-◌, ◌^◌, ◌<◌};
ghost use Rattle.std.specs.List.{flat_map};
ghost use Rattle.text_io.specs.Writes.{Writes};
ghost use Rattle.report_text.specs.Texts.{report_text, row_text};

use crate::heads::push_head;
use crate::rows::push_row;
use propagate::StateRepresentation;
use report_rows::{Row, Rows, Said};
use std::alloc::Global;
use text_io::{Sink, Stopped};

/// Writes what a report says, a line at a time.
pub(crate) fn write_said<R: StateRepresentation, S: Sink>(
    alloc: Global,
    said: &Said<'_, R>,
    sink: &mut S,
) -> Result<(), Stopped>
    requires { S.failures sink.old < 2 ^ 64 - 1 }
    ensures { Writes S.held S.failures sink.old sink.new result (report_text said.now) }
{
    let mut line = String::new(alloc);
    let mut rows = said.rows();
    push_head(&mut line, &said.head, rows.count())?;
    sink.write(line.as_bytes())?;
    write_rows(&mut line, &mut rows, sink)
}

// Writes a line for each row.
fn write_rows<R: StateRepresentation, S: Sink>(
    line: &mut String,
    rows: &mut Rows<'_, R>,
    sink: &mut S,
) -> Result<(), Stopped>
    requires { S.failures sink.old < 2 ^ 64 - 1 }
    ensures { Writes S.held S.failures sink.old sink.new result (flat_map row_text rows.old) }
{
    while let Some(row) = rows.next() {
        write_row(line, &row, sink)?;
    }
    Ok(())
}

// Writes the line of a row.
fn write_row<S: Sink>(line: &mut String, row: &Row<'_>, sink: &mut S) -> Result<(), Stopped>
    requires { S.failures sink.old < 2 ^ 64 - 1 }
    ensures { Writes S.held S.failures sink.old sink.new result (row_text row.now) }
{
    line.clear();
    push_row(line, row)?;
    sink.write(line.as_bytes())?;
    Ok(())
}
