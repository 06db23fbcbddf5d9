//! The path, drawn over the rows.
ghost use Rattle.std.specs.Prelude.{◌≡◌, ◌≤◌, ◌++◌, IsSome, OnOk, length, string_bytes};
ghost use Rattle.std.specs.Option.{option_copied};
ghost use Rattle.timeline_svg.specs.Trails.{begin_of, end_of, line_after, line_text, line_to, step_text, steps_text, trail_text};

use crate::frame::row_y;
use crate::row::{Course, Row};
use std::alloc::{AllocError, Global};
use std::fmt::Write;
use timeline::Scale;

/// The path of which these are the rows, from the stage whose path it is to where it began.
pub(crate) fn push_trail(
    alloc: Global,
    line: &mut String,
    scale: &Scale,
    rows: &[Row],
    path: &[usize],
) -> Result<(), AllocError>
    requires { length rows.now ≤ 65536 }
    ensures { OnOk result (string_bytes line.new ≡ string_bytes line.old ++ trail_text scale.now rows.now path.now) }
{
    let mut steps = String::new(alloc);
    push_steps(&mut steps, scale, rows, path)?;
    let steps = steps.as_str();
    line.push_str("<path class='halo' d='")?;
    line.push_str(steps)?;
    line.push_str("'/>\n<path class='path' d='")?;
    line.push_str(steps)?;
    line.push_str("'/>\n")
}

// A line for each row of the path: from where the one that it waited for completed to where it completed itself.
fn push_steps(
    line: &mut String,
    scale: &Scale,
    rows: &[Row],
    path: &[usize],
) -> Result<(), AllocError>
    requires { length rows.now ≤ 65536 }
    ensures { OnOk result (string_bytes line.new ≡ string_bytes line.old ++ steps_text scale.now rows.now path.now) }
{
    let mut rest = path;
    while let Some((first, others)) = rest.split_first() {
        push_step(line, scale, rows, *first, others.first().copied())?;
        rest = others;
    }
    Ok(())
}

fn push_step(
    line: &mut String,
    scale: &Scale,
    rows: &[Row],
    index: usize,
    cause: Option<usize>,
) -> Result<(), AllocError>
    requires { length rows.now ≤ 65536 }
    ensures { OnOk result (string_bytes line.new ≡ string_bytes line.old ++ step_text scale.now rows.now index cause) }
{
    match rows.get(index) {
        Some(row) => push_after(line, scale, rows, index, row, cause),
        None => Ok(()),
    }
}

// The line of a row, by what it waited for.
fn push_after(
    line: &mut String,
    scale: &Scale,
    rows: &[Row],
    index: usize,
    row: &Row,
    cause: Option<usize>,
) -> Result<(), AllocError>
    requires rows { length rows.now ≤ 65536 }
    requires index { index ≤ 65536 }
    ensures { OnOk result (string_bytes line.new ≡ string_bytes line.old ++ line_after scale.now rows.now index row.now cause) }
{
    match cause {
        Some(cause) => push_from(line, scale, index, row, cause, rows.get(cause)),
        None => push_from(line, scale, index, row, 0, None),
    }
}

// The line of a row, from the row before it on the path.
fn push_from(
    line: &mut String,
    scale: &Scale,
    index: usize,
    row: &Row,
    cause: usize,
    before: Option<&Row>,
) -> Result<(), AllocError>
    requires index { index ≤ 65536 }
    requires cause { IsSome before → cause ≤ 65536 }
    ensures { OnOk result (string_bytes line.new ≡ string_bytes line.old ++ line_to scale.now index row.now cause (option_copied before.entry)) }
{
    let y = row_y(index) + 9;
    let to = end_of(scale, row);
    match before {
        Some(before) => push_line(line, end_of(scale, before), row_y(cause) + 9, y, to),
        None => push_line(line, begin_of(scale, row), y, y, to),
    }
}

// A line from a point, up or down and then to the right.
fn push_line(line: &mut String, from: u32, start: u32, y: u32, to: u32) -> Result<(), AllocError>
    ensures { OnOk result (string_bytes line.new ≡ string_bytes line.old ++ line_text from start y to) }
{
    write!(line, "M{from} {start}.5V{y}.5H{to}")
}

// Where a row completes; at the right end while it is pending.
fn end_of(scale: &Scale, row: &Row) -> u32
    ensures { result ≡ end_of scale.now row.now }
{
    match row.course {
        Course::Service | Course::Pending => scale.left + scale.width,
        Course::Completed(run) => scale.x(run.completed),
    }
}

// Where a row's own share begins.
fn begin_of(scale: &Scale, row: &Row) -> u32
    ensures { result ≡ begin_of scale.now row.now }
{
    match row.course {
        Course::Service | Course::Pending => scale.x(row.created),
        Course::Completed(run) => scale.x(run.since),
    }
}
