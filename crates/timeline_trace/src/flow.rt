//! The path, as arrows between rows.
ghost use Rattle.std.specs.Prelude.{◌≡◌, ◌<◌, ◌≤◌, ◌++◌, IfOk, OnOk, length, string_bytes};
ghost use Rattle.serde_json.specs.Data.{object as object_of};
ghost use Rattle.timeline_trace.specs.Held.{held};
ghost use Rattle.timeline_trace.specs.Flows.{arriving_event, arrow, arrow_between, arrows, end_at, end_in, leaving_event};
ghost use Rattle.timeline_trace.specs.Json.{line_of};

use crate::event::{Object, push_line};
use crate::labels::{Labels, Track};
use crate::process::track_of;
use std::alloc::{AllocError, Global};
use timeline_svg::{Course, Row, Run};

/// A row that has completed, as far as arrows tell of it.
#[derive(Clone, Copy, Debug, PartialEq, Eq)]
pub(crate) struct End {
    pub(crate) track: Track,
    /// In microseconds.
    pub(crate) run: Run,
}

/// An arrow to each completed row of the path from the one that it waited for.
pub(crate) fn push_arrows(
    alloc: Global,
    text: &mut String,
    labels: Labels,
    rows: &[Row],
    path: &[usize],
) -> Result<(), AllocError>
    requires { length rows.now ≤ 65536 }
    ensures { OnOk result (string_bytes text.new ≡ string_bytes text.old ++ arrows labels rows.now 1 path.now) }
{
    let mut rest = path;
    let mut number = 1;
    while let Some((first, others)) = rest.split_first() {
        push_arrow(
            alloc,
            text,
            labels,
            rows,
            number,
            *first,
            others.first().copied(),
        )?;
        rest = others;
        number += 1;
    }
    Ok(())
}

fn push_arrow(
    alloc: Global,
    text: &mut String,
    labels: Labels,
    rows: &[Row],
    number: u64,
    index: usize,
    cause: Option<usize>,
) -> Result<(), AllocError>
    requires { length rows.now ≤ 65536 }
    ensures { OnOk result (string_bytes text.new ≡ string_bytes text.old ++ arrow labels rows.now number index cause) }
{
    match cause {
        Some(cause) => push_between(
            alloc,
            text,
            number,
            end_at(labels, rows, cause),
            end_at(labels, rows, index),
        ),
        None => Ok(()),
    }
}

fn push_between(
    alloc: Global,
    text: &mut String,
    number: u64,
    before: Option<End>,
    after: Option<End>,
) -> Result<(), AllocError>
    ensures { OnOk result (string_bytes text.new ≡ string_bytes text.old ++ arrow_between number before after) }
{
    let Some(before) = before else {
        return Ok(());
    };
    let Some(after) = after else {
        return Ok(());
    };
    push_leaving(alloc, text, number, before)?;
    push_arriving(alloc, text, number, after)
}

#[tactic(auto, using(crate::proofs::Exact::leaving_exact))]
fn push_leaving(alloc: Global, text: &mut String, number: u64, end: End) -> Result<(), AllocError>
    ensures { OnOk result (string_bytes text.new ≡ string_bytes text.old ++ line_of (leaving_event number end)) }
{
    let event = leaving_event(alloc, number, end)?;
    push_line(alloc, text, event)
}

#[tactic(auto, using(crate::proofs::Exact::arriving_exact))]
fn push_arriving(alloc: Global, text: &mut String, number: u64, end: End) -> Result<(), AllocError>
    ensures { OnOk result (string_bytes text.new ≡ string_bytes text.old ++ line_of (arriving_event number end)) }
{
    let event = arriving_event(alloc, number, end)?;
    push_line(alloc, text, event)
}

fn leaving_event(alloc: Global, number: u64, end: End) -> Result<Object, AllocError>
    ensures { IfOk result (λ event. object_of (held event) ≡ leaving_event number end) }
{
    let mut event = Object::event(alloc, "s", end.track, "path")?;
    event.text("cat", "path")?;
    event.count("id", number)?;
    event.count("ts", end.run.ended.saturating_sub(1).max(end.run.started))?;
    Ok(event)
}

fn arriving_event(alloc: Global, number: u64, end: End) -> Result<Object, AllocError>
    ensures { IfOk result (λ event. object_of (held event) ≡ arriving_event number end) }
{
    let mut event = Object::event(alloc, "f", end.track, "path")?;
    event.text("cat", "path")?;
    event.count("id", number)?;
    event.count("ts", end.run.started)?;
    event.text("bp", "e")?;
    Ok(event)
}

/// What arrows tell of a row; nothing while it is pending, and where there is no such row.
fn end_at(labels: Labels, rows: &[Row], index: usize) -> Option<End>
    requires { length rows.now ≤ 65536 }
    ensures { result ≡ end_at labels rows.now index }
{
    match rows.get(index) {
        Some(row) => end_in(labels, rows, index, row),
        None => None,
    }
}

fn end_in(labels: Labels, rows: &[Row], index: usize, row: &Row) -> Option<End>
    requires rows { length rows.now ≤ 65536 }
    requires index { index < length rows.now }
    ensures { result ≡ end_in labels rows.now index row.now }
{
    match row.course {
        Course::Service | Course::Pending => None,
        Course::Completed(run) => Some(End {
            track: track_of(labels, rows, index as u64 + 1, row.name.as_str()),
            run: labels.tick.in_micros(run),
        }),
    }
}
