//! The events of the rows.
ghost use Rattle.std.specs.Prelude.{◌≡◌, ◌+◌, ◌≤◌, ◌++◌, IfOk, OnOk, length, string_bytes};
ghost use Rattle.serde_json.specs.Data.{object as object_of};
ghost use Rattle.timeline_trace.specs.Held.{held};
ghost use Rattle.timeline_trace.specs.Json.{line_of, naming_event};
ghost use Rattle.timeline_trace.specs.Rows.{about_object, course_lines, ended_text, name_event, opening_line, order_event, pending_event, process_event, queued_event, queued_line, ran_event, row_lines, rows_lines, run_lines};

use crate::event::{Object, push_line};
use crate::labels::{Labels, Tick, Track};
use crate::process::{process_title, track_of};
use std::alloc::{AllocError, Global};
use timeline_svg::{Course, Row, Run};

/// The events of the rows, each row a thread whose number is one more than those before it.
pub(crate) fn push_rows(
    alloc: Global,
    text: &mut String,
    labels: Labels,
    title: &str,
    rows: &[Row],
) -> Result<(), AllocError>
    requires { length rows.now ≤ 65536 }
    ensures { OnOk result (string_bytes text.new ≡ string_bytes text.old ++ rows_lines labels title.now rows.now 1 rows.now) }
{
    for (index, row) in rows.iter().enumerate() {
        let track = track_of(labels, rows, index as u64 + 1, row.name.as_str());
        push_opening(alloc, text, labels, title, track, row.name.as_str())?;
        push_row(alloc, text, labels.tick, track, row)?;
    }
    Ok(())
}

// The name of the process, where the row is the first one of it, and not the first of all.
fn push_opening(
    alloc: Global,
    text: &mut String,
    labels: Labels,
    title: &str,
    track: Track,
    name: &str,
) -> Result<(), AllocError>
    ensures { OnOk result (string_bytes text.new ≡ string_bytes text.old ++ opening_line labels title.now track name.now) }
{
    if 1 < track.row && track.process == track.row {
        let title = process_title(alloc, labels, title, name)?;
        push_process(alloc, text, track.process, title.as_str())
    } else {
        Ok(())
    }
}

#[tactic(auto, using(crate::proofs::Exact::process_exact))]
fn push_process(
    alloc: Global,
    text: &mut String,
    process: u64,
    title: &str,
) -> Result<(), AllocError>
    ensures { OnOk result (string_bytes text.new ≡ string_bytes text.old ++ line_of (process_event process title.now)) }
{
    let event = process_event(alloc, process, title)?;
    push_line(alloc, text, event)
}

fn push_row(
    alloc: Global,
    text: &mut String,
    tick: Tick,
    track: Track,
    one: &Row,
) -> Result<(), AllocError>
    ensures { OnOk result (string_bytes text.new ≡ string_bytes text.old ++ row_lines tick track one.now) }
{
    push_name(alloc, text, track, one)?;
    push_order(alloc, text, track)?;
    push_course(alloc, text, tick, track, one)
}

#[tactic(auto, using(crate::proofs::Exact::name_exact))]
fn push_name(alloc: Global, text: &mut String, track: Track, one: &Row) -> Result<(), AllocError>
    ensures { OnOk result (string_bytes text.new ≡ string_bytes text.old ++ line_of (name_event track (string_bytes one.now.name))) }
{
    let event = name_event(alloc, track, one.name.as_str())?;
    push_line(alloc, text, event)
}

#[tactic(auto, using(crate::proofs::Exact::order_exact))]
fn push_order(alloc: Global, text: &mut String, track: Track) -> Result<(), AllocError>
    ensures { OnOk result (string_bytes text.new ≡ string_bytes text.old ++ line_of (order_event track)) }
{
    let event = order_event(alloc, track)?;
    push_line(alloc, text, event)
}

#[tactic(auto, using(crate::proofs::Exact::pending_exact))]
fn push_course(
    alloc: Global,
    text: &mut String,
    tick: Tick,
    track: Track,
    one: &Row,
) -> Result<(), AllocError>
    ensures { OnOk result (string_bytes text.new ≡ string_bytes text.old ++ course_lines tick track one.now one.now.course) }
{
    match one.course {
        Course::Service => Ok(()),
        Course::Pending => {
            let event = pending_event(alloc, track, tick.micros(one.created), one)?;
            push_line(alloc, text, event)
        }
        Course::Completed(run) => push_run(alloc, text, track, one, tick.in_micros(run)),
    }
}

fn push_run(
    alloc: Global,
    text: &mut String,
    track: Track,
    one: &Row,
    run: Run,
) -> Result<(), AllocError>
    ensures { OnOk result (string_bytes text.new ≡ string_bytes text.old ++ run_lines track one.now run) }
{
    push_queued(alloc, text, track, run)?;
    push_ran(alloc, text, track, one, run)
}

#[tactic(auto, using(crate::proofs::Exact::queued_exact))]
fn push_queued(alloc: Global, text: &mut String, track: Track, run: Run) -> Result<(), AllocError>
    ensures { OnOk result (string_bytes text.new ≡ string_bytes text.old ++ queued_line track run) }
{
    if run.triggered < run.started {
        let event = queued_event(alloc, track, run)?;
        push_line(alloc, text, event)
    } else {
        Ok(())
    }
}

#[tactic(auto, using(crate::proofs::Exact::ran_exact))]
fn push_ran(
    alloc: Global,
    text: &mut String,
    track: Track,
    one: &Row,
    run: Run,
) -> Result<(), AllocError>
    ensures { OnOk result (string_bytes text.new ≡ string_bytes text.old ++ line_of (ran_event track one.now run)) }
{
    let event = ran_event(alloc, track, one, run)?;
    push_line(alloc, text, event)
}

/// An event that gives a thread or a process its name.
fn naming_event(alloc: Global, track: Track, kind: &str, name: &str) -> Result<Object, AllocError>
    ensures { IfOk result (λ event. object_of (held event) ≡ naming_event track kind.now name.now) }
{
    let mut args = Object::new(alloc);
    args.text("name", name)?;
    let mut event = Object::event(alloc, "M", track, kind)?;
    event.object("args", args)?;
    Ok(event)
}

/// An event that gives a process its name.
pub(crate) fn process_event(alloc: Global, process: u64, name: &str) -> Result<Object, AllocError>
    ensures { IfOk result (λ event. object_of (held event) ≡ process_event process name.now) }
{
    let track = Track { process, row: 0 };
    naming_event(alloc, track, "process_name", name)
}

fn name_event(alloc: Global, track: Track, name: &str) -> Result<Object, AllocError>
    ensures { IfOk result (λ event. object_of (held event) ≡ name_event track name.now) }
{
    naming_event(alloc, track, "thread_name", name)
}

fn order_event(alloc: Global, track: Track) -> Result<Object, AllocError>
    ensures { IfOk result (λ event. object_of (held event) ≡ order_event track) }
{
    let mut args = Object::new(alloc);
    args.count("sort_index", track.row)?;
    let mut event = Object::event(alloc, "M", track, "thread_sort_index")?;
    event.object("args", args)?;
    Ok(event)
}

fn queued_event(alloc: Global, track: Track, run: Run) -> Result<Object, AllocError>
    ensures { IfOk result (λ event. object_of (held event) ≡ queued_event track run) }
{
    let mut event = Object::event(alloc, "X", track, "queued")?;
    event.text("cat", "queued")?;
    event.count("ts", run.triggered)?;
    event.count("dur", run.started.saturating_sub(run.triggered))?;
    Ok(event)
}

fn about(alloc: Global, one: &Row) -> Result<Object, AllocError>
    ensures { IfOk result (λ object. object_of (held object) ≡ about_object one.now.created (string_bytes one.now.about)) }
{
    let mut object = Object::new(alloc);
    object.count("created", one.created)?;
    object.text("about", one.about.as_str())?;
    Ok(object)
}

fn ran_event(alloc: Global, track: Track, one: &Row, run: Run) -> Result<Object, AllocError>
    ensures { IfOk result (λ event. object_of (held event) ≡ ran_event track one.now run) }
{
    let mut event = Object::event(alloc, "X", track, one.name.as_str())?;
    event.text("cat", ended_text(run.has_failed))?;
    event.count("ts", run.started)?;
    event.count("dur", run.ended.saturating_sub(run.started))?;
    event.object("args", about(alloc, one)?)?;
    Ok(event)
}

fn ended_text(has_failed: bool) -> &'static str
    ensures { result.now ≡ ended_text has_failed }
{
    if has_failed { "failed" } else { "complete" }
}

fn pending_event(alloc: Global, track: Track, created: u64, one: &Row) -> Result<Object, AllocError>
    ensures { IfOk result (λ event. object_of (held event) ≡ pending_event track created one.now) }
{
    let mut event = Object::event(alloc, "i", track, one.name.as_str())?;
    event.text("cat", "pending")?;
    event.count("ts", created)?;
    event.text("s", "t")?;
    event.object("args", about(alloc, one)?)?;
    Ok(event)
}
