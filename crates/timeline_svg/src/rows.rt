//! The rows of a picture.
ghost use Rattle.std.specs.Prelude.{◌≡◌, ◌+◌, ◌≤◌, ◌^◌, ◌++◌, OnOk, length, string_bytes};
ghost use Rattle.timeline_svg.specs.RowTexts.{action_text, circle_text, course_text, cross_text, cut_text, end_text, ended_text, group_text, hatched_text, hit_text, label_text, mark_text, name_text, pending_text, place_text, queue_text, queued_text, ran_text, row_text, rows_text, rule_text, run_text, state_text, told_text, wait_text};

use crate::escape::{push_cut, push_element};
use crate::frame::row_y;
use crate::row::{Course, Row, Run};
use crate::window::shows;
use std::alloc::{AllocError, Global};
use std::fmt::Write;
use timeline::{Bar, Scale};

/// The most characters that are shown of a name.
pub(crate) const MOST_SHOWN: usize = 40;

/// How wide what was cut off is at least, so that it is seen beside the mark.
const LEAST_CUT: u32 = 14;

/// The rows, one below the other.
pub(crate) fn push_rows(
    alloc: Global,
    line: &mut String,
    scale: &Scale,
    rows: &[Row],
) -> Result<(), AllocError>
    requires { length rows.now ≤ 65536 }
    ensures { OnOk result (string_bytes line.new ≡ string_bytes line.old ++ rows_text scale.now 0 rows.now) }
{
    for (index, row) in rows.iter().enumerate() {
        push_row(alloc, line, scale, row_y(index), row)?;
    }
    Ok(())
}

// The row whose top is here.
fn push_row(
    alloc: Global,
    line: &mut String,
    scale: &Scale,
    top: u32,
    row: &Row,
) -> Result<(), AllocError>
    requires { top ≤ 2 ^ 31 }
    ensures { OnOk result (string_bytes line.new ≡ string_bytes line.old ++ row_text scale.now top row.now) }
{
    push_label(alloc, line, top, row)?;
    push_course(line, scale, top + 9, row.created, row.course)?;
    line.push_str("</g>\n")
}

// What is told of a row where one points at it, and its name.
fn push_label(alloc: Global, line: &mut String, top: u32, row: &Row) -> Result<(), AllocError>
    requires { top ≤ 2 ^ 31 }
    ensures { OnOk result (string_bytes line.new ≡ string_bytes line.old ++ label_text top row.now) }
{
    push_group(line, state_of(row.course), place_of(row.is_on_path))?;
    push_told(alloc, line, row)?;
    push_name(alloc, line, top, row)
}

fn push_group(line: &mut String, state: &str, place: &str) -> Result<(), AllocError>
    ensures { OnOk result (string_bytes line.new ≡ string_bytes line.old ++ group_text state.now place.now) }
{
    write!(line, "<g class='row {state}{place}'>")
}

fn push_told(alloc: Global, line: &mut String, row: &Row) -> Result<(), AllocError>
    ensures { OnOk result (string_bytes line.new ≡ string_bytes line.old ++ told_text row.now) }
{
    push_element(alloc, line, "<title>", row.name.as_str(), "\n")?;
    push_element(alloc, line, "", row.about.as_str(), "</title>")
}

fn push_name(alloc: Global, line: &mut String, top: u32, row: &Row) -> Result<(), AllocError>
    requires { top ≤ 2 ^ 31 }
    ensures { OnOk result (string_bytes line.new ≡ string_bytes line.old ++ name_text top row.now) }
{
    push_hit(line, top, top + 13)?;
    push_cut(alloc, line, row.name.as_str(), MOST_SHOWN)?;
    line.push_str("</text>")
}

// What one points at, and where the name begins.
fn push_hit(line: &mut String, top: u32, base: u32) -> Result<(), AllocError>
    ensures { OnOk result (string_bytes line.new ≡ string_bytes line.old ++ hit_text top base) }
{
    write!(
        line,
        "<rect class='hit' y='{top}' width='100%' height='18'/><text x='16' y='{base}'>"
    )
}

fn state_of(course: Course) -> &'static str
    ensures { result.now ≡ state_text course }
{
    match course {
        Course::Service => "service",
        Course::Pending => "pending",
        Course::Completed(run) => ended_as(run.has_failed),
    }
}

fn ended_as(has_failed: bool) -> &'static str
    ensures { result.now ≡ ended_text has_failed }
{
    if has_failed { "failed" } else { "complete" }
}

fn place_of(is_on_path: bool) -> &'static str
    ensures { result.now ≡ place_text is_on_path }
{
    if is_on_path { " on" } else { "" }
}

// What became of a stage from its creation on, about the height `y`; a line, where it is a service.
fn push_course(
    line: &mut String,
    scale: &Scale,
    y: u32,
    created: u64,
    course: Course,
) -> Result<(), AllocError>
    requires { (9 ≤ y) × (y ≤ 2 ^ 31 + 9) }
    ensures { OnOk result (string_bytes line.new ≡ string_bytes line.old ++ course_text scale.now y created course) }
{
    let from = scale.x(created);
    match course {
        Course::Service => push_rule(line, y, scale.left, scale.left + scale.width),
        Course::Pending => push_pending(line, y, from, scale.left + scale.width),
        Course::Completed(run) => push_run(line, scale, y, from, run),
    }
}

// A line from end to end.
fn push_rule(line: &mut String, y: u32, left: u32, right: u32) -> Result<(), AllocError>
    ensures { OnOk result (string_bytes line.new ≡ string_bytes line.old ++ rule_text y left right) }
{
    write!(line, "<path class='axis' d='M{left} {y}.5H{right}'/>")
}

// A dashed line to the right end, and an open arrow.
fn push_pending(line: &mut String, y: u32, from: u32, right: u32) -> Result<(), AllocError>
    ensures { OnOk result (string_bytes line.new ≡ string_bytes line.old ++ pending_text y from right) }
{
    push_wait(line, y, from, right)?;
    write!(
        line,
        "<path class='open' d='M{right} {y}.5m-7-5l7 5l-7 5'/>"
    )
}

// A thin line, the bars, and how it ended, as far as the scale has their ticks.
fn push_run(line: &mut String, scale: &Scale, y: u32, from: u32, run: Run) -> Result<(), AllocError>
    requires { 9 ≤ y }
    ensures { OnOk result (string_bytes line.new ≡ string_bytes line.old ++ run_text scale.now y from run) }
{
    let to = scale.x(run.completed);
    push_wait(line, y, from, to)?;
    push_queue(line, scale, y, run)?;
    push_action(line, scale, y, run)?;
    push_cut_off(line, scale, y, run)?;
    push_end(line, scale, y, run)
}

// A thin line.
fn push_wait(line: &mut String, y: u32, from: u32, to: u32) -> Result<(), AllocError>
    ensures { OnOk result (string_bytes line.new ≡ string_bytes line.old ++ wait_text y from to) }
{
    write!(line, "<path class='wait' d='M{from} {y}.5H{to}'/>")
}

// The light bar, where the action was queued.
fn push_queue(line: &mut String, scale: &Scale, y: u32, run: Run) -> Result<(), AllocError>
    requires { 9 ≤ y }
    ensures { OnOk result (string_bytes line.new ≡ string_bytes line.old ++ queue_text scale.now y run) }
{
    if run.triggered < run.started && shows(scale, run.triggered, run.started) {
        push_queued(line, scale.bar(run.triggered, run.started), y)
    } else {
        Ok(())
    }
}

fn push_queued(line: &mut String, bar: Bar, y: u32) -> Result<(), AllocError>
    requires { 9 ≤ y }
    ensures { OnOk result (string_bytes line.new ≡ string_bytes line.old ++ queued_text bar y) }
{
    let Bar { x, width } = bar;
    let top = y - 4;
    write!(
        line,
        "<rect class='queued' x='{x}.5' y='{top}.5' width='{width}' height='7'/>"
    )
}

// The solid bar, while the action ran.
fn push_action(line: &mut String, scale: &Scale, y: u32, run: Run) -> Result<(), AllocError>
    requires { 9 ≤ y }
    ensures { OnOk result (string_bytes line.new ≡ string_bytes line.old ++ action_text scale.now y run) }
{
    if shows(scale, run.started, run.ended) {
        push_ran(line, scale.bar(run.started, run.ended), y)
    } else {
        Ok(())
    }
}

fn push_ran(line: &mut String, bar: Bar, y: u32) -> Result<(), AllocError>
    requires { 9 ≤ y }
    ensures { OnOk result (string_bytes line.new ≡ string_bytes line.old ++ ran_text bar y) }
{
    let Bar { x, width } = bar;
    let top = y - 5;
    write!(
        line,
        "<rect class='ran' x='{x}' y='{top}' width='{width}' height='11'/>"
    )
}

// The hatched bar, where the completion cut the action off.
fn push_cut_off(line: &mut String, scale: &Scale, y: u32, run: Run) -> Result<(), AllocError>
    requires { 9 ≤ y }
    ensures { OnOk result (string_bytes line.new ≡ string_bytes line.old ++ cut_text scale.now y run.completed run.missed_end) }
{
    let Some(end) = run.missed_end else {
        return Ok(());
    };
    if !shows(scale, run.completed, end) {
        return Ok(());
    }
    let x = scale.x(run.completed);
    let width = scale.x(end).saturating_sub(x).max(LEAST_CUT);
    push_hatched(line, x, y, width)
}

fn push_hatched(line: &mut String, x: u32, y: u32, width: u32) -> Result<(), AllocError>
    requires { 9 ≤ y }
    ensures { OnOk result (string_bytes line.new ≡ string_bytes line.old ++ hatched_text x y width) }
{
    let top = y - 4;
    write!(
        line,
        "<rect class='cut' x='{x}' y='{top}.5' width='{width}' height='9'/>"
    )
}

// How it ended.
fn push_end(line: &mut String, scale: &Scale, y: u32, run: Run) -> Result<(), AllocError>
    ensures { OnOk result (string_bytes line.new ≡ string_bytes line.old ++ end_text scale.now y run) }
{
    if shows(scale, run.completed, run.completed) {
        push_mark(line, scale.x(run.completed), y, run.has_failed)
    } else {
        Ok(())
    }
}

fn push_mark(line: &mut String, x: u32, y: u32, has_failed: bool) -> Result<(), AllocError>
    ensures { OnOk result (string_bytes line.new ≡ string_bytes line.old ++ mark_text x y has_failed) }
{
    if has_failed {
        push_cross(line, x, y)
    } else {
        push_circle(line, x, y)
    }
}

fn push_cross(line: &mut String, x: u32, y: u32) -> Result<(), AllocError>
    ensures { OnOk result (string_bytes line.new ≡ string_bytes line.old ++ cross_text x y) }
{
    write!(
        line,
        "<path class='cross' d='M{x} {y}.5m-4-4l8 8m0-8l-8 8'/>"
    )
}

fn push_circle(line: &mut String, x: u32, y: u32) -> Result<(), AllocError>
    ensures { OnOk result (string_bytes line.new ≡ string_bytes line.old ++ circle_text x y) }
{
    write!(line, "<circle class='done' cx='{x}' cy='{y}.5' r='3'/>")
}
