//! The scale of the rows.
ghost use Rattle.std.specs.Prelude.{◌≡◌, ◌≤◌, ◌<◌, ◌^◌, IfOk};
ghost use Rattle.timeline_svg.specs.Spans.{IsScaleOf, first_of, first_tick, last_of, last_shown, last_tick, longest_name};

use crate::escape::characters;
use crate::frame::CHART;
use crate::row::{Course, Row};
use crate::rows::MOST_SHOWN;
use crate::window::Window;
use std::alloc::{AllocError, Global};
use timeline::Scale;

/// The last tick that a picture tells from those before it.
const LAST: u64 = (1 << 63) - 1;

/// How wide a character of a name is.
const CHARACTER: u32 = 8;

/// The scale on which the ticks of the rows stand.
pub(crate) fn scale_of(alloc: Global, window: Window, rows: &[Row]) -> Result<Scale, AllocError>
    ensures { IfOk result (λ scale. IsScaleOf window rows.now scale) }
{
    let columns = longest_name(alloc, rows)?.min(MOST_SHOWN);
    let last = last_shown(window, rows).min(LAST);
    Ok(Scale {
        first: window.first.unwrap_or(first_tick(rows)).min(last),
        last,
        left: 32 + columns as u32 * CHARACTER,
        width: CHART,
    })
}

// The last tick that is shown, which is no earlier than the first one that is asked for.
fn last_shown(window: Window, rows: &[Row]) -> u64
    ensures { result ≡ last_shown window rows.now }
{
    let last = last_tick(rows).max(window.first.unwrap_or(0));
    window.last.unwrap_or(last)
}

// The first tick of all rows.
fn first_tick(rows: &[Row]) -> u64
    ensures { result ≡ first_tick rows.now }
{
    let mut first = u64::MAX;
    for row in rows {
        first = first.min(first_of(row));
    }
    first
}

fn first_of(row: &Row) -> u64
    ensures { result ≡ first_of row.now.created row.now.course }
{
    match row.course {
        Course::Service | Course::Pending => row.created,
        Course::Completed(run) => row
            .created
            .min(run.triggered)
            .min(run.started)
            .min(run.ended)
            .min(run.completed),
    }
}

// The last tick of all rows.
fn last_tick(rows: &[Row]) -> u64
    ensures { result ≡ last_tick rows.now }
{
    let mut last = u64::MIN;
    for row in rows {
        last = last.max(last_of(row));
    }
    last
}

fn last_of(row: &Row) -> u64
    ensures { result ≡ last_of row.now.created row.now.course }
{
    match row.course {
        Course::Service | Course::Pending => row.created,
        Course::Completed(run) => row
            .created
            .max(run.triggered)
            .max(run.started)
            .max(run.ended)
            .max(run.completed),
    }
}

// How many characters the longest name has.
fn longest_name(alloc: Global, rows: &[Row]) -> Result<usize, AllocError>
    ensures { IfOk result (λ longest. longest ≡ longest_name rows.now) }
{
    let mut longest = usize::MIN;
    for row in rows {
        longest = longest.max(characters(alloc, row.name.as_str())?.len());
    }
    Ok(longest)
}
