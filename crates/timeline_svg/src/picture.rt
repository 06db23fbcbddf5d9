//! The whole picture.
ghost use Rattle.std.specs.Prelude.{◌≡◌, ◌≤◌, ◌+◌, ◌<◌, ◌^◌, IfOk, length, string_bytes};
ghost use Rattle.timeline_svg.specs.Pictures.{IsPicture, picture};

use crate::bands::{push_bands, push_deadline, push_grid, unit_of};
use crate::frame::{BAND, MARGIN, ROWS_OF_BAND, push_head, row_y};
use crate::row::Row;
use crate::rows::push_rows;
use crate::span::scale_of;
use crate::trail::push_trail;
use crate::window::Window;
use std::alloc::{AllocError, Global};
use timeline::{Scale, axis_ticks};

/// What stands above the rows.
#[derive(Drop)]
pub struct Heading {
    pub title: String,
    /// What more is told; a line that may be empty.
    pub note: String,
    /// What a tick is; empty where that is not told.
    pub unit: String,
    /// The tick of a line, by which there was to be a reply.
    pub deadline: Option<u64>,
}

/// The most ticks that an axis names, so that the longest numbers have room beside each other.
const MOST_TICKS: u64 = 7;

/// The text of an SVG file that shows the rows from top to bottom, in the ticks of a window, and over them the path of which these are the rows,
/// from the stage whose path it is to where it began.
pub fn timeline_svg(
    alloc: Global,
    heading: &Heading,
    window: Window,
    rows: &[Row],
    path: &[usize],
) -> Result<String, AllocError>
    requires { length rows.now ≤ 65536 }
    ensures { IfOk result (λ text. IsPicture heading.now window rows.now path.now (string_bytes text)) }
{
    let scale = scale_of(alloc, window, rows)?;
    let ticks = axis_ticks(alloc, scale.first, scale.last, MOST_TICKS)?;
    let text = draw(alloc, heading, &scale, ticks.as_slice(), rows, path)?;
    Ok(text)
}

// The text of a picture on a scale, whose axes name these ticks.
fn draw(
    alloc: Global,
    heading: &Heading,
    scale: &Scale,
    ticks: &[u64],
    rows: &[Row],
    path: &[usize],
) -> Result<String, AllocError>
    requires rows { length rows.now ≤ 65536 }
    requires left { scale.now.left ≤ 1000 }
    ensures { IfOk result (λ text. string_bytes text ≡ picture heading.now scale.now ticks.now rows.now path.now) }
{
    let bottom = row_y(rows.len());
    let unit = unit_of(alloc, heading.unit.as_str())?;
    let mut text = String::new(alloc);
    push_head(
        alloc,
        &mut text,
        heading,
        scale.left + MARGIN,
        bottom + BAND,
    )?;
    push_grid(&mut text, scale, ticks, bottom)?;
    push_deadline(&mut text, scale, heading.deadline, bottom)?;
    push_bands(
        &mut text,
        scale,
        unit.as_str(),
        ticks,
        rows.len() / ROWS_OF_BAND + 1,
    )?;
    push_rows(alloc, &mut text, scale, rows)?;
    push_trail(alloc, &mut text, scale, rows, path)?;
    text.push_str("</svg>\n")?;
    Ok(text)
}
