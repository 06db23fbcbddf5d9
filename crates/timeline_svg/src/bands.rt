//! The axes: what they name, and the lines down from it.
ghost use Rattle.std.specs.Prelude.{◌≡◌, ◌^◌, ◌≤◌, ◌++◌, IfOk, OnOk, string_bytes};
ghost use Rattle.std.specs.List.{flat_map};
ghost use Rattle.timeline_svg.specs.Deadlines.{deadline_line, deadline_text};
ghost use Rattle.timeline_svg.specs.Frames.{axis_text, band_text, bands_text, grid_text, tick_at, tick_text, unit_text};

use crate::escape::push_cut;
use crate::frame::band_y;
use crate::window::shows;
use std::alloc::{AllocError, Global};
use std::fmt::Write;
use timeline::Scale;

/// The most characters that are shown of a unit.
const MOST_OF_UNIT: usize = 8;

/// A line down the picture for each tick that the axis names.
pub(crate) fn push_grid(
    line: &mut String,
    scale: &Scale,
    ticks: &[u64],
    bottom: u32,
) -> Result<(), AllocError>
    ensures { OnOk result (string_bytes line.new ≡ string_bytes line.old ++ flat_map (grid_text scale.now bottom) ticks.now) }
{
    for tick in ticks {
        push_grid_line(line, scale, *tick, bottom)?;
    }
    Ok(())
}

fn push_grid_line(
    line: &mut String,
    scale: &Scale,
    tick: u64,
    bottom: u32,
) -> Result<(), AllocError>
    ensures { OnOk result (string_bytes line.new ≡ string_bytes line.old ++ grid_text scale.now bottom tick) }
{
    let x = scale.x(tick);
    writeln!(line, "<path class='grid' d='M{x}.5 104V{bottom}'/>")
}

/// A line down the picture at the deadline, and its name above, where the scale has its tick.
pub(crate) fn push_deadline(
    line: &mut String,
    scale: &Scale,
    deadline: Option<u64>,
    bottom: u32,
) -> Result<(), AllocError>
    ensures { OnOk result (string_bytes line.new ≡ string_bytes line.old ++ deadline_text scale.now bottom deadline) }
{
    let Some(tick) = deadline else {
        return Ok(());
    };
    if !shows(scale, tick, tick) {
        return Ok(());
    }
    push_deadline_at(line, scale.x(tick), bottom)
}

fn push_deadline_at(line: &mut String, x: u32, bottom: u32) -> Result<(), AllocError>
    ensures { OnOk result (string_bytes line.new ≡ string_bytes line.old ++ deadline_line x bottom) }
{
    writeln!(
        line,
        "<path class='deadline' d='M{x}.5 84V{bottom}'/><text class='late' x='{x}' y='81'>deadline</text>"
    )
}

/// What a tick is, as it stands behind the number of each.
pub(crate) fn unit_of(alloc: Global, unit: &str) -> Result<String, AllocError>
    ensures { IfOk result (λ text. string_bytes text ≡ unit_text unit.now) }
{
    let mut text = String::new(alloc);
    if unit.is_empty() {
        return Ok(text);
    }
    text.push_str(" ")?;
    push_cut(alloc, &mut text, unit, MOST_OF_UNIT)?;
    Ok(text)
}

/// An axis above each fifty rows, and where they end with these, one below them; its numbers have the unit behind them.
pub(crate) fn push_bands(
    line: &mut String,
    scale: &Scale,
    unit: &str,
    ticks: &[u64],
    bands: usize,
) -> Result<(), AllocError>
    requires { bands ≤ 1400 }
    ensures { OnOk result (string_bytes line.new ≡ string_bytes line.old ++ bands_text scale.now unit.now ticks.now bands) }
{
    for band in 0..bands {
        push_band(line, scale, unit, ticks, band_y(band))?;
    }
    Ok(())
}

// The axis whose top is here.
fn push_band(
    line: &mut String,
    scale: &Scale,
    unit: &str,
    ticks: &[u64],
    top: u32,
) -> Result<(), AllocError>
    requires { top ≤ 2 ^ 31 }
    ensures { OnOk result (string_bytes line.new ≡ string_bytes line.old ++ band_text scale.now unit.now ticks.now top) }
{
    push_axis(line, scale, top)?;
    for tick in ticks {
        push_tick(line, scale, unit, *tick, top)?;
    }
    Ok(())
}

// The line below the names of an axis.
fn push_axis(line: &mut String, scale: &Scale, top: u32) -> Result<(), AllocError>
    requires { top ≤ 2 ^ 31 }
    ensures { OnOk result (string_bytes line.new ≡ string_bytes line.old ++ axis_text scale.now top) }
{
    let left = scale.left;
    let right = scale.left + scale.width;
    let y = top + 20;
    writeln!(line, "<path class='axis' d='M{left} {y}.5H{right}'/>")
}

// A tick of the axis, by its number, with the unit.
fn push_tick(
    line: &mut String,
    scale: &Scale,
    unit: &str,
    tick: u64,
    top: u32,
) -> Result<(), AllocError>
    requires { top ≤ 2 ^ 31 }
    ensures { OnOk result (string_bytes line.new ≡ string_bytes line.old ++ tick_text scale.now unit.now top tick) }
{
    push_tick_at(line, unit, scale.x(tick), top + 14, top + 17, tick)
}

fn push_tick_at(
    line: &mut String,
    unit: &str,
    x: u32,
    foot: u32,
    y: u32,
    tick: u64,
) -> Result<(), AllocError>
    ensures { OnOk result (string_bytes line.new ≡ string_bytes line.old ++ tick_at unit.now x foot y tick) }
{
    writeln!(
        line,
        "<text class='tick' x='{x}' y='{foot}'>{tick}{unit}</text><path class='axis' d='M{x}.5 {y}v4'/>"
    )
}
