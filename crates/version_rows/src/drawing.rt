//! What is drawn of a version.
ghost use Rattle.std.specs.Prelude.{◌≡◌, ◌≤◌, ◌↔◌, IfOk, None, length, option_copied};
ghost use Rattle.stage_graph.specs.Plain.{stage_at};
ghost use Rattle.scratch_eval.specs.Path.{path};
ghost use Rattle.version_rows.specs.Drawings.{IsDrawing, IsMissing, path_to};

use crate::candidate::candidates;
use crate::chosen::chosen;
use crate::heading::{Source, heading_of};
use crate::left_out::{LeftOut, left_out};
use crate::line::lines_of;
use crate::room::Room;
use crate::rows::{indices_of, rows_of};
use crate::selection::{Selection, asked};
use propagate::StateRepresentation;
use stage_graph::Places;
use std::alloc::Global;
use timeline_svg::{Heading, Row};
use version_store::{QueryFault, Version};

/// What is drawn of a version.
#[derive(Drop)]
pub struct Drawing {
    pub heading: Heading,
    pub rows: Vec<Row>,
    /// The rows of the path, from the stage whose path it is to where it began.
    pub path: Vec<usize>,
    pub left_out: LeftOut,
}

/// What is drawn of a version of a recording: a row for each stage that is asked for, as far as there is room,
/// and over them the path of the target, if there is one.
pub fn drawing_of<R: StateRepresentation>(
    alloc: Global,
    version: &Version<R>,
    source: Source<'_>,
    room: Room,
    selection: Selection,
    target: Option<u32>,
) -> Result<Drawing, QueryFault>
    ensures drawn { IfOk result (λ drawing. IsDrawing version.now (option_copied source.entry.file) source.entry.unit.now source.entry.deadline room selection target drawing) }
    ensures few { IfOk result (λ drawing. length drawing.rows.items ≤ 2000) }
    ensures no_stage { (result ≡ Err QueryFault.NoStage) ↔ IsMissing version.now.graph target }
{
    let path = path_to(alloc, version, target)?;
    let candidates = candidates(alloc, version, selection, path.as_slice())?;
    let count = candidates.len();
    let asked = asked(candidates);
    let heading = heading_of(alloc, version, source, target, room, count, asked.len())?;
    let left_out = left_out(room, count, asked.len());
    let chosen = chosen(asked, room)?;
    let lines = lines_of(alloc, version, room, chosen.as_slice())?;
    let rows = rows_of(alloc, version, lines.as_slice())?;
    let path = indices_of(alloc, lines.as_slice(), path.as_slice())?;
    Ok(Drawing {
        heading,
        rows,
        path,
        left_out,
    })
}

fn path_to<R: StateRepresentation>(
    alloc: Global,
    version: &Version<R>,
    target: Option<u32>,
) -> Result<Places, QueryFault>
    ensures path { IfOk result (λ path. path ≡ path_to version.now.graph target) }
    ensures no_stage { (result ≡ Err QueryFault.NoStage) ↔ IsMissing version.now.graph target }
{
    match target {
        Some(place) => path_of(alloc, version, place),
        None => Ok(Places::new(alloc)),
    }
}

fn path_of<R: StateRepresentation>(
    alloc: Global,
    version: &Version<R>,
    place: u32,
) -> Result<Places, QueryFault>
    ensures path { IfOk result (λ places. places ≡ path version.now.graph place) }
    ensures no_stage { (result ≡ Err QueryFault.NoStage) ↔ (stage_at version.now.graph.places place ≡ None) }
{
    match version.stage(place) {
        Some(view) => Ok(view.path(alloc)?),
        None => Err(QueryFault::NoStage),
    }
}
