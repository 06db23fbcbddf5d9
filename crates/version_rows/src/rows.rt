//! The rows, and the path over them.
ghost use Rattle.std.specs.Prelude.{◌≡◌, ◌++◌, IfOk, OnOk, Some, filter_map, map};
ghost use Rattle.std.specs.Option.{option_to_list};
ghost use Rattle.version_rows.specs.Drawings.{is_at, row_index};
ghost use Rattle.stage_graph.specs.Plain.{stage_at};
ghost use Rattle.version_rows.specs.Rows.{no_row, plain, row_in, row_of, service_row};

use crate::about::push_about;
use crate::candidate::Candidate;
use crate::course::course_at;
use crate::line::Line;
use propagate::StateRepresentation;
use stage_graph::Stage;
use std::alloc::{AllocError, Global};
use timeline_svg::{Course, Row, service_of};
use version_store::{StageView, Version};

/// The rows of stages and of services.
pub(crate) fn rows_of<R: StateRepresentation>(
    alloc: Global,
    version: &Version<R>,
    lines: &[Line],
) -> Result<Vec<Row>, AllocError>
    ensures { IfOk result (λ rows. map plain rows.items ≡ map (row_of version.now.graph) lines.now) }
{
    let mut rows = Vec::new(alloc);
    for line in lines {
        let row = row_of(alloc, version, line)?;
        rows.push(row)?;
    }
    Ok(rows)
}

fn row_of<R: StateRepresentation>(
    alloc: Global,
    version: &Version<R>,
    line: &Line,
) -> Result<Row, AllocError>
    ensures { IfOk result (λ row. plain row ≡ row_of version.now.graph line.now) }
{
    match line {
        Line::Stage(candidate) => row_at(alloc, version, candidate),
        Line::Service(candidate) => service_row(alloc, version, candidate.place),
    }
}

fn no_row(alloc: Global) -> Row
    ensures { plain result ≡ no_row }
{
    Row {
        name: String::new(alloc),
        about: String::new(alloc),
        created: 0,
        course: Course::Pending,
        is_on_path: false,
    }
}

// The row of the stage at a candidate's place.
fn row_at<R: StateRepresentation>(
    alloc: Global,
    version: &Version<R>,
    candidate: &Candidate,
) -> Result<Row, AllocError>
    ensures { IfOk result (λ row. plain row ≡ row_in version.now.graph candidate.now (stage_at version.now.graph.places candidate.now.place)) }
{
    match version.stage(candidate.place) {
        Some(view) => row_of_stage(alloc, candidate, &view),
        None => Ok(no_row(alloc)),
    }
}

// The row of the service of the stage at a place.
fn service_row<R: StateRepresentation>(
    alloc: Global,
    version: &Version<R>,
    place: u32,
) -> Result<Row, AllocError>
    ensures { IfOk result (λ row. plain row ≡ service_row (stage_at version.now.graph.places place)) }
{
    match version.stage(place) {
        Some(view) => service_row_of(alloc, view.stage),
        None => Ok(no_row(alloc)),
    }
}

fn service_row_of(alloc: Global, stage: &Stage) -> Result<Row, AllocError>
    ensures { IfOk result (λ row. plain row ≡ service_row (Some stage.now)) }
{
    let mut name = String::new(alloc);
    name.push_str(service_of(stage.name.as_str()))?;
    Ok(Row {
        name,
        about: String::new(alloc),
        created: stage.created,
        course: Course::Service,
        is_on_path: false,
    })
}

fn row_of_stage<R: StateRepresentation>(
    alloc: Global,
    candidate: &Candidate,
    view: &StageView<'_, R>,
) -> Result<Row, AllocError>
    requires { view.now.place ≡ candidate.now.place }
    ensures { IfOk result (λ row. plain row ≡ row_in view.now.version.now.graph candidate.now (Some view.now.stage.now)) }
{
    let mut name = String::new(alloc);
    name.push_str(view.stage.name.as_str())?;
    let course = course_at(view);
    let mut about = String::new(alloc);
    push_about(&mut about, view, course)?;
    Ok(Row {
        name,
        about,
        created: view.stage.created,
        course,
        is_on_path: candidate.is_on_path,
    })
}

/// The rows of the places of a path, where they have one.
pub(crate) fn indices_of(
    alloc: Global,
    lines: &[Line],
    path: &[u32],
) -> Result<Vec<usize>, AllocError>
    ensures { IfOk result (λ indices. indices.items ≡ filter_map (row_index lines.now) path.now) }
{
    let mut indices = Vec::new(alloc);
    for place in path {
        push_index(&mut indices, row_index(lines, *place))?;
    }
    Ok(indices)
}

fn row_index(lines: &[Line], place: u32) -> Option<usize>
    ensures { result ≡ row_index lines.now place }
{
    lines.iter().position(|line| is_at(*line, place))
}

fn is_at(line: Line, place: u32) -> bool
    ensures { result ≡ is_at place line }
{
    match line {
        Line::Stage(candidate) => candidate.place == place,
        Line::Service(_) => false,
    }
}

fn push_index(indices: &mut Vec<usize>, index: Option<usize>) -> Result<(), AllocError>
    ensures { OnOk result (indices.new.items ≡ indices.old.items ++ option_to_list index) }
{
    match index {
        Some(index) => {
            indices.push(index)?;
            Ok(())
        }
        None => Ok(()),
    }
}
