//! What the rows are for.
ghost use Rattle.std.specs.Prelude.{◌≡◌, ◌++◌, ◌*◌, ◌≤◌, IfOk, IsPermutation, None, OnOk, length, map, position};
ghost use Rattle.std.specs.List.Sorted.{IsNonDecreasingBy, IsStableByKey};
ghost use Rattle.std.specs.Ordering.{nat_cmp};
ghost use Rattle.version_rows.specs.Lines.{IsByService, IsLaidOut, begins, is_of, lines_after, lines_at, most_lines, number_at, numbered, service_at, service_in};
ghost use Rattle.version_rows.specs.declared.line.Line.TheVariants.{Stage};

use crate::candidate::Candidate;
use crate::room::Room;
use propagate::StateRepresentation;
use std::alloc::{AllocError, Global};
use timeline_svg::service_of;
use version_store::Version;

/// What a row is for.
#[derive(Clone, Copy, Debug, PartialEq, Eq)]
pub(crate) enum Line {
    Stage(Candidate),
    /// The service of a stage, whose row follows, and those of the others of the service.
    Service(Candidate),
}

/// The rows of the candidates, in their order; where it is asked for, those of a service together below its name.
pub(crate) fn lines_of<R: StateRepresentation>(
    alloc: Global,
    version: &Version<R>,
    room: Room,
    chosen: &[Candidate],
) -> Result<Vec<Line>, AllocError>
    ensures laid_out { IfOk result (λ lines. IsLaidOut room version.now.graph chosen.now lines.items) }
    ensures few { IfOk result (λ lines. length lines.items ≤ most_lines room (length chosen.now)) }
{
    match room {
        Room::Picture => stages(alloc, chosen),
        Room::Services => by_service(alloc, version, chosen),
        Room::Events => stages(alloc, chosen),
    }
}

// The rows in the order of the candidates.
fn stages(alloc: Global, chosen: &[Candidate]) -> Result<Vec<Line>, AllocError>
    ensures lines { IfOk result (λ lines. lines.items ≡ map Stage chosen.now) }
    ensures few { IfOk result (λ lines. length lines.items ≤ length chosen.now) }
{
    let mut lines = Vec::new(alloc);
    for candidate in chosen {
        lines.push(Line::Stage(*candidate))?;
    }
    Ok(lines)
}

// The rows of each service together.
fn by_service<R: StateRepresentation>(
    alloc: Global,
    version: &Version<R>,
    chosen: &[Candidate],
) -> Result<Vec<Line>, AllocError>
    ensures laid_out { IfOk result (λ lines. IsByService version.now.graph chosen.now lines.items) }
    ensures few { IfOk result (λ lines. length lines.items ≤ 2 * length chosen.now) }
{
    let numbered = numbered(alloc, version, chosen)?;
    let grouped = grouped(numbered)?;
    let lines = headed(alloc, grouped.as_slice())?;
    Ok(lines)
}

// The candidates with the numbers of their services.
fn numbered<R: StateRepresentation>(
    alloc: Global,
    version: &Version<R>,
    chosen: &[Candidate],
) -> Result<Vec<Candidate>, AllocError>
    ensures { IfOk result (λ candidates. candidates.items ≡ numbered version.now.graph chosen.now) }
{
    let mut numbered = Vec::new(alloc);
    for candidate in chosen {
        let service = number_at(version, chosen, candidate.place);
        numbered.push(Candidate {
            service,
            ..*candidate
        })?;
    }
    Ok(numbered)
}

// Which of the candidates is the first of the service of the stage at a place.
fn number_at<R: StateRepresentation>(
    version: &Version<R>,
    chosen: &[Candidate],
    place: u32,
) -> usize
    ensures { result ≡ number_at version.now.graph chosen.now place }
{
    let service = service_at(version, place);
    first_of(version, chosen, service).unwrap_or(0)
}

// Which of the candidates is the first of a service.
fn first_of<R: StateRepresentation>(
    version: &Version<R>,
    chosen: &[Candidate],
    service: &str,
) -> Option<usize>
    ensures { result ≡ position (is_of version.now.graph service.now) chosen.now }
{
    chosen
        .iter()
        .position(|candidate| is_of(version, service, candidate))
}

fn is_of<R: StateRepresentation>(version: &Version<R>, service: &str, candidate: &Candidate) -> bool
    ensures { result ≡ is_of version.now.graph service.now candidate.now }
{
    service_at(version, candidate.place) == service
}

fn service_at<R: StateRepresentation>(version: &Version<R>, place: u32) -> &str
    ensures { result.now ≡ service_at version.now.graph place }
{
    service_of(version.graph().name_of(place))
}

fn grouped(mut candidates: Vec<Candidate>) -> Result<Vec<Candidate>, AllocError>
    ensures same { IfOk result (λ grouped. IsPermutation candidates.items grouped.items) }
    ensures by_service { IfOk result (λ grouped. IsNonDecreasingBy service_in grouped.items) }
    ensures in_order { IfOk result (λ grouped. IsStableByKey service_in nat_cmp candidates.items grouped.items) }
{
    candidates.sort_by_key(|candidate| candidate.service)?;
    Ok(candidates)
}

// A row for each candidate, and before the first one of a service one for that.
fn headed(alloc: Global, grouped: &[Candidate]) -> Result<Vec<Line>, AllocError>
    ensures { IfOk result (λ lines. lines.items ≡ lines_after None grouped.now) }
{
    let mut lines = Vec::new(alloc);
    let mut before = None;
    for candidate in grouped {
        push_lines(&mut lines, before, *candidate)?;
        before = Some(candidate.service);
    }
    Ok(lines)
}

fn push_lines(
    lines: &mut Vec<Line>,
    before: Option<usize>,
    candidate: Candidate,
) -> Result<(), AllocError>
    ensures { OnOk result (lines.new.items ≡ lines.old.items ++ lines_at before candidate) }
{
    if begins(before, candidate.service) {
        lines.push(Line::Service(candidate))?;
    }
    lines.push(Line::Stage(candidate))?;
    Ok(())
}

fn begins(before: Option<usize>, service: usize) -> bool
    ensures { result ≡ begins before service }
{
    match before {
        Some(before) => before != service,
        None => true,
    }
}
