//! Parents, without circles.
ghost use Rattle.std.specs.Prelude.{◌≡◌, IfOk, length, map};
ghost use Rattle.std.specs.List.{range_with_len};
ghost use Rattle.trace_relations.specs.Ancestry.{most_spans, without_circles};
ghost use Rattle.trace_relations.specs.Lines.{AreLines, is_line_first, parent_by_lines};

use crate::ancestry::{Line, are_whole, doubled, line_at, lines_of_one, parent_at};
use crate::moment::Interval;
use std::alloc::{AllocError, Global};

/// How often lines of one span are doubled at most: then they have as many as a trace may have.
const DOUBLINGS: u32 = 16;

/// The lines that have all ancestors.
fn longest_lines(
    alloc: Global,
    intervals: &[Interval],
    parents: &[Option<usize>],
) -> Result<Vec<Line>, AllocError>
    ensures { IfOk result (λ lines. AreLines intervals.now parents.now most_spans lines.items) }
{
    let mut lines = lines_of_one(alloc, parents)?;
    for _power in 0..DOUBLINGS {
        if are_whole(&lines) {
            return Ok(lines);
        }
        let more = doubled(alloc, intervals, &lines)?;
        lines = more;
    }
    Ok(lines)
}

/// Whether a span is the first of the line of its ancestors.
fn is_line_first(lines: &[Line], parent: Option<usize>, place: usize) -> bool
    ensures { result ≡ is_line_first lines.now parent place }
{
    match parent {
        Some(parent) => line_at(lines, parent).first == place,
        None => false,
    }
}

/// The parent of a span that isn't the first of the line of its ancestors.
fn parent_by_lines(lines: &[Line], parents: &[Option<usize>], place: usize) -> Option<usize>
    ensures { result ≡ parent_by_lines lines.now parents.now place }
{
    let parent = parent_at(parents, place);
    if is_line_first(lines, parent, place) {
        None
    } else {
        parent
    }
}

/// The parents of all spans that aren't the first of the lines of their ancestors.
fn parents_by_lines(
    alloc: Global,
    lines: &[Line],
    parents: &[Option<usize>],
) -> Result<Vec<Option<usize>>, AllocError>
    ensures { IfOk result (λ others. others.items ≡ map (parent_by_lines lines.now parents.now) (range_with_len 0 (length parents.now))) }
{
    let mut others = Vec::with_capacity(alloc, parents.len())?;
    for place in 0..parents.len() {
        others.push(parent_by_lines(lines, parents, place))?;
    }
    Ok(others)
}

/// The parents of spans; in each circle of them the span that starts first has none.
pub(crate) fn without_circles(
    alloc: Global,
    intervals: &[Interval],
    parents: &[Option<usize>],
) -> Result<Vec<Option<usize>>, AllocError>
    ensures { IfOk result (λ others. others.items ≡ without_circles intervals.now parents.now) }
{
    let lines = longest_lines(alloc, intervals, parents)?;
    let others = parents_by_lines(alloc, &lines, parents)?;
    Ok(others)
}
