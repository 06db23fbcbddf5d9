//! Hosts: the span in which or after which a span starts.
ghost use Rattle.std.specs.Prelude.{◌≡◌, ◌≤◌, ◌^◌, length, IfOk};
ghost use Rattle.trace_relations.specs.Ancestry.{host_of};
ghost use Rattle.trace_relations.specs.Hosts.{host_at, hosts_of};
ghost use Rattle.trace_relations.specs.Lines.{AreLevels, HaveAll};

use crate::ancestry::{Line, are_whole, doubled, line_at, lines_of_one, parent_at};
use crate::moment::{Interval, interval_at};
use std::alloc::{AllocError, Global};

/// Of how many lengths lines are kept at most: 1, 2, 4 and so on.
const LEVELS: usize = 16;

/// Where a span starts.
#[derive(Clone, Copy, PartialEq, Eq, Debug)]
pub enum Host {
    /// In no other span.
    Nowhere,
    Inside(usize),
    After(usize),
}

/// The lines of 1, 2, 4 .. spans, as long as some of them don't have all ancestors.
///
/// The next lines have all: no longer ones are needed. So a trace of few generations has few levels, where each is a list
/// as long as the trace.
fn levels_of(
    alloc: Global,
    intervals: &[Interval],
    parents: &[Option<usize>],
) -> Result<Vec<Vec<Line>>, AllocError>
    ensures { IfOk result (λ levels. (length levels.items ≤ 16) × AreLevels intervals.now parents.now levels.items × HaveAll parents.now (2 ^ length levels.items)) }
{
    let mut levels = Vec::with_capacity(alloc, LEVELS)?;
    let mut lines = lines_of_one(alloc, parents)?;
    for _power in 0..LEVELS {
        if are_whole(&lines) {
            return Ok(levels);
        }
        let more = doubled(alloc, intervals, &lines)?;
        levels.push(lines)?;
        lines = more;
    }
    Ok(levels)
}

/// The nearest ancestor of the span at a place that starts no later.
fn host_above(
    levels: &[Vec<Line>],
    intervals: &[Interval],
    parents: &[Option<usize>],
    place: usize,
) -> Option<usize>
    requires lines { AreLevels intervals.now parents.now levels.now }
    requires all { HaveAll parents.now (2 ^ length levels.now) }
    ensures { result ≡ host_of intervals.now parents.now place }
{
    let start = interval_at(intervals, place).start;
    let Some(mut at) = parent_at(parents, place) else {
        return None;
    };
    for passed in 0..levels.len() {
        let line = line_at(&levels[levels.len() - 1 - passed], at);
        if start < interval_at(intervals, line.first).start {
            let Some(next) = line.after else {
                return None;
            };
            at = next;
        }
    }
    if interval_at(intervals, at).start <= start {
        Some(at)
    } else {
        None
    }
}

/// Where a span starts that has such a host.
fn host_at(intervals: &[Interval], place: usize, host: Option<usize>) -> Host
    ensures { result ≡ host_at intervals.now place host }
{
    let Some(host) = host else {
        return Host::Nowhere;
    };
    let start = interval_at(intervals, place).start_moment();
    if interval_at(intervals, host).ended_before(start) {
        Host::After(host)
    } else {
        Host::Inside(host)
    }
}

/// Where each span starts.
pub(crate) fn hosts_of(
    alloc: Global,
    intervals: &[Interval],
    parents: &[Option<usize>],
) -> Result<Vec<Host>, AllocError>
    ensures { IfOk result (λ hosts. hosts.items ≡ hosts_of intervals.now parents.now) }
{
    let levels = levels_of(alloc, intervals, parents)?;
    let mut hosts = Vec::with_capacity(alloc, parents.len())?;
    for place in 0..parents.len() {
        let host = host_above(&levels, intervals, parents, place);
        hosts.push(host_at(intervals, place, host))?;
    }
    Ok(hosts)
}
