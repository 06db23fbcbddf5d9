//! How long the replies take where a group takes no time.
ghost use Rattle.std.specs.Prelude.{◌≡◌, IfOk};
ghost use Rattle.fleet_summary.specs.Histogram.{IsHistogram};
ghost use Rattle.fleet_answer.specs.Without.{IsLeft, IsP99Without, IsWithout};

use fleet_summary::{GroupCounts, Histogram};
use std::alloc::{AllocError, Global};

/// What is left of a histogram where another is taken away.
fn left_of(alloc: Global, all: &Histogram, taken: &Histogram) -> Result<Histogram, AllocError>
    ensures left { IfOk result (IsLeft all.now taken.now) }
    ensures sound { IfOk result IsHistogram }
{
    let mut left = Histogram::new(alloc);
    for (step, number) in all.by_step() {
        left.add(*step, number.saturating_sub(taken.at(*step)))?;
    }
    Ok(left)
}

/// How long all replies take where a group takes no time: those of its traces as they do then, and the others as they did.
fn times_without(
    alloc: Global,
    all: &Histogram,
    group: &GroupCounts,
) -> Result<Histogram, AllocError>
    ensures without { IfOk result (IsWithout all.now group.now) }
    ensures sound { IfOk result IsHistogram }
{
    let mut without = left_of(alloc, all, &group.times)?;
    without.absorb(&group.times_then)?;
    Ok(without)
}

/// The p99 of all replies then; none where there is no reply.
pub(crate) fn p99_without(
    alloc: Global,
    all: &Histogram,
    group: &GroupCounts,
) -> Result<Option<u64>, AllocError>
    ensures { IfOk result (IsP99Without all.now group.now) }
{
    let without = times_without(alloc, all, group)?;
    Ok(without.quantile(99))
}
