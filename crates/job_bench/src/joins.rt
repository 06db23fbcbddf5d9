//! Recordings whose stages wait for many others, as text.

use crate::names::push_name;
use crate::random::Random;
use crate::recordings::{Plan, push_applied, push_combined, push_head, push_root, push_stages};
use std::alloc::{AllocError, Global};
use std::fmt::Write;

/// Stages of a recording of joins that wait for nothing.
pub(crate) const ROOTS: u32 = 8;

/// Stages of a recording of joins that wait for a root each, and for which most joins wait.
pub(crate) const HUBS: u32 = 16;

/// A range of stages.
#[derive(Clone, Copy)]
pub(crate) struct Range {
    pub first: u32,
    pub end: u32,
}

/// Adds the names of the stages of a range, as the member `sources`.
pub(crate) fn push_range(text: &mut String, seed: u32, range: Range) -> Result<(), AllocError> {
    text.push_str(",\"sources\":[")?;
    for number in range.first..range.end {
        text.push_str(if number == range.first { "\"" } else { ",\"" })?;
        push_name(text, seed, number)?;
        text.push_str("\"")?;
    }
    text.push_str("]")
}

/// Adds a stage that waits for all stages of a range.
fn push_all_of(text: &mut String, seed: u32, number: u32, range: Range) -> Result<(), AllocError> {
    push_head(text, seed, number, "allOf")?;
    push_range(text, seed, range)?;
    text.push_str("}")
}

/// Adds the stage of a number where joins wait for so many hubs.
pub(crate) fn push_hubbed(
    text: &mut String,
    plan: &Plan,
    hubs: u32,
    number: u32,
) -> Result<(), AllocError> {
    if number == 0 {
        push_root(text, plan.seed, number, 5)
    } else if number <= hubs {
        push_applied(text, plan.seed, number, 0, 1 + number % 9)
    } else {
        let range = Range {
            first: 1,
            end: hubs.saturating_add(1),
        };
        push_all_of(text, plan.seed, number, range)
    }
}

/// Adds the stage of a number where each waits for so many before it.
pub(crate) fn push_windowed(
    text: &mut String,
    plan: &Plan,
    width: u32,
    number: u32,
) -> Result<(), AllocError> {
    if number == 0 {
        return push_root(text, plan.seed, number, 5);
    }
    let range = Range {
        first: number.saturating_sub(width),
        end: number,
    };
    push_all_of(text, plan.seed, number, range)
}

/// What a join waits for: 2 to 200 stages in a row that lie before a number, most often from the first hub on.
pub(crate) fn joined(random: &mut Random, number: u32) -> Range {
    let width = match random.below(4) {
        0 => 100 + random.below(101),
        _ => 2 + random.below(31),
    };
    let first = match random.below(4) {
        0 => random.below(number.saturating_sub(width)),
        _ => ROOTS,
    };
    Range {
        first,
        end: first.saturating_add(width).min(number),
    }
}

/// Adds the stage of a number in a recording of joins.
pub(crate) fn push_joined(
    text: &mut String,
    plan: &Plan,
    random: &mut Random,
    number: u32,
) -> Result<(), AllocError> {
    let runs = 1 + random.below(9);
    if number < ROOTS {
        return push_root(text, plan.seed, number, runs);
    }
    if number < ROOTS + HUBS {
        return push_applied(text, plan.seed, number, number % ROOTS, runs);
    }
    match number % 4 {
        0 => push_applied(text, plan.seed, number, ROOTS + random.below(HUBS), runs),
        1 => {
            let sources = [number.saturating_sub(1), ROOTS + random.below(HUBS)];
            push_combined(text, plan.seed, number, &sources, runs)
        }
        _ => {
            let range = joined(random, number);
            push_all_of(text, plan.seed, number, range)
        }
    }
}
