//! The ticks that an axis names.
ghost use Rattle.std.specs.Prelude.{◌≡◌, ℕ, ◌/◌, ◌^◌, ◌<◌, ◌≤◌, IfOk, MatchOption, length, max};
ghost use Rattle.timeline.specs.Rounds.{IsAxis, IsRound, IsPassed, IsStepOf, multiples};

use std::alloc::{AllocError, Global};

/// The least of 1, 2, 5, 10, 20, 50 and so on that goes less than `most` times into a span.
pub fn round_step(span: u64, most: u64) -> u64
    requires span { span < 2 ^ 63 }
    requires most { 2 ≤ most }
    ensures round { IsRound result }
    ensures few { span / result < most }
    ensures least { (step : ℕ) → IsRound step → step < result → most ≤ span / step }
{
    let mut power = 1;
    loop {
        match step_of_decade(span, most, power) {
            Some(step) => return step,
            None => power *= 10,
        }
    }
}

// The same among 1, 2 and 5 times a power of ten, where none before it does.
fn step_of_decade(span: u64, most: u64, power: u64) -> Option<u64>
    requires span { span < 2 ^ 63 }
    requires most { 2 ≤ most }
    requires positive { 0 < power }
    requires reached { power ≤ max 1 span }
    ensures { MatchOption result (IsPassed span most power) (IsStepOf span most power) }
{
    if span / power < most {
        Some(power)
    } else if span / (2 * power) < most {
        Some(2 * power)
    } else if span / (5 * power) < most {
        Some(5 * power)
    } else {
        None
    }
}

/// The ticks from the first to the last that an axis names: the multiples of a round step, no more than `most`.
pub fn axis_ticks(alloc: Global, first: u64, last: u64, most: u64) -> Result<Vec<u64>, AllocError>
    requires ordered { first ≤ last }
    requires last { last < 2 ^ 63 }
    requires most { 2 ≤ most }
    ensures axis { IfOk result (λ ticks. IsAxis first last most ticks.items) }
    ensures few { IfOk result (λ ticks. length ticks.items ≤ most) }
{
    let step = round_step(last - first, most);
    multiples(alloc, first, last, step)
}

// The multiples of a step between two ticks, in order.
fn multiples(alloc: Global, first: u64, last: u64, step: u64) -> Result<Vec<u64>, AllocError>
    requires step { 0 < step }
    requires ordered { first ≤ last }
    requires last { last < 2 ^ 63 }
    ensures { IfOk result (λ ticks. ticks.items ≡ multiples first last step) }
{
    let mut ticks = Vec::new(alloc);
    for multiple in first.div_ceil(step)..last / step + 1 {
        ticks.push(multiple * step)?;
    }
    Ok(ticks)
}
