//! Ends with other timeouts.
ghost use Rattle.std.specs.Prelude.{◌≡◌, ◌++◌, ◌∷◌, [], IfOk, OnOk, count_by, filter, map, not};
ghost use Rattle.change_words.specs.declared.assignment.TimeLimit.TheVariants.{Delay};
ghost use Rattle.change_words.specs.Timeouts.{IsLimited, delayed, is_timeout, limited, waiting};

use crate::assignment::TimeLimit;
use stage_graph::{Act, End, Ends};
use std::alloc::{AllocError, Global};

/// Why ends have no other timeouts.
#[derive(Drop)]
pub(crate) enum LimitFault {
    /// The delay of their one timeout is to be set, and they have so many.
    Timeouts(usize),
    Memory,
}

impl From<AllocError> for LimitFault {
    ghost use Rattle.change_words.specs.declared.timeouts.LimitFault.TheVariants.{Memory};

    ghost from_gives = { λ _ fault. fault ≡ Memory };

    fn from(_error: AllocError) -> LimitFault {
        LimitFault::Memory
    }
}

/// Whether an end is a timeout.
fn is_timeout(end: &End) -> bool
    ensures { result ≡ is_timeout end.now }
{
    match end.act {
        Act::OrTimeout { .. } | Act::CompleteOnTimeout { .. } => true,
        Act::Complete(_) | Act::CompleteExceptionally(_) | Act::Cancel => false,
    }
}

/// How many of the ends are timeouts.
fn timeout_count(ends: &[End]) -> usize
    ensures { result ≡ count_by is_timeout ends.now }
{
    ends.iter().filter(|end| is_timeout(end)).count()
}

/// What an end does, with another delay, if it is a timeout.
fn waiting(delay: u64, act: Act) -> Act
    ensures { result ≡ waiting delay act }
{
    match act {
        Act::OrTimeout { .. } => Act::OrTimeout { delay },
        Act::CompleteOnTimeout { value, .. } => Act::CompleteOnTimeout { delay, value },
        Act::Complete(value) => Act::Complete(value),
        Act::CompleteExceptionally(name) => Act::CompleteExceptionally(name),
        Act::Cancel => Act::Cancel,
    }
}

/// The end with another delay, if it is a timeout.
fn delayed(delay: u64, end: End) -> End
    ensures { result ≡ delayed delay end }
{
    End {
        at: end.at,
        act: waiting(delay, end.act),
    }
}

/// The ends with another delay of each timeout.
fn all_delayed(alloc: Global, delay: u64, ends: &[End]) -> Result<Ends, AllocError>
    ensures { IfOk result (λ made. made ≡ map (delayed delay) ends.now) }
{
    let mut made = Ends::new(alloc);
    for end in ends {
        made.push(delayed(delay, *end))?;
    }
    Ok(made)
}

/// Adds an end, unless it is a timeout.
fn push_lasting(ends: &mut Ends, end: &End) -> Result<(), AllocError>
    ensures { OnOk result (ends.new ≡ ends.old ++ filter (λ end. not (is_timeout end)) (end.now ∷ [])) }
{
    if is_timeout(end) {
        return Ok(());
    }
    ends.push(*end)
}

/// The ends without the timeouts.
fn without_timeouts(alloc: Global, ends: &[End]) -> Result<Ends, AllocError>
    ensures { IfOk result (λ made. made ≡ filter (λ end. not (is_timeout end)) ends.now) }
{
    let mut made = Ends::new(alloc);
    for end in ends {
        push_lasting(&mut made, end)?;
    }
    Ok(made)
}

/// The ends with another delay of their one timeout.
fn one_delayed(alloc: Global, delay: u64, ends: &[End]) -> Result<Ends, LimitFault>
    ensures { IsLimited result (limited (Delay delay) ends.now) }
{
    let count = timeout_count(ends);
    if count != 1 {
        return Err(LimitFault::Timeouts(count));
    }
    Ok(all_delayed(alloc, delay, ends)?)
}

/// The ends with other timeouts.
pub(crate) fn limited(alloc: Global, limit: TimeLimit, ends: &[End]) -> Result<Ends, LimitFault>
    ensures { IsLimited result (limited limit ends.now) }
{
    match limit {
        TimeLimit::Unlimited => Ok(without_timeouts(alloc, ends)?),
        TimeLimit::Delay(delay) => one_delayed(alloc, delay, ends),
    }
}
