//! A stage's ends, one of which is taken away or acts later.
ghost use Rattle.std.specs.Prelude.{◌≡◌, ◌++◌, ◌<◌, IfOk, OnOk, length};
ghost use Rattle.std.specs.Option.{option_to_list};
ghost use Rattle.reply_rescue.specs.Ends.{can_double, delay_at, longer_act, longer_end, timeout_delay, twice, with_instead, with_longer_end, without_end};

use stage_graph::{Act, End, Ends};
use std::alloc::{AllocError, Global};

/// The most ticks that a recording may say.
const LAST_TICK: u64 = 1 << 40;

/// Twice as many ticks, but no more than a recording may say.
pub fn twice(delay: u64) -> u64
    ensures { result ≡ twice delay }
{
    if delay < LAST_TICK / 2 {
        delay * 2
    } else {
        LAST_TICK
    }
}

/// What an end does: a timeout after twice the delay, and a call as it is.
fn longer_act(act: Act) -> Act
    ensures { result ≡ longer_act act }
{
    match act {
        Act::Complete(value) => Act::Complete(value),
        Act::CompleteExceptionally(name) => Act::CompleteExceptionally(name),
        Act::Cancel => Act::Cancel,
        Act::OrTimeout { delay } => Act::OrTimeout {
            delay: twice(delay),
        },
        Act::CompleteOnTimeout { delay, value } => Act::CompleteOnTimeout {
            delay: twice(delay),
            value,
        },
    }
}

/// The end, with twice the delay.
fn longer_end(end: &End) -> End
    ensures { result ≡ longer_end end.now }
{
    End {
        at: end.at,
        act: longer_act(end.act),
    }
}

/// The delay of a timeout; a call has none.
fn timeout_delay(act: &Act) -> Option<u64>
    ensures { result ≡ timeout_delay act.now }
{
    match act {
        Act::Complete(_) | Act::CompleteExceptionally(_) | Act::Cancel => None,
        Act::OrTimeout { delay } | Act::CompleteOnTimeout { delay, .. } => Some(*delay),
    }
}

/// The delay of the end of an index, if it is a timeout.
pub(crate) fn delay_at(ends: &[End], index: usize) -> Option<u64>
    ensures { result ≡ delay_at ends.now index }
{
    match ends.get(index) {
        Some(end) => timeout_delay(&end.act),
        None => None,
    }
}

/// Whether twice the delay of a timeout is more than it.
pub(crate) fn can_double(delay: Option<u64>) -> bool
    ensures { result ≡ can_double delay }
{
    match delay {
        None => false,
        Some(delay) => delay < twice(delay),
    }
}

/// Adds ends after the others.
fn push_each(ends: &mut Ends, more: &[End]) -> Result<(), AllocError>
    ensures { OnOk result (ends.new ≡ ends.old ++ more.now) }
{
    for end in more {
        ends.push(*end)?;
    }
    Ok(())
}

/// Adds an end after the others, if there is one.
fn push_some(ends: &mut Ends, more: Option<End>) -> Result<(), AllocError>
    ensures { OnOk result (ends.new ≡ ends.old ++ option_to_list more) }
{
    match more {
        Some(end) => ends.push(end),
        None => Ok(()),
    }
}

/// The ends with another one, or with none, in place of that of an index.
fn with_instead(
    alloc: Global,
    ends: &[End],
    index: usize,
    other: Option<End>,
) -> Result<Ends, AllocError>
    requires { index < length ends.now }
    ensures { IfOk result (λ made. made ≡ with_instead other ends.now index) }
{
    let mut made = Ends::new(alloc);
    push_each(&mut made, &ends[..index])?;
    push_some(&mut made, other)?;
    push_each(&mut made, &ends[index + 1..])?;
    Ok(made)
}

/// The ends without that of an index.
pub(crate) fn without_end(alloc: Global, ends: &Ends, index: usize) -> Result<Ends, AllocError>
    ensures { IfOk result (λ made. made ≡ without_end ends.now index) }
{
    let all = ends.as_slice();
    if index < all.len() {
        with_instead(alloc, all, index, None)
    } else {
        ends.again()
    }
}

/// The ends, of which that of an index has twice the delay.
pub(crate) fn with_longer_end(alloc: Global, ends: &Ends, index: usize) -> Result<Ends, AllocError>
    ensures { IfOk result (λ made. made ≡ with_longer_end ends.now index) }
{
    let all = ends.as_slice();
    match all.get(index) {
        Some(end) => with_instead(alloc, all, index, Some(longer_end(end))),
        None => ends.again(),
    }
}
