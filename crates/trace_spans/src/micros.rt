//! Times in microseconds, as Jaeger and Zipkin tell them.
ghost use Rattle.std.specs.Prelude.{◌≡◌};
ghost use Rattle.trace_spans.specs.Members.{member_of};
ghost use Rattle.trace_spans.specs.Micros.{end_in, lasting, microseconds, spelled_duration, start_in, time_after};
ghost use Rattle.trace_spans.specs.Reads.{IsRead};

use crate::fault::Fault;
use crate::member::Member;
use crate::object::{spelled, whole_number};
use json_trees::Tree;

/// How many nanoseconds a microsecond has.
const MICROSECOND: u64 = 1000;

/// From here on a duration is a negative one that was written without its sign.
const NEGATIVE: u64 = 1 << 63;

/// When a span starts, in nanoseconds, if that is known: 0 stands for none.
#[tactic(auto, unfolding(crate::specs::Micros::start_in))]
pub(crate) fn found_start(
    span: &Tree<'_, '_>,
    found: &Option<Tree<'_, '_>>,
    asked: Member,
) -> Result<Option<u64>, Fault>
    requires { found.now ≡ member_of asked span.now }
    ensures { IsRead result (start_in asked span.now) }
{
    let Some(value) = found else {
        return Ok(None);
    };
    let Some(time) = whole_number(value) else {
        return Err(Fault::of_shape(asked));
    };
    match time.checked_mul(MICROSECOND) {
        Some(0) => Ok(None),
        Some(time) => Ok(Some(time)),
        None => Err(Fault::of_shape(asked)),
    }
}

/// The microseconds that a span lasts; a negative duration, also one without its sign, is none.
fn lasting(microseconds: u64) -> u64
    ensures { result ≡ lasting microseconds }
{
    if microseconds < NEGATIVE {
        microseconds
    } else {
        0
    }
}

/// The microseconds that a text spells.
#[tactic(auto, unfolding(crate::specs::Micros::spelled_duration))]
fn spelled_duration(text: &str) -> Option<u64>
    ensures { result ≡ spelled_duration text.now }
{
    match text.strip_prefix('-') {
        Some(digits) => match spelled(digits) {
            Some(_) => Some(0),
            None => None,
        },
        None => match spelled(text) {
            Some(microseconds) => Some(lasting(microseconds)),
            None => None,
        },
    }
}

/// The microseconds that a span lasts, in a number or in digits.
#[tactic(auto, unfolding(crate::specs::Micros::microseconds))]
fn microseconds(value: &Tree<'_, '_>) -> Option<u64>
    ensures { result ≡ microseconds value.now }
{
    if let Some(text) = value.as_str() {
        return spelled_duration(text);
    }
    if let Some(microseconds) = value.as_u64() {
        return Some(lasting(microseconds));
    }
    // (what is a number with a sign here is a negative one)
    match value.as_i64() {
        Some(_) => Some(0),
        None => None,
    }
}

/// The time so many microseconds after a start.
#[tactic(auto, unfolding(crate::specs::Micros::time_after))]
fn time_after(start: u64, microseconds: u64) -> Option<u64>
    ensures { result ≡ time_after start microseconds }
{
    start.checked_add(microseconds.checked_mul(MICROSECOND)?)
}

/// When a span ends: its duration after its start.
#[tactic(auto, unfolding(crate::specs::Micros::end_in))]
pub(crate) fn found_end(
    span: &Tree<'_, '_>,
    found: &Option<Tree<'_, '_>>,
    start: Option<u64>,
) -> Result<Option<u64>, Fault>
    requires { found.now ≡ member_of Member.Duration span.now }
    ensures { IsRead result (end_in start span.now) }
{
    let Some(value) = found else {
        return Ok(None);
    };
    let Some(microseconds) = microseconds(value) else {
        return Err(Fault::of_shape(Member::Duration));
    };
    let Some(start) = start else {
        return Ok(None);
    };
    match time_after(start, microseconds) {
        Some(end) => Ok(Some(end)),
        None => Err(Fault::of_shape(Member::Duration)),
    }
}
