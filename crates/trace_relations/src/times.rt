//! The times of spans by the clocks of the roots.
ghost use Rattle.std.specs.Prelude.{◌≡◌, ◌^◌, option_map};
ghost use Rattle.trace_relations.specs.KeptMoves.{IsAtMost};
ghost use Rattle.trace_relations.specs.Times.{moved_time, times_moved};

use trace_spans::Span;

/// When a span started and ended by the clocks of the roots, in nanoseconds since 1970.
#[derive(Clone, Copy, PartialEq, Eq, Debug)]
pub struct Times {
    pub start: Option<i128>,
    pub end: Option<i128>,
}

/// A time of a clock that is moved by so many nanoseconds.
fn moved_time(by: i128, time: Option<u64>) -> Option<i128>
    requires { IsAtMost (2 ^ 80) by }
    ensures { result ≡ option_map (moved_time by) time }
{
    match time {
        Some(time) => {
            let moved = i128::from(time) + by;
            Some(moved)
        }
        None => None,
    }
}

/// The times of a span whose clock is moved by so many nanoseconds.
pub(crate) fn times_moved(by: i128, span: &Span) -> Times
    requires { IsAtMost (2 ^ 80) by }
    ensures { result ≡ times_moved by span.now }
{
    Times {
        start: moved_time(by, span.start),
        end: moved_time(by, span.end),
    }
}
