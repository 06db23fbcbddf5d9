//! The attempts of calls, by the places of spans.
ghost use Rattle.std.specs.Prelude.{◌≡◌};
ghost use Rattle.trace_relations.specs.KeptAttempts.{plain_attempts};

use trace_relations::Attempts;

/// The attempt after a call, if that was tried again.
pub(crate) fn attempt_after(attempts: &Attempts, place: usize) -> Option<usize>
    ensures { result ≡ (plain_attempts attempts.now).next place }
{
    match attempts.next.get(place) {
        Some(next) => *next,
        None => None,
    }
}

/// The attempt before a call, if it tries one again.
pub(crate) fn attempt_before(attempts: &Attempts, place: usize) -> Option<usize>
    ensures { result ≡ (plain_attempts attempts.now).previous place }
{
    match attempts.previous.get(place) {
        Some(previous) => *previous,
        None => None,
    }
}

/// The first attempt of the call that a span is one of.
pub(crate) fn first_attempt(attempts: &Attempts, place: usize) -> usize
    ensures { result ≡ (plain_attempts attempts.now).first place }
{
    match attempts.first.get(place) {
        Some(first) => *first,
        None => place,
    }
}

/// The last attempt of the call that began with a span.
pub(crate) fn last_attempt(attempts: &Attempts, place: usize) -> usize
    ensures { result ≡ (plain_attempts attempts.now).last place }
{
    match attempts.last.get(place) {
        Some(last) => *last,
        None => place,
    }
}
