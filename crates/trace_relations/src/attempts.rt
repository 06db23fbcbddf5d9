//! Calls that were tried again.
ghost use Rattle.std.specs.Prelude.{◌≡◌, ◌<◌, ℕ, List, IfOk, true, filter, fold, length, nat_eq, slice_get};
ghost use Rattle.std.specs.List.{list_any};
ghost use Rattle.trace_relations.specs.Attempts.{attempts_of, caller_of, has_failed, is_failed_call, tried_again, tried_once, with_try};
ghost use Rattle.trace_relations.specs.ByStart.{AreInTurn};
ghost use Rattle.trace_relations.specs.Groups.{AreGroups};
ghost use Rattle.trace_relations.specs.KeptAttempts.{AreKept, calls_with, plain_attempts};
ghost use Rattle.trace_relations.specs.TriedCalls.{HasTried};

use crate::ancestry::parent_at;
use crate::call_groups::{Groups, groups_of};
use crate::hosts::Host;
use crate::moment::{Interval, interval_at};
use crate::set_at::{nothing_for, set_at};
use std::alloc::{AllocError, Global};
use trace_spans::Span;

/// Of each call which tries it again, by the places of spans.
#[derive(Drop)]
pub struct Attempts {
    /// The call that tries each again.
    pub next: Vec<Option<usize>>,
    /// The call that each tries again.
    pub previous: Vec<Option<usize>>,
    /// The first attempt of the whole call.
    pub first: Vec<usize>,
    /// The last attempt, of a first one.
    pub last: Vec<usize>,
}

/// The spans of a trace, and what their calls go by.
#[derive(Clone, Copy)]
pub(crate) struct Calls<'a> {
    pub spans: &'a [Span],
    pub intervals: &'a [Interval],
    pub hosts: &'a [Host],
    pub waiting: &'a [Option<usize>],
}

/// The caller of a span: it waits for the span, which begins inside it.
pub(crate) fn caller_of(hosts: &[Host], waiting: &[Option<usize>], place: usize) -> Option<usize>
    ensures { result ≡ caller_of hosts.now waiting.now place }
{
    let parent = parent_at(waiting, place)?;
    match hosts.get(place) {
        Some(Host::Inside(host)) if *host == parent => Some(parent),
        _ => None,
    }
}

/// Whether the span at a place failed.
pub(crate) fn has_failed(spans: &[Span], place: usize) -> bool
    ensures { result ≡ has_failed (slice_get spans.now place) }
{
    match spans.get(place) {
        Some(span) => span.failed,
        None => false,
    }
}

/// Each call is tried once.
pub(crate) fn tried_once(alloc: Global, count: usize) -> Result<Attempts, AllocError>
    ensures once { IfOk result (λ attempts. plain_attempts attempts ≡ tried_once) }
    ensures kept { IfOk result (AreKept count) }
{
    let mut first = Vec::with_capacity(alloc, count)?;
    let mut last = Vec::with_capacity(alloc, count)?;
    for place in 0..count {
        first.push(place)?;
        last.push(place)?;
    }
    let next = nothing_for(alloc, count)?;
    let previous = nothing_for(alloc, count)?;
    Ok(Attempts {
        next,
        previous,
        first,
        last,
    })
}

/// Whether the span at a place is a call that failed.
fn is_failed_call(calls: Calls<'_>, place: usize) -> bool
    ensures { result ≡ is_failed_call (calls_with calls.entry) place }
{
    has_failed(calls.spans, place) && caller_of(calls.hosts, calls.waiting, place).is_some()
}

/// The first attempt of the whole call that a call is an attempt of.
fn first_of(attempts: &Attempts, call: usize) -> usize
    ensures { result ≡ (plain_attempts attempts.now).first call }
{
    match attempts.first.get(call) {
        Some(first) => *first,
        None => call,
    }
}

/// Notes that a call is tried again by another.
fn try_again(attempts: &mut Attempts, call: usize, again: usize)
    ensures kept { (count : ℕ) → AreKept count attempts.old → call < count → AreKept count attempts.new }
    ensures tried { (count : ℕ) → AreKept count attempts.old → call < count → again < count → plain_attempts attempts.new ≡ with_try (plain_attempts attempts.old) call (Some again) }
{
    let first = first_of(attempts, call);
    set_at(&mut attempts.next, call, Some(again));
    set_at(&mut attempts.previous, again, Some(call));
    set_at(&mut attempts.first, again, first);
    set_at(&mut attempts.last, first, again);
}

/// Looks for the call that tries another again, if that failed.
fn try_call(calls: Calls<'_>, groups: &mut Groups, attempts: &mut Attempts, call: usize)
    ensures { (order : List ℕ) → AreInTurn calls.entry.intervals.now order → AreKept (length calls.entry.spans.now) attempts.old → AreGroups (calls_with calls.entry) order (plain_attempts attempts.old) groups.old → list_any (nat_eq call) order ≡ true
        → HasTried (calls_with calls.entry) order call attempts.old attempts.new groups.new }
{
    if !is_failed_call(calls, call) {
        return;
    }
    let end = interval_at(calls.intervals, call).end_moment();
    let Some(again) = groups.take_after(calls.intervals, call, end) else {
        return;
    };
    try_again(attempts, call, again);
}

/// Which calls are tried again, where those of one caller to the same stand together in groups.
fn tried_in(calls: Calls<'_>, order: &[usize], groups: &mut Groups, attempts: &mut Attempts)
    requires order { AreInTurn calls.intervals.now order.now }
    requires kept { AreKept (length calls.spans.now) attempts.old }
    requires groups { AreGroups (calls_with calls) order.now (plain_attempts attempts.old) groups.old }
    ensures { plain_attempts attempts.new ≡ fold (tried_again (calls_with calls.entry) order.now) (plain_attempts attempts.old) (filter (is_failed_call (calls_with calls.entry)) order.now) }
{
    for call in order {
        try_call(calls, groups, attempts, *call);
    }
}

/// Which calls are tried again: of those that failed, one after the other in the order of starts, each by the first that
/// can and tries no other.
pub(crate) fn attempts_of(
    alloc: Global,
    calls: Calls<'_>,
    order: &[usize],
) -> Result<Attempts, AllocError>
    requires { AreInTurn calls.intervals.now order.now }
    ensures { IfOk result (λ attempts. plain_attempts attempts ≡ attempts_of (calls_with calls.entry) order.now) }
{
    let mut attempts = tried_once(alloc, calls.spans.len())?;
    let mut groups = groups_of(alloc, calls, order)?;
    tried_in(calls, order, &mut groups, &mut attempts);
    Ok(attempts)
}
