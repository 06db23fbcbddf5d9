//! What tells groups of calls apart.
ghost use Rattle.std.specs.Prelude.{◌≡◌, IfOk, OnOk, if◌then◌else◌, option_map, slice_get, string_bytes};
ghost use Rattle.trace_relations.specs.Attempts.{caller_of, has_failed};
ghost use Rattle.trace_relations.specs.GroupKeys.{AreFailing, IsShort, IsShortCall, call_key, group_key, is_failing};
ghost use Rattle.trace_relations.specs.KeptAttempts.{calls_with};

use crate::attempts::{Calls, caller_of, has_failed};
use crate::calls::push_call;
use crate::key::push_text;
use crate::set_at::set_for;
use std::alloc::{AllocError, Global};
use std::fmt::Write;
use trace_spans::Span;

/// The callers of which a call failed.
pub(crate) fn failing_callers(alloc: Global, calls: Calls<'_>) -> Result<Vec<bool>, AllocError>
    ensures { IfOk result (λ failing. AreFailing (calls_with calls.entry) failing.items) }
{
    let mut failing = vec![in alloc; false; calls.spans.len()]?;
    for place in 0..calls.spans.len() {
        let caller = failed_for(calls, place);
        set_for(&mut failing, caller, true);
    }
    Ok(failing)
}

/// The caller of a call that failed.
fn failed_for(calls: Calls<'_>, place: usize) -> Option<usize>
    ensures { result ≡ (if has_failed (slice_get calls.entry.spans.now place) then caller_of calls.entry.hosts.now calls.entry.waiting.now place else None) }
{
    if has_failed(calls.spans, place) {
        caller_of(calls.hosts, calls.waiting, place)
    } else {
        None
    }
}

/// Whether a call of a caller failed; of one that is no span it is taken to be so.
fn is_failing(failing: &[bool], caller: usize) -> bool
    ensures { result ≡ is_failing failing.now caller }
{
    failing.get(caller).copied().unwrap_or(true)
}

/// The key of the calls of a caller to the same as a call.
fn call_key(alloc: Global, caller: usize, span: &Span) -> Result<String, AllocError>
    ensures key { IfOk result (λ key. string_bytes key ≡ call_key caller span.now) }
    ensures short { OnOk result (IsShortCall caller span.now) }
{
    let number = format!(in alloc; "{caller}")?;
    let mut key = String::new(alloc);
    push_text(&mut key, number.as_str())?;
    push_call(&mut key, span)?;
    Ok(key)
}

/// The key of the group of a call, if a call of its caller failed.
pub(crate) fn group_key(
    alloc: Global,
    calls: Calls<'_>,
    failing: &[bool],
    place: usize,
) -> Result<Option<String>, AllocError>
    ensures key { IfOk result (λ key. option_map string_bytes key ≡ group_key (calls_with calls.entry) failing.now place) }
    ensures short { OnOk result (IsShort (calls_with calls.entry) failing.now place) }
{
    let Some(caller) = caller_of(calls.hosts, calls.waiting, place) else {
        return Ok(None);
    };
    if !is_failing(failing, caller) {
        return Ok(None);
    }
    match calls.spans.get(place) {
        Some(span) => Ok(Some(call_key(alloc, caller, span)?)),
        None => Ok(None),
    }
}
