//! What happens inside each span.
ghost use Rattle.std.specs.Prelude.{◌≡◌, ℕ, ◌<◌, ◌==◌, ◌++◌, [], ◌∷◌, IfOk, OnOk, if◌then◌else◌, vec_len};
ghost use Rattle.trace_stages.specs.Events.{HasEvents, ending_in, events_at, happening, starting_in};
ghost use Rattle.trace_relations.specs.Relations.{plain};

use crate::attempts::{attempt_after, attempt_before, first_attempt};
use crate::places::parent_at;
use crate::walk::called::call_end;
use crate::walk::event::Event;
use crate::walk::moments::At;
use std::alloc::{AllocError, Global};
use trace_relations::{Host, Relations, Turn};

/// What happens inside which span.
#[derive(Clone, Copy)]
struct Happening {
    inside: usize,
    event: Event,
}

/// What happens inside another span as a span starts at a tick: a later attempt of a call starts in none.
fn as_starts(relations: &Relations, place: usize, tick: u64) -> Option<Happening>
    ensures { result ≡ starting_in (plain relations.now) place tick }
{
    if attempt_before(&relations.attempts, place).is_some() {
        return None;
    }
    match relations.hosts.get(place) {
        Some(Host::Inside(inside)) => Some(Happening {
            inside: *inside,
            event: Event::Starts { span: place, tick },
        }),
        _ => None,
    }
}

/// What happens inside another span as a span ends at a tick: with the last attempt a call ends.
fn as_ends(relations: &Relations, place: usize, tick: u64) -> Option<Happening>
    ensures { result ≡ ending_in (plain relations.now) place tick }
{
    if attempt_after(&relations.attempts, place).is_some() {
        return None;
    }
    let inside = parent_at(&relations.waiting, place)?;
    let span = first_attempt(&relations.attempts, place);
    Some(Happening {
        inside,
        event: Event::Ends {
            span,
            stage: call_end(&relations.attempts, span),
            tick,
        },
    })
}

/// What happens at a moment.
fn happens_at(relations: &Relations, at: At) -> Option<Happening>
    ensures { result ≡ happening (plain relations.now) at }
{
    let ((tick, turn), (_, place)) = at;
    if turn == Turn::Starts.number() {
        as_starts(relations, place, tick)
    } else {
        as_ends(relations, place, tick)
    }
}

/// Nothing in so many spans.
fn no_events(alloc: Global, count: usize) -> Result<Vec<Vec<Event>>, AllocError>
    ensures { IfOk result (λ all. (vec_len all ≡ count) × ((span : ℕ) → events_at all.items span ≡ [])) }
{
    let mut all = Vec::with_capacity(alloc, count)?;
    for _span in 0..count {
        all.push(Vec::new(alloc))?;
    }
    Ok(all)
}

/// Adds what happens inside a span.
fn add_event(all: &mut Vec<Vec<Event>>, inside: usize, event: Event) -> Result<(), AllocError>
    requires { inside < vec_len all.old }
    ensures kept { OnOk result (vec_len all.new ≡ vec_len all.old) }
    ensures added { OnOk result ((span : ℕ) → events_at all.new.items span ≡ (if span == inside then events_at all.old.items span ++ event ∷ [] else events_at all.old.items span)) }
{
    all[inside].push(event)?;
    Ok(())
}

/// What happens inside each of so many spans, in the order of moments.
pub(crate) fn all_events(
    alloc: Global,
    count: usize,
    relations: &Relations,
    moments: &[At],
) -> Result<Vec<Vec<Event>>, AllocError>
    ensures { IfOk result (λ all. HasEvents count (plain relations.now) moments.now all.items) }
{
    let mut all = no_events(alloc, count)?;
    for at in moments {
        if let Some(found) = happens_at(relations, *at) {
            if found.inside < count {
                add_event(&mut all, found.inside, found.event)?;
            }
        }
    }
    Ok(all)
}

/// What happens inside the span at a place.
pub(crate) fn events_at(all: &[Vec<Event>], span: usize) -> &[Event]
    ensures { result.now ≡ events_at all.now span }
{
    match all.get(span) {
        Some(events) => events.as_slice(),
        None => &[],
    }
}
