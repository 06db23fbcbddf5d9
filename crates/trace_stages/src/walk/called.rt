//! What was called when spans gave up.
ghost use Rattle.std.specs.Prelude.{◌≡◌, ℕ, ◌<◌, ◌==◌, ◌++◌, [], ◌∷◌, IfOk, OnOk, if◌then◌else◌, vec_len};
ghost use Rattle.trace_relations.specs.KeptAttempts.{plain_attempts};
ghost use Rattle.trace_relations.specs.Relations.{plain};
ghost use Rattle.trace_stages.specs.Called.{HasCalled, by_end, call_end, called_at, called_by, ending, ends, gave_up, is_open, starts_open};

use crate::attempts::attempt_after;
use crate::places::{interval_at, parent_at};
use crate::walk::moments::At;
use crate::walk::stage_id::StageId;
use std::alloc::{AllocError, Global};
use trace_relations::{Attempts, Relations, Turn};

/// A call that a span gave up: the span that it began with, its start, the stage that stands for its end, and whether
/// it has not ended.
#[derive(Clone, Copy, PartialEq, Eq, Debug)]
pub(crate) struct Called {
    pub span: usize,
    pub start: u64,
    pub stage: StageId,
    pub is_open: bool,
}

/// The stage that stands for the end of a call: of one that was tried again what that came to.
pub(crate) fn call_end(attempts: &Attempts, place: usize) -> StageId
    ensures { result ≡ call_end (plain_attempts attempts.now) place }
{
    if attempt_after(attempts, place).is_some() {
        StageId::Tried(place)
    } else {
        StageId::Whole(place)
    }
}

/// The call that began with a span.
fn called_by(relations: &Relations, place: usize) -> Called
    ensures { result ≡ called_by (plain relations.now) place }
{
    Called {
        span: place,
        start: interval_at(&relations.intervals, place).start,
        stage: call_end(&relations.attempts, place),
        is_open: is_open(relations, place),
    }
}

/// Whether the span at a place has not ended.
fn is_open(relations: &Relations, place: usize) -> bool
    ensures { result ≡ is_open (plain relations.now) place }
{
    interval_at(&relations.intervals, place).end.is_none()
}

/// Whether a span ends at a moment.
fn ends(at: At) -> bool
    ensures { result ≡ ends at }
{
    let ((_, turn), _) = at;
    turn != Turn::Starts.number()
}

/// Whether a span starts at a moment that has not ended.
fn starts_open(relations: &Relations, at: At) -> bool
    ensures { result ≡ starts_open (plain relations.now) at }
{
    let ((_, turn), (_, place)) = at;
    turn == Turn::Starts.number() && is_open(relations, place)
}

/// Adds a place if it is one of those that are meant.
fn push_if(places: &mut Vec<usize>, is_one: bool, place: usize) -> Result<(), AllocError>
    ensures { OnOk result (places.new.items ≡ places.old.items ++ (if is_one then place ∷ [] else [])) }
{
    if !is_one {
        return Ok(());
    }
    places.push(place)?;
    Ok(())
}

/// The spans that have ended, in the order of their ends.
fn ended(alloc: Global, count: usize, moments: &[At]) -> Result<Vec<usize>, AllocError>
    ensures { IfOk result (λ places. places.items ≡ ending moments.now) }
{
    let mut places = Vec::with_capacity(alloc, count)?;
    for at in moments {
        push_if(&mut places, ends(*at), at.1.1)?;
    }
    Ok(places)
}

/// The spans in the order of their ends; those that have not ended last, in the order of starts.
fn by_end(alloc: Global, relations: &Relations, moments: &[At]) -> Result<Vec<usize>, AllocError>
    ensures { IfOk result (λ places. places.items ≡ by_end (plain relations.now) moments.now) }
{
    let mut places = ended(alloc, relations.intervals.len(), moments)?;
    for at in moments {
        push_if(&mut places, starts_open(relations, *at), at.1.1)?;
    }
    Ok(places)
}

/// None were called by so many spans.
fn none_called(alloc: Global, count: usize) -> Result<Vec<Vec<Called>>, AllocError>
    ensures { IfOk result (λ all. (vec_len all ≡ count) × ((span : ℕ) → called_at all.items span ≡ [])) }
{
    let mut all = Vec::with_capacity(alloc, count)?;
    for _span in 0..count {
        all.push(Vec::new(alloc))?;
    }
    Ok(all)
}

/// Adds a call to those that a span had called.
fn add_call(all: &mut Vec<Vec<Called>>, caller: usize, call: Called) -> Result<(), AllocError>
    requires { caller < vec_len all.old }
    ensures kept { OnOk result (vec_len all.new ≡ vec_len all.old) }
    ensures added { OnOk result ((span : ℕ) → called_at all.new.items span ≡ (if span == caller then called_at all.old.items span ++ call ∷ [] else called_at all.old.items span)) }
{
    all[caller].push(call)?;
    Ok(())
}

/// Adds a span to what its caller had called, if that gave it up.
fn add_given_up(
    all: &mut Vec<Vec<Called>>,
    relations: &Relations,
    place: usize,
) -> Result<(), AllocError>
    ensures kept { OnOk result (vec_len all.new ≡ vec_len all.old) }
    ensures added { OnOk result ((span : ℕ) → span < vec_len all.old → called_at all.new.items span ≡ called_at all.old.items span ++ (if gave_up (plain relations.now) span place then called_by (plain relations.now) place ∷ [] else [])) }
{
    let Some(caller) = parent_at(&relations.given_up, place) else {
        return Ok(());
    };
    if caller >= all.len() {
        return Ok(());
    }
    add_call(all, caller, called_by(relations, place))?;
    Ok(())
}

/// What each span had called when it gave up.
pub(crate) fn all_called(
    alloc: Global,
    relations: &Relations,
    moments: &[At],
) -> Result<Vec<Vec<Called>>, AllocError>
    ensures { IfOk result (λ all. HasCalled (plain relations.now) moments.now all.items) }
{
    let mut all = none_called(alloc, relations.intervals.len())?;
    let places = by_end(alloc, relations, moments)?;
    for place in &places {
        add_given_up(&mut all, relations, *place)?;
    }
    Ok(all)
}

/// What the span at a place had called.
pub(crate) fn called_at(all: &[Vec<Called>], span: usize) -> &[Called]
    ensures { result.now ≡ called_at all.now span }
{
    match all.get(span) {
        Some(called) => called.as_slice(),
        None => &[],
    }
}
