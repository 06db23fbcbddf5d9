//! What is told of an import.

use crate::note::{Attempt, GivenUp, LateCall, MovedClock, Note, NoteKind, Outliving};
use crate::reading::Reading;
use crate::stage_names::name_at;
use std::alloc::{AllocError, Global};
use trace_relations::{Interval, Moved, Relations};
use trace_spans::{Kind, Span, Text, TextList, key_of};

/// How many of a kind are told.
const MOST_OF_KIND: usize = 16;

/// What is told of one kind: some, and how many more there are.
#[derive(Drop)]
struct Notes {
    kind: NoteKind,
    told: Vec<Note>,
    more: usize,
}

impl Notes {
    fn new(alloc: Global, kind: NoteKind) -> Notes {
        Notes {
            kind,
            told: Vec::new(alloc),
            more: 0,
        }
    }

    /// Whether one more of the kind is told; if not it is counted.
    fn has_room(&mut self) -> bool {
        let has_room = self.told.len() < MOST_OF_KIND;
        if !has_room {
            self.more = self.more.saturating_add(1);
        }
        has_room
    }

    /// Puts them at the end of others.
    fn append_to(self, notes: &mut Vec<Note>) -> Result<(), AllocError> {
        let Notes { kind, told, more } = self;
        for note in told {
            notes.push(note)?;
        }
        if more > 0 {
            notes.push(Note::More(kind, more))?;
        }
        Ok(())
    }
}

/// What an import goes by.
#[derive(Clone, Copy)]
struct Trace<'a> {
    alloc: Global,
    spans: &'a [Span],
    relations: &'a Relations,
    names: &'a TextList,
}

/// The place that stands for a span, if one does.
fn place_in(places: &[Option<usize>], place: usize) -> Option<usize> {
    match places.get(place) {
        Some(found) => *found,
        None => None,
    }
}

impl Trace<'_> {
    /// The name of the stage of the span at a place.
    fn name(&self, place: usize) -> Result<Text, AllocError> {
        Text::new(self.alloc, name_at(self.names, place))
    }

    /// From which tick to which the span at a place goes.
    fn interval(&self, place: usize) -> Interval {
        match self.relations.intervals.get(place) {
            Some(interval) => *interval,
            None => Interval {
                start: 0,
                end: None,
            },
        }
    }

    /// The caller that a span names.
    fn caller(&self, place: usize) -> Option<usize> {
        self.relations.references.get(place)?.named_parent()
    }

    fn failed(&self, place: usize) -> bool {
        match self.spans.get(place) {
            Some(span) => span.failed,
            None => false,
        }
    }
}

/// Whether a call, as it is told, starts before its caller or ends after it.
fn lies_outside(caller: &Span, span: &Span) -> bool {
    let starts_before = match (caller.start, span.start) {
        (Some(callers), Some(start)) => start < callers,
        _ => false,
    };
    let ends_after = match (caller.end, span.end) {
        (Some(callers), Some(end)) => callers < end,
        _ => false,
    };
    starts_before || ends_after
}

/// How many calls that one of the two has the clock of would lie outside of their callers.
fn calls_outside(trace: Trace<'_>, clock: &Span) -> usize {
    let mut calls: usize = 0;
    for (place, span) in trace.spans.iter().enumerate() {
        if let Some(caller) = trace
            .caller(place)
            .and_then(|caller| trace.spans.get(caller))
        {
            let has_clock = span.clock.same(&clock.clock) != caller.clock.same(&clock.clock);
            if has_clock && lies_outside(caller, span) {
                calls = calls.saturating_add(1);
            }
        }
    }
    calls
}

/// What is told of a clock that is moved.
fn moved_clock(trace: Trace<'_>, moved: Moved) -> Result<Option<Note>, AllocError> {
    let Some(span) = trace.spans.get(moved.clock) else {
        return Ok(None);
    };
    Ok(Some(Note::Moved(MovedClock {
        clock: span.clock.told(trace.alloc)?,
        by: moved.by,
        calls: calls_outside(trace, span),
    })))
}

/// The clocks that are moved.
fn moved_clocks(trace: Trace<'_>) -> Result<Notes, AllocError> {
    let mut notes = Notes::new(trace.alloc, NoteKind::Moved);
    for moved in &trace.relations.moved {
        if notes.has_room() {
            if let Some(note) = moved_clock(trace, *moved)? {
                notes.told.push(note)?;
            }
        }
    }
    Ok(notes)
}

/// The ends that are taken to be those of callers.
fn late_calls(trace: Trace<'_>) -> Result<Notes, AllocError> {
    let mut notes = Notes::new(trace.alloc, NoteKind::EndedLate);
    for late in &trace.relations.late {
        if notes.has_room() {
            notes.told.push(Note::EndedLate(LateCall {
                call: trace.name(late.span)?,
                by: late.by,
            }))?;
        }
    }
    Ok(notes)
}

/// Which attempt each span is, counted from 1; the spans before are known.
fn attempt_numbers(trace: Trace<'_>) -> Result<Vec<usize>, AllocError> {
    let mut numbers: Vec<usize> = vec![in trace.alloc; 1; trace.spans.len()]?;
    for place in &trace.relations.order {
        if let Some(previous) = place_in(&trace.relations.attempts.previous, *place) {
            let before = numbers.get(previous).copied().unwrap_or(1);
            if let Some(number) = numbers.get_mut(*place) {
                *number = before.saturating_add(1);
            }
        }
    }
    Ok(numbers)
}

/// The calls that are taken for further attempts.
fn further_attempts(trace: Trace<'_>) -> Result<Notes, AllocError> {
    let mut notes = Notes::new(trace.alloc, NoteKind::TriedAgain);
    let numbers = attempt_numbers(trace)?;
    for place in &trace.relations.order {
        if place_in(&trace.relations.attempts.previous, *place).is_some() && notes.has_room() {
            let first = trace.relations.attempts.first.get(*place).copied();
            notes.told.push(Note::TriedAgain(Attempt {
                call: trace.name(*place)?,
                first: trace.name(first.unwrap_or(*place))?,
                number: numbers.get(*place).copied().unwrap_or(1),
            }))?;
        }
    }
    Ok(notes)
}

/// What is told of a call that was given up, by what it had called.
fn given_up(trace: Trace<'_>, call: usize, called: usize) -> Result<Note, AllocError> {
    Ok(Note::GivenUp(GivenUp {
        call: trace.name(call)?,
        at: trace.interval(call).end.unwrap_or(0),
        called: trace.name(called)?,
        ran_on: place_in(&trace.relations.waiting, called).is_none(),
    }))
}

/// The calls that were given up, each by the first that it had called.
fn calls_given_up(trace: Trace<'_>) -> Result<Notes, AllocError> {
    let mut notes = Notes::new(trace.alloc, NoteKind::GivenUp);
    let mut is_told = vec![in trace.alloc; false; trace.spans.len()]?;
    for called in &trace.relations.order {
        if let Some(call) = place_in(&trace.relations.given_up, *called) {
            if let Some(of_call) = is_told.get_mut(call) {
                if !*of_call {
                    *of_call = true;
                    if notes.has_room() {
                        notes.told.push(given_up(trace, call, *called)?)?;
                    }
                }
            }
        }
    }
    Ok(notes)
}

/// Whether a span names a parent, and not only itself.
fn names_another(alloc: Global, span: &Span) -> Result<bool, AllocError> {
    let own = key_of(alloc, span)?;
    Ok(
        span.parents
            .as_slice()
            .iter()
            .any(|parent| !parent.same(&own)),
    )
}

/// Whether a span has no parent, neither one that it names nor a link.
fn is_root(trace: Trace<'_>, place: usize) -> bool {
    trace.caller(place).is_none() && place_in(&trace.relations.parents, place).is_none()
}

/// How many spans name parents of which none is in the trace, and have no link for a parent.
fn without_parents(trace: Trace<'_>) -> Result<usize, AllocError> {
    let mut count: usize = 0;
    for (place, span) in trace.spans.iter().enumerate() {
        if is_root(trace, place) && names_another(trace.alloc, span)? {
            count = count.saturating_add(1);
        }
    }
    Ok(count)
}

/// Whether a call, which sends and takes no message, outlives its caller, which ended and did not fail.
fn outlives(trace: Trace<'_>, place: usize, caller: usize) -> bool {
    let (Some(span), Some(calling)) = (trace.spans.get(place), trace.spans.get(caller)) else {
        return false;
    };
    let has_message = matches!(calling.kind, Kind::Producer) || matches!(span.kind, Kind::Consumer);
    let callers_end = trace.interval(caller).end_moment();
    let outlives = match (callers_end, trace.interval(place).end_moment()) {
        (Some(callers_end), Some(end)) => callers_end.is_before(end),
        (Some(_), None) => true,
        (None, _) => false,
    };
    outlives && !has_message && !trace.failed(caller)
}

/// The calls that outlive their callers.
fn outliving_calls(trace: Trace<'_>) -> Result<Notes, AllocError> {
    let mut notes = Notes::new(trace.alloc, NoteKind::Outlives);
    for place in &trace.relations.order {
        if let Some(caller) = trace.caller(*place) {
            if outlives(trace, *place, caller) && notes.has_room() {
                notes.told.push(Note::Outlives(Outliving {
                    call: trace.name(*place)?,
                    caller: trace.name(caller)?,
                }))?;
            }
        }
    }
    Ok(notes)
}

/// What is told of an import, kind by kind.
pub(crate) fn notes_of(
    alloc: Global,
    reading: &Reading<'_>,
    names: &TextList,
) -> Result<Vec<Note>, AllocError> {
    let trace = Trace {
        alloc,
        spans: reading.trace.spans.as_slice(),
        relations: &reading.relations,
        names,
    };
    let mut notes = Vec::new(alloc);
    if reading.trace.is_cut {
        notes.push(Note::CutLine)?;
    }
    moved_clocks(trace)?.append_to(&mut notes)?;
    late_calls(trace)?.append_to(&mut notes)?;
    further_attempts(trace)?.append_to(&mut notes)?;
    calls_given_up(trace)?.append_to(&mut notes)?;
    let orphans = without_parents(trace)?;
    if orphans > 0 {
        notes.push(Note::NoParent(orphans))?;
    }
    outliving_calls(trace)?.append_to(&mut notes)?;
    Ok(notes)
}
