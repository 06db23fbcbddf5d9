//! What each span has by what happens inside it.
ghost use Rattle.std.specs.Prelude.{IfOk};
ghost use Rattle.trace_relations.specs.Relations.{plain};
ghost use Rattle.trace_stages.specs.Holdings.{AreHeld, held_by};
ghost use Rattle.trace_stages.specs.KeptWalk.{Holds};

use crate::places::interval_at;
use crate::walk::called::{Called, all_called, called_at};
use crate::walk::event::Event;
use crate::walk::events::{all_events, events_at};
use crate::walk::holding::Holding;
use crate::walk::moments::moments;
use crate::walk::walking::{look, walk, with_answers};
use std::alloc::{AllocError, Global};
use trace_relations::{Interval, Relations};

/// What a span has after its events, at its end, and would have had with the answers of what it had called.
fn held_by(
    alloc: Global,
    interval: Interval,
    span: usize,
    events: &[Event],
    called: &[Called],
) -> Result<Holding, AllocError>
    ensures { IfOk result (λ holding. Holds holding (held_by interval span events.now called.now)) }
{
    let walked = walk(alloc, span, interval.start, events)?;
    if interval.end.is_none() {
        return Ok(walked);
    }
    let held = look(alloc, span, walked)?;
    with_answers(alloc, span, held, called)
}

/// What each span has.
pub(crate) fn holdings_of(alloc: Global, relations: &Relations) -> Result<Vec<Holding>, AllocError>
    ensures { IfOk result (λ holdings. AreHeld (plain relations.now) holdings.items) }
{
    let count = relations.intervals.len();
    let moments = moments(alloc, &relations.intervals)?;
    let events = all_events(alloc, count, relations, &moments)?;
    let called = all_called(alloc, relations, &moments)?;
    let mut holdings = Vec::with_capacity(alloc, count)?;
    for span in 0..count {
        let interval = interval_at(&relations.intervals, span);
        let holding = held_by(
            alloc,
            interval,
            span,
            events_at(&events, span),
            called_at(&called, span),
        )?;
        holdings.push(holding)?;
    }
    Ok(holdings)
}
