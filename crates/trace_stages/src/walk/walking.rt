//! The walk through a span by its events.
ghost use Rattle.std.specs.Prelude.{◌≡◌, ◌≢◌, ℕ, ◌++◌, [], ◌∷◌, IfOk, OnOk, fold, if◌then◌else◌, true};
ghost use Rattle.trace_stages.specs.Held.{PlainHolding, looked, opening};
ghost use Rattle.trace_stages.specs.KeptWalk.{Holds};
ghost use Rattle.trace_stages.specs.OwnWork.{with_work, worked};
ghost use Rattle.trace_stages.specs.Walk.{after, answered, begun_by, earlier_start, ended_by, first_start, some_open, walked, with_answer, with_called};

use crate::walk::called::Called;
use crate::walk::event::Event;
use crate::walk::holding::{Answer, Begin, Holding, OwnWork};
use crate::walk::joins::{Joined, JoinsOf, join_all};
use crate::walk::known::{forget, knows, learn, none_known};
use crate::walk::stage_id::StageId;
use std::alloc::{AllocError, Global};
use std::mem;

/// What a span has first that starts at a tick.
fn opening(alloc: Global, span: usize, start: u64) -> Holding
    ensures { Holds result (opening span start) }
{
    Holding {
        has: StageId::Start(span),
        reached: start,
        ended: Vec::new(alloc),
        begun: none_known(alloc),
        is_used: false,
        joins: Vec::new(alloc),
        works: Vec::new(alloc),
        begins: Vec::new(alloc),
        answer: None,
    }
}

/// What has ended, and what a span had too unless one of them began from that.
fn sources_of(
    alloc: Global,
    has: StageId,
    is_used: bool,
    ended: &[StageId],
) -> Result<Vec<StageId>, AllocError>
    ensures { IfOk result (λ sources. sources.items ≡ (if is_used then [] else has ∷ []) ++ ended.now) }
{
    let mut sources = Vec::with_capacity(alloc, ended.len().saturating_add(1))?;
    if !is_used {
        sources.push(has)?;
    }
    for stage in ended {
        sources.push(*stage)?;
    }
    Ok(sources)
}

/// What a span has now where only one has ended since the last look, which began from what the span had: the end of it.
fn look_at_one(alloc: Global, holding: &mut Holding, only: StageId)
    requires one { holding.old.ended.items ≡ only ∷ [] }
    requires used { holding.old.is_used ≡ true }
    ensures { (span : ℕ) (plain : PlainHolding) → Holds holding.old plain → Holds holding.new (looked span plain) }
{
    holding.has = only;
    holding.ended.clear();
    forget(alloc, &mut holding.begun);
    holding.is_used = false;
}

/// What a span has now where spans have ended since the last look.
fn look_at_some(alloc: Global, span: usize, holding: &mut Holding) -> Result<(), AllocError>
    requires { holding.old.ended.items ≢ [] }
    ensures { (plain : PlainHolding) → Holds holding.old plain → OnOk result (Holds holding.new (looked span plain)) }
{
    let sources = sources_of(alloc, holding.has, holding.is_used, &holding.ended)?;
    let before = mem::replace(&mut holding.joins, Vec::new(alloc));
    let Joined { joins, stage } = join_all(alloc, JoinsOf::Holding(span), before, &sources)?;
    holding.has = stage.unwrap_or(holding.has);
    holding.ended.clear();
    forget(alloc, &mut holding.begun);
    holding.is_used = false;
    holding.joins = joins;
    Ok(())
}

/// What a span has now, in the place of what it had: where spans have ended since the last look, it has these.
///
/// Where calls come one after another, one has ended that began from what the span had: nothing is gathered for it.
fn look_again(alloc: Global, span: usize, holding: &mut Holding) -> Result<(), AllocError>
    ensures { (plain : PlainHolding) → Holds holding.old plain → OnOk result (Holds holding.new (looked span plain)) }
{
    match holding.ended.as_slice() {
        [] => Ok(()),
        [only] if holding.is_used => {
            let only = *only;
            look_at_one(alloc, holding, only);
            Ok(())
        }
        _ => look_at_some(alloc, span, holding),
    }
}

/// What a span has now: where spans have ended since the last look, it has these.
pub(crate) fn look(alloc: Global, span: usize, holding: Holding) -> Result<Holding, AllocError>
    ensures { (plain : PlainHolding) → Holds holding plain → IfOk result (λ now. Holds now (looked span plain)) }
{
    let mut holding = holding;
    look_again(alloc, span, &mut holding)?;
    Ok(holding)
}

/// A span has its own work, from what it had until a tick.
fn put_work(alloc: Global, span: usize, holding: &mut Holding, tick: u64) -> Result<(), AllocError>
    ensures { (plain : PlainHolding) → Holds holding.old plain → OnOk result (Holds holding.new (with_work span plain tick)) }
{
    let number = holding.works.len();
    holding.works.push(OwnWork {
        after: holding.has,
        until: tick,
    })?;
    holding.has = StageId::Work(span, number);
    holding.reached = tick;
    forget(alloc, &mut holding.begun);
    Ok(())
}

/// Where a span has nothing at a tick that ended then, it has worked since.
fn work(alloc: Global, span: usize, holding: &mut Holding, tick: u64) -> Result<(), AllocError>
    ensures { (plain : PlainHolding) → Holds holding.old plain → OnOk result (Holds holding.new (worked span plain tick)) }
{
    if tick <= holding.reached {
        return Ok(());
    }
    put_work(alloc, span, holding, tick)?;
    Ok(())
}

/// A span starts: it begins from what is there.
fn begin(holding: &mut Holding, place: usize) -> Result<(), AllocError>
    ensures { (plain : PlainHolding) → Holds holding.old plain → OnOk result (Holds holding.new (begun_by place plain)) }
{
    learn(&mut holding.begun, place)?;
    let from = holding.has;
    holding.begins.push(Begin { span: place, from })?;
    Ok(())
}

/// What is waited for ends: the call that began with a span, for which a stage stands.
fn end(holding: &mut Holding, place: usize, stage: StageId, tick: u64) -> Result<(), AllocError>
    ensures { (plain : PlainHolding) → Holds holding.old plain → OnOk result (Holds holding.new (ended_by place stage tick plain)) }
{
    if knows(&holding.begun, place) {
        holding.is_used = true;
    }
    holding.ended.push(stage)?;
    holding.reached = holding.reached.max(tick);
    Ok(())
}

/// What a span has after an event.
fn after(alloc: Global, span: usize, holding: &mut Holding, event: Event) -> Result<(), AllocError>
    ensures { (plain : PlainHolding) → Holds holding.old plain → OnOk result (Holds holding.new (after span plain event)) }
{
    match event {
        Event::Starts { span: place, tick } => {
            look_again(alloc, span, holding)?;
            work(alloc, span, holding, tick)?;
            begin(holding, place)
        }
        Event::Ends {
            span: place,
            stage,
            tick,
        } => end(holding, place, stage, tick),
    }
}

/// What a span that starts at a tick has after its events, in their order.
///
/// It is changed in its place: an event changes little of it, and it is too large to be handed on at each.
pub(crate) fn walk(
    alloc: Global,
    span: usize,
    start: u64,
    events: &[Event],
) -> Result<Holding, AllocError>
    ensures { IfOk result (λ holding. Holds holding (walked span start events.now)) }
{
    let mut holding = opening(alloc, span, start);
    for event in events {
        after(alloc, span, &mut holding, *event)?;
    }
    Ok(holding)
}

/// Lets calls that a span gave up end, as if it had waited for them.
fn end_called(holding: &mut Holding, called: &[Called]) -> Result<(), AllocError>
    ensures { (plain : PlainHolding) → Holds holding.old plain → OnOk result (Holds holding.new (with_called plain called.now)) }
{
    for call in called {
        end(holding, call.span, call.stage, 0)?;
    }
    Ok(())
}

/// The earliest of a tick and of those at which calls started.
fn earliest_start(start: u64, calls: &[Called]) -> u64
    ensures { result ≡ fold earlier_start start calls.now }
{
    let mut since = start;
    for call in calls {
        since = since.min(call.start);
    }
    since
}

/// The tick at which the first of calls started.
fn first_start(called: &[Called]) -> u64
    ensures { result ≡ first_start called.now }
{
    match called {
        [] => 0,
        [first, others @ ..] => earliest_start(first.start, others),
    }
}

/// Whether one of calls has not ended.
fn some_open(called: &[Called]) -> bool
    ensures { result ≡ some_open called.now }
{
    called.iter().any(|call| call.is_open)
}

/// What a span would have had with the answers of calls.
fn answer(
    alloc: Global,
    span: usize,
    held: &mut Holding,
    called: &[Called],
) -> Result<(), AllocError>
    ensures { (plain : PlainHolding) → Holds held.old plain → OnOk result (Holds held.new (with_answer plain (looked span (with_called plain called.now)) (first_start called.now) (some_open called.now))) }
{
    let has = held.has;
    end_called(held, called)?;
    look_again(alloc, span, held)?;
    held.answer = Some(Answer {
        stage: held.has,
        since: first_start(called),
        is_open: some_open(called),
    });
    held.has = has;
    Ok(())
}

/// What a span that gave calls up would have had with their answers, beside what it has at its end.
pub(crate) fn with_answers(
    alloc: Global,
    span: usize,
    holding: Holding,
    called: &[Called],
) -> Result<Holding, AllocError>
    ensures { (plain : PlainHolding) → Holds holding plain → IfOk result (λ now. Holds now (answered span called.now plain)) }
{
    if called.is_empty() {
        return Ok(holding);
    }
    let mut held = holding;
    answer(alloc, span, &mut held, called)?;
    Ok(held)
}
