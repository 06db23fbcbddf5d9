//! How stages end.
ghost use Rattle.std.specs.Prelude.{◌≡◌, IfOk, map};
ghost use Rattle.trace_stages.specs.Known.{plain_known};
ghost use Rattle.trace_stages.specs.Outcomes.{end_of, failing, failure_of, join_outcome, join_outcomes, outcome_at, outcome_of, outcomes_among, plain_outcomes, plain_sight, with_failure, work_outcome};
ghost use Rattle.trace_stages.specs.PlainJoins.{plain_joins};

use crate::attempts::last_attempt;
use crate::known::{Known, works_at};
use crate::places::interval_at;
use crate::stage::Exception;
use crate::walk::StageId;
use std::alloc::{AllocError, Global};
use std::collections::HashMap;

/// How a stage ends: at which tick, and with which exception if it fails.
#[derive(Clone, Copy, PartialEq, Eq, Debug)]
pub struct Outcome {
    pub tick: u64,
    pub failure: Option<Exception>,
}

/// With which exceptions the last stages of spans fail.
pub(crate) type Failures = HashMap<usize, Option<Exception>>;

/// What is known of stages: the joins of a span that aren't among those known are its own.
#[derive(Clone, Copy)]
pub(crate) struct Sight<'a, 'k> {
    pub known: &'a Known<'k>,
    pub failures: &'a Failures,
    /// How the joins of each span end.
    pub joins: &'a [Vec<Outcome>],
}

/// With which exception the last stage of a span fails.
pub(crate) fn failure_at(failures: &Failures, place: usize) -> Option<Exception>
    ensures { result ≡ failing failures.now place }
{
    match failures.get(&place) {
        Some(failure) => *failure,
        None => None,
    }
}

/// One of outcomes, by its number.
pub(crate) fn outcome_at(outcomes: &[Outcome], number: usize) -> Outcome
    ensures { result ≡ outcome_at outcomes.now number }
{
    match outcomes.get(number) {
        Some(outcome) => *outcome,
        None => Outcome {
            tick: 0,
            failure: None,
        },
    }
}

/// How a join of a span ends.
fn outcome_of_join(all: &[Vec<Outcome>], own: &[Outcome], span: usize, number: usize) -> Outcome
    ensures { result ≡ outcome_at (outcomes_among (plain_outcomes all.now) own.now span) number }
{
    match all.get(span) {
        Some(outcomes) => outcome_at(outcomes, number),
        None => outcome_at(own, number),
    }
}

/// How own work of a span ends.
fn work_outcome(known: &Known<'_>, span: usize, number: usize) -> Outcome
    ensures { result ≡ work_outcome (plain_known known.now) span number }
{
    match works_at(&known.holdings, span).get(number) {
        Some(work) => Outcome {
            tick: work.until,
            failure: None,
        },
        None => Outcome {
            tick: 0,
            failure: None,
        },
    }
}

/// How the last stage of a span ends.
fn end_of(sight: Sight<'_, '_>, place: usize) -> Outcome
    ensures { result ≡ end_of (plain_sight sight.entry) place }
{
    Outcome {
        tick: interval_at(&sight.known.relations.intervals, place)
            .end
            .unwrap_or(0),
        failure: failure_at(sight.failures, place),
    }
}

/// How a stage ends, where some joins end so: what was tried again as the last attempt.
pub(crate) fn outcome_of(sight: Sight<'_, '_>, own: &[Outcome], id: StageId) -> Outcome
    ensures { result ≡ outcome_of (plain_sight sight.entry) own.now id }
{
    match id {
        StageId::Start(place) => Outcome {
            tick: interval_at(&sight.known.relations.intervals, place).start,
            failure: None,
        },
        StageId::Whole(place) => end_of(sight, place),
        StageId::Limit(place) => end_of(sight, place),
        StageId::Answer(place) => end_of(sight, place),
        StageId::Tried(place) => {
            end_of(sight, last_attempt(&sight.known.relations.attempts, place))
        },
        StageId::Work(span, number) => work_outcome(sight.known, span, number),
        StageId::Entry(_, number) => outcome_at(own, number),
        StageId::Join(span, number) => outcome_of_join(sight.joins, own, span, number),
    }
}

/// The earlier of two that failed; of those at one tick, the first.
fn with_failure(failed: Option<Outcome>, source: Outcome) -> Option<Outcome>
    ensures { result ≡ with_failure failed source }
{
    if source.failure.is_none() {
        return failed;
    }
    match failed {
        Some(first) if first.tick <= source.tick => Some(first),
        _ => Some(source),
    }
}

/// The exception of the one that failed.
fn failure_of(failed: Option<Outcome>) -> Option<Exception>
    ensures { result ≡ failure_of failed }
{
    match failed {
        Some(first) => first.failure,
        None => None,
    }
}

/// How a join of sources ends.
pub(crate) fn join_outcome(sight: Sight<'_, '_>, own: &[Outcome], sources: &[StageId]) -> Outcome
    ensures { result ≡ join_outcome (map (outcome_of (plain_sight sight.entry) own.now) sources.now) }
{
    let mut tick = 0;
    let mut failed = None;
    for source in sources {
        let outcome = outcome_of(sight, own, *source);
        tick = tick.max(outcome.tick);
        failed = with_failure(failed, outcome);
    }
    Outcome {
        tick,
        failure: failure_of(failed),
    }
}

/// For how many outcomes room is made: those of joins, and that of the one by which a failure is handed on.
fn outcome_room(joins: &[Vec<StageId>]) -> usize {
    if joins.is_empty() {
        0
    } else {
        joins.len().saturating_add(1)
    }
}

/// How joins end, one after another.
pub(crate) fn join_outcomes(
    alloc: Global,
    sight: Sight<'_, '_>,
    joins: &[Vec<StageId>],
) -> Result<Vec<Outcome>, AllocError>
    ensures { IfOk result (λ outcomes. outcomes.items ≡ join_outcomes (plain_sight sight.entry) (plain_joins joins.now)) }
{
    let mut outcomes = Vec::with_capacity(alloc, outcome_room(joins))?;
    for sources in joins {
        let outcome = join_outcome(sight, &outcomes, sources);
        outcomes.push(outcome)?;
    }
    Ok(outcomes)
}
