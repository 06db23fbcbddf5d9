//! With which exceptions spans fail.
ghost use Rattle.std.specs.Prelude.{◌≡◌, ℕ, IfOk};
ghost use Rattle.trace_stages.specs.EndOutcomes.{end_outcome, own_sight};
ghost use Rattle.trace_stages.specs.Failures.{action_of, failure, failure_at_end, failures_by, given, last_step, thrown};
ghost use Rattle.trace_stages.specs.Known.{plain_known};
ghost use Rattle.trace_stages.specs.Outcomes.{failing, plain_sight};

use crate::fates::{Fate, fate_at};
use crate::handed_on::thrower;
use crate::known::{Known, gave_up, has_at, has_ended, has_two, joins_at};
use crate::outcomes::{Failures, Outcome, Sight, failure_at, join_outcomes, outcome_of};
use crate::stage::{Action, Exception, Op};
use crate::tour::Visit;
use std::alloc::{AllocError, Global};
use std::collections::HashMap;

/// What the last stage of a span does after its source, and with which exception it then fails.
#[derive(Clone, Copy, PartialEq, Eq, Debug)]
pub(crate) struct LastStep {
    pub op: Op,
    pub action: Action,
    pub failure: Option<Exception>,
}

/// The exception that a span throws by itself.
pub(crate) fn thrown(fate: Fate) -> Option<Exception>
    ensures { result ≡ thrown fate }
{
    match fate {
        Fate::Succeeded => None,
        Fate::Failed => Some(Exception::SpanFailed),
        Fate::Threw(exception) => Some(exception),
    }
}

/// The action that throws an exception, if there is one.
pub(crate) fn action_of(own: Option<Exception>) -> Action
    ensures { result ≡ action_of own }
{
    match own {
        Some(exception) => Action::Throws(exception),
        None => Action::Null,
    }
}

/// What the last stage of a span does after a source.
pub(crate) fn last_step(failure: Option<Exception>, fate: Fate) -> LastStep
    ensures { result ≡ last_step failure fate }
{
    let Some(failed) = failure else {
        return LastStep {
            op: Op::ThenRun,
            action: action_of(thrown(fate)),
            failure: thrown(fate),
        };
    };
    match fate {
        Fate::Succeeded => LastStep {
            op: Op::Handle,
            action: Action::Null,
            failure: None,
        },
        Fate::Threw(exception) if exception != failed => {
            LastStep {
                op: Op::Handle,
                action: Action::ThrowsIfFailed(exception),
                failure: Some(exception),
            }
        }
        _ => LastStep {
            op: Op::WhenComplete,
            action: Action::Null,
            failure: Some(failed),
        },
    }
}

/// What is known of stages while the joins of spans aren't.
pub(crate) fn own_sight<'a, 'k>(known: &'a Known<'k>, failures: &'a Failures) -> Sight<'a, 'k>
    ensures { plain_sight result ≡ own_sight (plain_known known.now) (failing failures.now) }
{
    Sight {
        known,
        failures,
        joins: &[],
    }
}

/// How that ends what a span has at its end.
pub(crate) fn end_outcome(
    alloc: Global,
    known: &Known<'_>,
    failures: &Failures,
    place: usize,
) -> Result<Outcome, AllocError>
    ensures { IfOk result (λ outcome. outcome ≡ end_outcome (plain_known known.now) (failing failures.now) place) }
{
    let sight = own_sight(known, failures);
    let joins = joins_at(&known.holdings, place);
    let own = join_outcomes(alloc, sight, joins)?;
    Ok(outcome_of(sight, &own, has_at(&known.holdings, place)))
}

/// With which exception a span is given what it has at its end: that of a child where it hands that on.
fn given(
    known: &Known<'_>,
    failures: &Failures,
    place: usize,
    outcome: Outcome,
) -> Option<Exception>
    ensures { result ≡ given (plain_known known.now) (failing failures.now) place outcome.failure }
{
    if let Some(failed) = outcome.failure {
        return Some(failed);
    }
    match thrower(known, failures, place) {
        Some(child) => failure_at(failures, child),
        None => None,
    }
}

/// With which exception the last stage of a span fails, of those that have ended.
fn failure_at_end(
    alloc: Global,
    known: &Known<'_>,
    failures: &Failures,
    place: usize,
) -> Result<Option<Exception>, AllocError>
    ensures { IfOk result (λ exception. exception ≡ failure_at_end (plain_known known.now) (failing failures.now) place) }
{
    let fate = fate_at(&known.fates, place);
    if gave_up(known, place) || !has_two(known, place) {
        return Ok(thrown(fate));
    }
    let outcome = end_outcome(alloc, known, failures, place)?;
    let given = given(known, failures, place, outcome);
    Ok(last_step(given, fate).failure)
}

/// With which exception the last stage of a span fails.
fn failure(
    alloc: Global,
    known: &Known<'_>,
    failures: &Failures,
    place: usize,
) -> Result<Option<Exception>, AllocError>
    ensures { IfOk result (λ exception. exception ≡ failure (plain_known known.now) (failing failures.now) place) }
{
    if has_ended(&known.relations.intervals, place) {
        failure_at_end(alloc, known, failures, place)
    } else {
        Ok(None)
    }
}

/// With which exceptions the last stages of spans fail, children before their parents.
pub(crate) fn failures_of(
    alloc: Global,
    known: &Known<'_>,
    visits: &[Visit],
) -> Result<Failures, AllocError>
    ensures { IfOk result (λ failures. (place : ℕ) → failing failures place ≡ failures_by (plain_known known.now) visits.now place) }
{
    let mut failures = HashMap::with_capacity(alloc, visits.len() / 2)?;
    for visit in visits {
        if let Visit::Leaves(place) = visit {
            let exception = failure(alloc, known, &failures, *place)?;
            failures.insert(*place, exception)?;
        }
    }
    Ok(failures)
}
