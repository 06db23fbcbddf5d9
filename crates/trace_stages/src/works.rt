//! What stages of spans wait for and do.
ghost use Rattle.std.specs.Prelude.{◌≡◌};
ghost use Rattle.trace_stages.specs.Scene.{plain_scene};
ghost use Rattle.trace_stages.specs.Works.{after_source, answer_tick, answer_work, at_end, begin_from, begin_work, last_work, limit_work, manual, own_work, whole_work};

use crate::failures::{action_of, last_step, thrown};
use crate::fates::fate_at;
use crate::known::{answer_at, has_at, has_ended, has_two, joins_at, works_at};
use crate::outcomes::{Outcome, outcome_of};
use crate::places::interval_at;
use crate::scene::{Scene, entry_stage, handed_at, outcomes_at, whole_sight};
use crate::stage::{Action, Op};
use crate::walk::{Answer, StageId};

/// What a stage waits for and does that has one source at most.
#[derive(Clone, Copy, PartialEq, Eq, Debug)]
pub(crate) struct Work {
    pub op: Op,
    pub created: u64,
    pub source: Option<StageId>,
    pub queued: u64,
    pub runs: u64,
    pub action: Option<Action>,
}

/// A stage that nobody completes.
fn manual(created: u64) -> Work
    ensures { result ≡ manual created }
{
    Work {
        op: Op::Manual,
        created,
        source: None,
        queued: 0,
        runs: 0,
        action: None,
    }
}

/// A stage that starts at a tick after a source that ends so.
fn after_source(start: u64, source: StageId, outcome: Outcome, runs: u64, action: Action) -> Work
    ensures { result ≡ after_source start source outcome runs action }
{
    Work {
        op: if outcome.failure.is_some() {
            Op::Handle
        } else {
            Op::ThenRun
        },
        created: 0,
        source: Some(source),
        queued: start.saturating_sub(outcome.tick),
        runs,
        action: Some(action),
    }
}

/// The first stage of a span, which begins from a stage or from nothing.
fn begin_from(
    scene: &Scene<'_>,
    place: usize,
    runs: u64,
    action: Action,
    source: Option<StageId>,
) -> Work
    ensures { result ≡ begin_from (plain_scene scene.now) place runs action source }
{
    let start = interval_at(&scene.known.relations.intervals, place).start;
    match source {
        Some(source) => {
            let sight = whole_sight(&scene.known, &scene.failures, &scene.outcomes);
            let own = outcomes_at(&scene.entry_outcomes, place);
            after_source(start, source, outcome_of(sight, own, source), runs, action)
        }
        None => Work {
            op: Op::Async,
            created: start,
            source: None,
            queued: 0,
            runs,
            action: Some(action),
        },
    }
}

/// The first stage of a span: its action ends so many ticks after the start.
pub(crate) fn begin_work(scene: &Scene<'_>, place: usize, runs: u64, action: Action) -> Work
    ensures { result ≡ begin_work (plain_scene scene.now) place runs action }
{
    let source = entry_stage(&scene.entries, place);
    begin_from(scene, place, runs, action, source)
}

/// Own work of a span, after what it had until then.
pub(crate) fn own_work(scene: &Scene<'_>, span: usize, number: usize) -> Work
    ensures { result ≡ own_work (plain_scene scene.now) span number }
{
    let Some(work) = works_at(&scene.known.holdings, span).get(number) else {
        return manual(0);
    };
    let sight = whole_sight(&scene.known, &scene.failures, &scene.outcomes);
    let outcome = outcome_of(sight, &[], work.after);
    let runs = work.until.saturating_sub(outcome.tick);
    after_source(outcome.tick, work.after, outcome, runs, Action::Null)
}

/// What a span has at its end, with the call whose failure it hands on.
fn at_end(scene: &Scene<'_>, place: usize) -> StageId
    ensures { result ≡ at_end (plain_scene scene.now) place }
{
    if handed_at(&scene.handed, place).is_empty() {
        has_at(&scene.known.holdings, place)
    } else {
        StageId::Join(place, joins_at(&scene.known.holdings, place).len())
    }
}

/// The last stage of a span that has two.
fn last_work(scene: &Scene<'_>, place: usize, end: u64) -> Work
    ensures { result ≡ last_work (plain_scene scene.now) place end }
{
    let source = at_end(scene, place);
    let sight = whole_sight(&scene.known, &scene.failures, &scene.outcomes);
    let outcome = outcome_of(sight, &[], source);
    let step = last_step(outcome.failure, fate_at(&scene.known.fates, place));
    Work {
        op: step.op,
        created: 0,
        source: Some(source),
        queued: 0,
        runs: end.saturating_sub(outcome.tick),
        action: Some(step.action),
    }
}

/// The tick of what a span would have had with answers: its own end where one of these is open, and nothing else ended.
fn answer_tick(answer: Answer, outcome: Outcome, end: u64) -> u64
    ensures { result ≡ answer_tick answer.is_open outcome end }
{
    if answer.is_open && outcome.tick == 0 {
        end
    } else {
        outcome.tick
    }
}

/// The end that a span which gave calls up would have had with their answers.
pub(crate) fn answer_work(scene: &Scene<'_>, place: usize) -> Work
    ensures { result ≡ answer_work (plain_scene scene.now) place }
{
    let interval = interval_at(&scene.known.relations.intervals, place);
    let Some(answer) = answer_at(&scene.known.holdings, place) else {
        return manual(0);
    };
    let Some(end) = interval.end else {
        return manual(0);
    };
    let sight = whole_sight(&scene.known, &scene.failures, &scene.outcomes);
    let outcome = outcome_of(sight, &[], answer.stage);
    let gap = answer.since.saturating_sub(interval.start);
    let left = end.saturating_sub(answer_tick(answer, outcome, end));
    Work {
        op: Op::WhenComplete,
        created: 0,
        source: Some(answer.stage),
        queued: 0,
        runs: gap.max(left),
        action: Some(Action::Null),
    }
}

/// The end of a span that gave calls up, by its limit.
pub(crate) fn limit_work(scene: &Scene<'_>, place: usize) -> Work
    ensures { result ≡ limit_work (plain_scene scene.now) place }
{
    let interval = interval_at(&scene.known.relations.intervals, place);
    Work {
        op: Op::ThenRun,
        created: 0,
        source: Some(StageId::Start(place)),
        queued: 0,
        runs: interval.end.unwrap_or(0).saturating_sub(interval.start),
        action: Some(action_of(thrown(fate_at(&scene.known.fates, place)))),
    }
}

/// The stage that ends when a span did, which gave no calls up.
pub(crate) fn whole_work(scene: &Scene<'_>, place: usize) -> Work
    ensures { result ≡ whole_work (plain_scene scene.now) place }
{
    let interval = interval_at(&scene.known.relations.intervals, place);
    let Some(end) = interval.end else {
        return manual(interval.start);
    };
    if has_two(&scene.known, place) {
        return last_work(scene, place, end);
    }
    let runs = end.saturating_sub(interval.start);
    let action = action_of(thrown(fate_at(&scene.known.fates, place)));
    begin_work(scene, place, runs, action)
}

/// The source of the stage that ends when a span did, with nothing else of what that stage does.
#[tactic(auto, using(crate::proofs::Sources::open_source, crate::proofs::Sources::two_source, crate::proofs::Sources::one_source))]
pub(crate) fn whole_source(scene: &Scene<'_>, place: usize) -> Option<StageId>
    ensures { result ≡ (whole_work (plain_scene scene.now) place).source }
{
    if !has_ended(&scene.known.relations.intervals, place) {
        return None;
    }
    if has_two(&scene.known, place) {
        Some(at_end(scene, place))
    } else {
        entry_stage(&scene.entries, place)
    }
}
