//! What a report says of a stage.
ghost use Rattle.std.specs.Prelude.{◌≡◌};
ghost use Rattle.report_rows.specs.declared.row.Row.TheVariants as a_row;
ghost use Rattle.report_rows.specs.Names.{name_at};
ghost use Rattle.report_rows.specs.Standings.{standing_at, standing_there};
ghost use Rattle.report_rows.specs.Rows.{change_against_row, change_row, difference_row, end_row, rescue_row, shift_row, slack_row, state_row, step_row, times_row, trial_row};

use crate::against::is_changed;
use crate::because::Because;
use crate::end::{delay_in, end_at, end_text};
use crate::in_run::InRun;
use crate::names::LentNames;
use crate::shift::Shift;
use crate::standing::KeptStanding;
use crate::text::Text;
use crate::trial_outcome::TrialOutcome;
use crate::tried_change::{TriedChange, tried_change};
use act_expr::Value;
use propagate::StateRepresentation;
use reply_rescue::Rescue;
use run_comparison::{Difference, Stands};
use stage_ends::{EndFate, Fate};
use stage_graph::{Graph, Op, Representation, Stage};
use stage_slack::Slack;
use time_sweep::Trial;
use version_store::{StageView, Version};

/// What a report says of a stage.
#[derive(Drop)]
pub enum Row<'a> {
    /// Its operation, its rank, and what it is.
    State {
        name: Text<'a>,
        op: Op,
        rank: u32,
        standing: KeptStanding<'a>,
    },
    /// When its action started, and how long it was queued and ran.
    Times {
        name: Text<'a>,
        start: Option<u64>,
        queued: u64,
        runs: u64,
    },
    /// When it completed, how long its own action was queued and ran since its cause, and the cause.
    Step {
        name: Text<'a>,
        moment: Option<u64>,
        queued: u64,
        ran: u64,
        because: Because<'a>,
    },
    /// What it is in another version, and what it is here.
    Change {
        name: Text<'a>,
        old: KeptStanding<'a>,
        new: KeptStanding<'a>,
    },
    /// How much later or earlier than in another version it completes.
    Shift {
        name: Text<'a>,
        shift: Shift,
    },
    /// One of its ends: its kind, by its name in recordings, the delay of a timeout, the tick at which it acts, and what became
    /// of it.
    End {
        name: Text<'a>,
        kind: Text<'a>,
        delay: Option<u64>,
        moment: u64,
        fate: Fate,
    },
    /// It failed by an exception that arose in it: what it came to, the stages that hold the exception on its account, and
    /// those that have read one of these and don't fail by it.
    Failure {
        name: Text<'a>,
        standing: KeptStanding<'a>,
        reaches: LentNames<'a>,
        handled: LentNames<'a>,
    },
    /// What another stage would come to, and how much sooner, if the action of this one took no time.
    Trial {
        name: Text<'a>,
        sooner: u64,
        outcome: TrialOutcome<'a>,
        moment: u64,
    },
    /// How many ticks longer its action may run before another stage completes otherwise, and when the action started.
    Slack {
        name: Text<'a>,
        slack: Option<u64>,
        start: u64,
    },
    /// A change of it by which another stage would have had a value, which value, and when.
    Rescue {
        name: Text<'a>,
        change: TriedChange<'a>,
        value: Value,
        moment: u64,
    },
    /// What it is in a good run and in a bad one.
    Differs {
        name: Text<'a>,
        good: InRun<'a>,
        bad: InRun<'a>,
    },
    /// What it is in the good run, while the bad one has no such stage.
    OnlyInGood {
        name: Text<'a>,
        good: InRun<'a>,
    },
    /// What it is in the bad run, while the good one has no such stage.
    OnlyInBad {
        name: Text<'a>,
        bad: InRun<'a>,
    },
}

/// Its operation, its rank, and what it is.
#[inline(always)]
pub(crate) fn state_row<'a, R: StateRepresentation>(view: &StageView<'a, R>) -> Row<'a>
    ensures { result ≡ state_row view.now.version.now.graph view.now.place view.now.stage.now }
{
    Row::State {
        name: Text::new(view.stage.name.as_str()),
        op: view.stage.op,
        rank: view.rank(),
        standing: KeptStanding::of(view),
    }
}

/// When its action started, and how long it was queued and ran.
#[inline(always)]
pub(crate) fn times_row<'a, R: StateRepresentation>(view: &StageView<'a, R>) -> Row<'a>
    ensures { result ≡ times_row view.now.version.now.graph view.now.place view.now.stage.now }
{
    Row::Times {
        name: Text::new(view.stage.name.as_str()),
        start: view.start(),
        queued: view.stage.queued,
        runs: view.stage.runs,
    }
}

/// Why it completed when it did, or why it is pending.
#[inline(always)]
pub(crate) fn step_row<'a, R: StateRepresentation>(view: &StageView<'a, R>) -> Row<'a>
    ensures { result ≡ step_row view.now.version.now.graph view.now.place view.now.stage.now }
{
    let reason = view.reason();
    Row::Step {
        name: Text::new(view.stage.name.as_str()),
        moment: view.moment(),
        queued: reason.queued,
        ran: reason.ran,
        because: Because::of(view.version.graph(), view.stage, reason.cause),
    }
}

/// What it was in the parent, and what it is here.
#[inline(always)]
pub(crate) fn change_row<'a, R: StateRepresentation>(view: &StageView<'a, R>) -> Row<'a>
    ensures { result ≡ change_row view.now.version.now view.now.place view.now.stage.now }
{
    Row::Change {
        name: Text::new(view.stage.name.as_str()),
        old: KeptStanding::before(view),
        new: KeptStanding::of(view),
    }
}

/// How much later or earlier it completes, where it does at another moment.
#[inline(always)]
pub(crate) fn shift_row(stage: &Stage, shift: Option<Shift>) -> Option<Row<'_>>
    ensures { result ≡ shift_row stage.now shift }
{
    match shift {
        Some(shift) => Some(Row::Shift {
            name: Text::new(stage.name.as_str()),
            shift,
        }),
        None => None,
    }
}

/// What it is in another version and here, unless it is as the one of its name there.
#[inline(always)]
pub(crate) fn change_against_row<'a, R: StateRepresentation>(
    view: &StageView<'a, R>,
    against: &'a Version<R>,
) -> Option<Row<'a>>
    ensures { result ≡ change_against_row view.now.version.now against.now view.now.place view.now.stage.now }
{
    if is_changed(view, against) {
        Some(against_row(view, against))
    } else {
        None
    }
}

// What it is in another version and here.
#[inline(always)]
fn against_row<'a, R: StateRepresentation>(
    view: &StageView<'a, R>,
    against: &'a Version<R>,
) -> Row<'a>
    ensures { result ≡ a_row.Change view.now.stage.now.name (standing_there against.now.graph view.now.stage.now.name) (standing_at view.now.version.now.graph view.now.place) }
{
    let name = view.stage.name.as_str();
    Row::Change {
        name: Text::new(name),
        old: KeptStanding::there(against, name),
        new: KeptStanding::of(view),
    }
}

/// What became of an end.
#[inline(always)]
pub(crate) fn end_row<'a, R: Representation>(graph: &'a Graph<R>, one: &EndFate) -> Row<'a>
    ensures { result ≡ end_row graph.now one.now }
{
    let end = end_at(graph, one.place, one.index);
    Row::End {
        name: Text::new(graph.name_of(one.place)),
        kind: Text::new(end_text(end)),
        delay: delay_in(end),
        moment: one.moment,
        fate: one.fate,
    }
}

/// A trial of a stage that completes at this tick.
#[inline(always)]
pub(crate) fn trial_row<'a, R: Representation>(
    graph: &'a Graph<R>,
    tick: u64,
    trial: &'a Trial,
) -> Row<'a>
    ensures { result ≡ trial_row graph.now tick trial.now }
{
    Row::Trial {
        name: Text::new(graph.name_of(trial.place)),
        sooner: tick.saturating_sub(trial.moment),
        outcome: TrialOutcome::new(&trial.outcome),
        moment: trial.moment,
    }
}

/// How much longer the action of a stage may run.
#[inline(always)]
pub(crate) fn slack_row<'a, R: Representation>(graph: &'a Graph<R>, slack: &Slack) -> Row<'a>
    ensures { result ≡ slack_row graph.now slack.now }
{
    Row::Slack {
        name: Text::new(graph.name_of(slack.place)),
        slack: slack.ticks,
        start: slack.start,
    }
}

/// A change of a stage by which another one would have had a value.
#[inline(always)]
pub(crate) fn rescue_row<'a, R: Representation>(graph: &'a Graph<R>, rescue: &Rescue) -> Row<'a>
    ensures { result ≡ rescue_row graph.now rescue.now }
{
    Row::Rescue {
        name: Text::new(graph.name_of(rescue.place)),
        change: tried_change(graph, rescue.place, rescue.change),
        value: rescue.value,
        moment: rescue.moment,
    }
}

/// The name of the stage at a place of a version.
#[inline(always)]
pub(crate) fn name_in<'a, R: StateRepresentation>(version: &'a Version<R>, place: u32) -> Text<'a>
    ensures { result ≡ name_at version.now.graph place }
{
    Text::new(version.graph().name_of(place))
}

/// A stage in which a good run and a bad one differ, or on which one of them has waited.
#[inline(always)]
pub(crate) fn difference_row<'a, R: StateRepresentation>(
    good: &'a Version<R>,
    bad: &'a Version<R>,
    one: &Difference,
) -> Row<'a>
    ensures { result ≡ difference_row good.now.graph bad.now.graph one.now }
{
    match one.stands {
        Stands::Both {
            good: there,
            bad: here,
        } => Row::Differs {
            name: name_in(bad, here),
            good: InRun::at(good, there),
            bad: InRun::at(bad, here),
        },
        Stands::OnlyBad(here) => Row::OnlyInBad {
            name: name_in(bad, here),
            bad: InRun::at(bad, here),
        },
        Stands::OnlyGood(there) => Row::OnlyInGood {
            name: name_in(good, there),
            good: InRun::at(good, there),
        },
    }
}
