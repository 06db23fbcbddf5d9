//! Rows in a line.
ghost use Rattle.std.specs.Prelude.{OnOk};
ghost use Rattle.report_rows.specs.declared.row.Row.TheVariants as a_row;
ghost use Rattle.report_rows.specs.declared.shift.Shift.TheVariants.{Earlier, Later};
ghost use Rattle.report_json.specs.Json.{object};
ghost use Rattle.report_json.specs.Rows.{in_run_json, own_members, row_json, rows_json, shift_members};
ghost use Rattle.report_json.specs.Tokens.{Tells};

use crate::changes::push_tried;
use crate::line::Line;
use crate::line_values::push_outcome_member;
use crate::names::push_names_member;
use crate::stages::{
    push_because, push_exception, push_fate, push_moment, push_outcome, push_standing,
};
use act_expr::{Outcome, Value};
use propagate::StateRepresentation;
use report_rows::{
    Because, InRun, LentNames, Row, Rows, Shift, Standing, TriedChange, latest_start,
};
use stage_ends::Fate;
use stage_graph::Op;
use std::alloc::AllocError;

/// Adds a list of rows.
pub(crate) fn push_rows<R: StateRepresentation>(
    line: &mut Line,
    rows: &mut Rows<'_, R>,
) -> Result<(), AllocError>
    ensures { OnOk result (Tells (rows_json rows.old) line.old line.new) }
{
    line.begin_list()?;
    while let Some(row) = rows.next() {
        push_row(line, &row)?;
    }
    line.end_list()
}

#[inline(always)]
fn push_row(line: &mut Line, row: &Row<'_>) -> Result<(), AllocError>
    ensures { OnOk result (Tells (row_json row.now) line.old line.new) }
{
    match row {
        Row::State {
            name,
            op,
            rank,
            standing,
        } => push_state(line, name.as_str(), *op, *rank, &standing.standing()),
        Row::Times {
            name,
            start,
            queued,
            runs,
        } => push_times(line, name.as_str(), *start, *queued, *runs),
        Row::Step {
            name,
            moment,
            queued,
            ran,
            because,
        } => push_step(line, name.as_str(), *moment, *queued, *ran, because),
        Row::Change { name, old, new } => {
            push_change(line, name.as_str(), &old.standing(), &new.standing())
        }
        Row::Shift { name, shift } => push_shift(line, name.as_str(), *shift),
        Row::End {
            name,
            kind,
            delay,
            moment,
            fate,
        } => push_end(line, name.as_str(), kind.as_str(), *delay, *moment, *fate),
        Row::Failure {
            name,
            standing,
            reaches,
            handled,
        } => push_failed(line, name.as_str(), &standing.standing(), reaches, handled),
        Row::Trial {
            name,
            sooner,
            outcome,
            moment,
        } => push_trial(line, name.as_str(), *sooner, outcome.as_outcome(), *moment),
        Row::Slack { name, slack, start } => push_slack(line, name.as_str(), *slack, *start),
        Row::Rescue {
            name,
            change,
            value,
            moment,
        } => push_rescue(line, name.as_str(), change, *value, *moment),
        Row::Differs { name, good, bad } => push_differs(line, name.as_str(), good, bad),
        Row::OnlyInGood { name, good } => push_only_in_good(line, name.as_str(), good),
        Row::OnlyInBad { name, bad } => push_only_in_bad(line, name.as_str(), bad),
    }
}

// The stage with its operation, its rank, its outcome and its moment.
fn push_state(
    line: &mut Line,
    name: &str,
    op: Op,
    rank: u32,
    standing: &Standing,
) -> Result<(), AllocError>
    ensures { OnOk result (Tells (row_json (a_row.State name.now op rank standing.now)) line.old line.new) }
{
    let op = op.text();
    line.begin_object()?;
    push_moment(line, standing)?;
    line.text("name", name)?;
    line.text("op", op)?;
    push_outcome(line, standing)?;
    line.count("rank", u64::from(rank))?;
    line.end_object()
}

// The stage with when its action started, and how long it was queued and ran.
fn push_times(
    line: &mut Line,
    name: &str,
    start: Option<u64>,
    queued: u64,
    runs: u64,
) -> Result<(), AllocError>
    ensures { OnOk result (Tells (row_json (a_row.Times name.now start queued runs)) line.old line.new) }
{
    line.begin_object()?;
    line.text("name", name)?;
    line.count("queued", queued)?;
    line.count("runs", runs)?;
    line.optional_count("start", start)?;
    line.end_object()
}

// The stage with its moment, its own share of the time, and its cause.
fn push_step(
    line: &mut Line,
    name: &str,
    moment: Option<u64>,
    queued: u64,
    ran: u64,
    because: &Because<'_>,
) -> Result<(), AllocError>
    ensures { OnOk result (Tells (row_json (a_row.Step name.now moment queued ran because.now)) line.old line.new) }
{
    line.begin_object()?;
    line.name("cause")?;
    push_because(line, because)?;
    line.optional_count("moment", moment)?;
    line.text("name", name)?;
    line.count("queued", queued)?;
    line.count("ran", ran)?;
    line.end_object()
}

// What the stage is in another version, and what it is here.
fn push_change(
    line: &mut Line,
    name: &str,
    old: &Standing,
    new: &Standing,
) -> Result<(), AllocError>
    ensures { OnOk result (Tells (row_json (a_row.Change name.now old.now new.now)) line.old line.new) }
{
    line.begin_object()?;
    line.text("name", name)?;
    line.name("new")?;
    push_standing(line, new)?;
    line.name("old")?;
    push_standing(line, old)?;
    line.end_object()
}

// The stage completes so many ticks later.
fn push_later(line: &mut Line, name: &str, ticks: u64) -> Result<(), AllocError>
    ensures { OnOk result (Tells (object (shift_members name.now (Later ticks))) line.old line.new) }
{
    line.begin_object()?;
    line.count("later", ticks)?;
    line.text("name", name)?;
    line.end_object()
}

// The same, earlier.
fn push_earlier(line: &mut Line, name: &str, ticks: u64) -> Result<(), AllocError>
    ensures { OnOk result (Tells (object (shift_members name.now (Earlier ticks))) line.old line.new) }
{
    line.begin_object()?;
    line.count("earlier", ticks)?;
    line.text("name", name)?;
    line.end_object()
}

fn push_shift(line: &mut Line, name: &str, shift: Shift) -> Result<(), AllocError>
    ensures { OnOk result (Tells (row_json (a_row.Shift name.now shift)) line.old line.new) }
{
    match shift {
        Shift::Later(ticks) => push_later(line, name, ticks),
        Shift::Earlier(ticks) => push_earlier(line, name, ticks),
    }
}

// An end of the stage, and what became of it.
fn push_end(
    line: &mut Line,
    name: &str,
    kind: &str,
    delay: Option<u64>,
    moment: u64,
    fate: Fate,
) -> Result<(), AllocError>
    ensures { OnOk result (Tells (row_json (a_row.End name.now kind.now delay moment fate)) line.old line.new) }
{
    line.begin_object()?;
    line.optional_count("delay", delay)?;
    line.text("do", kind)?;
    line.name("fate")?;
    push_fate(line, fate)?;
    line.count("moment", moment)?;
    line.text("name", name)?;
    line.end_object()
}

// The exception that arose in the stage, whom it reaches, and who handles it.
fn push_failed(
    line: &mut Line,
    name: &str,
    standing: &Standing,
    reaches: &LentNames<'_>,
    handled: &LentNames<'_>,
) -> Result<(), AllocError>
    ensures { OnOk result (Tells (row_json (a_row.Failure name.now standing.now reaches.now handled.now)) line.old line.new) }
{
    line.begin_object()?;
    push_exception(line, standing)?;
    push_names_member(line, "handled", handled.as_slice())?;
    push_moment(line, standing)?;
    line.text("name", name)?;
    push_names_member(line, "reaches", reaches.as_slice())?;
    line.end_object()
}

// What another stage would come to, and how much sooner, if the action of this one took no time.
fn push_trial(
    line: &mut Line,
    name: &str,
    sooner: u64,
    outcome: &Outcome,
    moment: u64,
) -> Result<(), AllocError>
    ensures { OnOk result (Tells (row_json (a_row.Trial name.now sooner outcome.now moment)) line.old line.new) }
{
    line.begin_object()?;
    line.count("moment", moment)?;
    push_outcome_member(line, "outcome", outcome)?;
    line.count("sooner", sooner)?;
    line.text("stage", name)?;
    line.end_object()
}

// How much longer the action of the stage may run, when it started, and how late it may start.
fn push_slack(line: &mut Line, name: &str, slack: Option<u64>, start: u64) -> Result<(), AllocError>
    ensures { OnOk result (Tells (row_json (a_row.Slack name.now slack start)) line.old line.new) }
{
    let latest = latest_start(start, slack);
    line.begin_object()?;
    line.optional_count("latest", latest)?;
    line.text("name", name)?;
    line.optional_count("slack", slack)?;
    line.count("start", start)?;
    line.end_object()
}

// A change of the stage by which another one would have a value, which, and when.
fn push_rescue(
    line: &mut Line,
    name: &str,
    change: &TriedChange<'_>,
    value: Value,
    moment: u64,
) -> Result<(), AllocError>
    ensures { OnOk result (Tells (row_json (a_row.Rescue name.now change.now value moment)) line.old line.new) }
{
    line.begin_object()?;
    line.name("change")?;
    push_tried(line, change)?;
    line.count("moment", moment)?;
    line.text("name", name)?;
    line.stage_value("value", value)?;
    line.end_object()
}

// How long the stage's own action was queued and ran, its outcome and its moment.
fn push_own(line: &mut Line, queued: u64, ran: u64, standing: &Standing) -> Result<(), AllocError>
    ensures { OnOk result (Tells (object (own_members queued ran standing.now)) line.old line.new) }
{
    line.begin_object()?;
    push_moment(line, standing)?;
    push_outcome(line, standing)?;
    line.count("queued", queued)?;
    line.count("ran", ran)?;
    line.end_object()
}

// What the stage is in a run.
fn push_in_run(line: &mut Line, run: &InRun<'_>) -> Result<(), AllocError>
    ensures { OnOk result (Tells (in_run_json run.now) line.old line.new) }
{
    push_own(line, run.queued, run.ran, &run.standing.standing())
}

// What the stage is in the good run and in the bad one.
fn push_differs(
    line: &mut Line,
    name: &str,
    good: &InRun<'_>,
    bad: &InRun<'_>,
) -> Result<(), AllocError>
    ensures { OnOk result (Tells (row_json (a_row.Differs name.now good.now bad.now)) line.old line.new) }
{
    line.begin_object()?;
    line.name("bad")?;
    push_in_run(line, bad)?;
    line.name("good")?;
    push_in_run(line, good)?;
    line.text("name", name)?;
    line.end_object()
}

// The same, where the bad run has no such stage.
fn push_only_in_good(line: &mut Line, name: &str, good: &InRun<'_>) -> Result<(), AllocError>
    ensures { OnOk result (Tells (row_json (a_row.OnlyInGood name.now good.now)) line.old line.new) }
{
    line.begin_object()?;
    line.none("bad")?;
    line.name("good")?;
    push_in_run(line, good)?;
    line.text("name", name)?;
    line.end_object()
}

// The same, where the good run has no such stage.
fn push_only_in_bad(line: &mut Line, name: &str, bad: &InRun<'_>) -> Result<(), AllocError>
    ensures { OnOk result (Tells (row_json (a_row.OnlyInBad name.now bad.now)) line.old line.new) }
{
    line.begin_object()?;
    line.name("bad")?;
    push_in_run(line, bad)?;
    line.none("good")?;
    line.text("name", name)?;
    line.end_object()
}
