//! The lines of rows.
ghost use Rattle.std.specs.Prelude.{◌≡◌, ◌++◌, OnOk, codes, string_bytes};
ghost use Rattle.stage_graph.specs.Texts.{op_text};
ghost use Rattle.report_rows.specs.Names.{bytes_of};
ghost use Rattle.report_rows.specs.declared.row.Row.TheVariants as a_row;
ghost use Rattle.report_text.specs.Texts.{change_text, concerned_text, end_text, fate_text, only_text, row_text, shares_text, state_text};
ghost use Rattle.text_io.specs.Writes.{line_end};

use crate::changes::push_tried;
use crate::digits::push_number;
use crate::names::push_titled_names;
use crate::words::{
    push_at, push_because, push_delay, push_failure, push_fate, push_more, push_number_or_dash,
    push_outcome, push_results, push_shift, push_standing, push_value,
};
use act_expr::{Outcome, Value};
use report_rows::{Because, InRun, LentNames, Row, Shift, Standing, TriedChange, latest_start};
use stage_ends::Fate;
use stage_graph::Op;
use std::alloc::AllocError;

/// Appends the line of a row to a text.
#[inline(always)]
pub(crate) fn push_row(line: &mut String, row: &Row<'_>) -> Result<(), AllocError>
    ensures { OnOk result (string_bytes line.new ≡ string_bytes line.old ++ row_text row.now) }
{
    match row {
        Row::State {
            name,
            op,
            rank,
            standing,
        } => push_state(line, name.as_str(), *op, *rank, &standing.standing()),
        Row::Times {
            name,
            start,
            queued,
            runs,
        } => push_times(line, name.as_str(), *start, *queued, *runs),
        Row::Step {
            name,
            moment,
            queued,
            ran,
            because,
        } => push_step(line, name.as_str(), *moment, *queued, *ran, because),
        Row::Change { name, old, new } => {
            push_change(line, name.as_str(), &old.standing(), &new.standing())
        }
        Row::Shift { name, shift } => push_moved(line, name.as_str(), *shift),
        Row::End {
            name,
            kind,
            delay,
            moment,
            fate,
        } => push_end(line, name.as_str(), kind.as_str(), *delay, *moment, *fate),
        Row::Failure {
            name,
            standing,
            reaches,
            handled,
        } => push_failed(line, name.as_str(), &standing.standing(), reaches, handled),
        Row::Trial {
            name,
            sooner,
            outcome,
            moment,
        } => push_trial(line, name.as_str(), *sooner, outcome.as_outcome(), *moment),
        Row::Slack { name, slack, start } => push_slack(line, name.as_str(), *slack, *start),
        Row::Rescue {
            name,
            change,
            value,
            moment,
        } => push_rescue(line, name.as_str(), change, *value, *moment),
        Row::Differs { name, good, bad } => push_differs(line, name.as_str(), good, bad),
        Row::OnlyInGood { name, .. } => push_only(line, name.as_str(), "GOOD"),
        Row::OnlyInBad { name, .. } => push_only(line, name.as_str(), "BAD"),
    }
}

/// The line of a stage with its operation, its rank, and what it is.
pub(crate) fn push_state(
    line: &mut String,
    name: &str,
    op: Op,
    rank: u32,
    standing: &Standing,
) -> Result<(), AllocError>
    ensures { OnOk result (string_bytes line.new ≡ string_bytes line.old ++ state_text name.now (op_text op) rank standing.now) }
{
    line.push_str(name)?;
    line.push_str(" ")?;
    line.push_str(op.text())?;
    line.push_str(" rank ")?;
    push_number(line, u64::from(rank))?;
    line.push_str(" ")?;
    push_standing(line, standing)?;
    line.push_str("\n")
}

fn push_times(
    line: &mut String,
    name: &str,
    start: Option<u64>,
    queued: u64,
    runs: u64,
) -> Result<(), AllocError>
    ensures { OnOk result (string_bytes line.new ≡ string_bytes line.old ++ row_text (a_row.Times name.now start queued runs)) }
{
    line.push_str(name)?;
    line.push_str(" start ")?;
    push_number_or_dash(line, start)?;
    line.push_str(" queued ")?;
    push_number(line, queued)?;
    line.push_str(" runs ")?;
    push_number(line, runs)?;
    line.push_str("\n")
}

fn push_step(
    line: &mut String,
    name: &str,
    moment: Option<u64>,
    queued: u64,
    ran: u64,
    because: &Because<'_>,
) -> Result<(), AllocError>
    ensures { OnOk result (string_bytes line.new ≡ string_bytes line.old ++ row_text (a_row.Step name.now moment queued ran because.now)) }
{
    line.push_str(name)?;
    push_at(line, "", moment)?;
    push_because(line, queued, ran, because)?;
    line.push_str("\n")
}

/// The line of a stage with what it was, and what it is.
pub(crate) fn push_change(
    line: &mut String,
    name: &str,
    old: &Standing,
    new: &Standing,
) -> Result<(), AllocError>
    ensures { OnOk result (string_bytes line.new ≡ string_bytes line.old ++ change_text name.now old.now new.now) }
{
    line.push_str(name)?;
    line.push_str(" ")?;
    push_standing(line, old)?;
    line.push_str(" -> ")?;
    push_standing(line, new)?;
    line.push_str("\n")
}

fn push_moved(line: &mut String, name: &str, shift: Shift) -> Result<(), AllocError>
    ensures { OnOk result (string_bytes line.new ≡ string_bytes line.old ++ row_text (a_row.Shift name.now shift)) }
{
    line.push_str(name)?;
    line.push_str(" ")?;
    push_shift(line, shift)?;
    line.push_str("\n")
}

fn push_end(
    line: &mut String,
    name: &str,
    kind: &str,
    delay: Option<u64>,
    moment: u64,
    fate: Fate,
) -> Result<(), AllocError>
    ensures { OnOk result (string_bytes line.new ≡ string_bytes line.old ++ row_text (a_row.End name.now kind.now delay moment fate)) }
{
    push_end_at(line, name, kind, delay, moment)?;
    push_fate_line(line, fate)
}

// What became of an end, and the end of the line.
fn push_fate_line(line: &mut String, fate: Fate) -> Result<(), AllocError>
    ensures { OnOk result (string_bytes line.new ≡ string_bytes line.old ++ (codes " " ++ fate_text fate ++ line_end)) }
{
    line.push_str(" ")?;
    push_fate(line, fate)?;
    line.push_str("\n")
}

// The stage, the end, and when it acts.
fn push_end_at(
    line: &mut String,
    name: &str,
    kind: &str,
    delay: Option<u64>,
    moment: u64,
) -> Result<(), AllocError>
    ensures { OnOk result (string_bytes line.new ≡ string_bytes line.old ++ end_text name.now kind.now delay moment) }
{
    line.push_str(name)?;
    line.push_str(" ")?;
    line.push_str(kind)?;
    push_delay(line, delay)?;
    line.push_str(" at ")?;
    push_number(line, moment)
}

fn push_failed(
    line: &mut String,
    name: &str,
    standing: &Standing,
    reaches: &LentNames<'_>,
    handled: &LentNames<'_>,
) -> Result<(), AllocError>
    ensures { OnOk result (string_bytes line.new ≡ string_bytes line.old ++ row_text (a_row.Failure name.now standing.now reaches.now handled.now)) }
{
    line.push_str(name)?;
    line.push_str(" ")?;
    push_failure(line, standing)?;
    push_concerned(line, reaches.as_slice(), handled.as_slice())?;
    line.push_str("\n")
}

// Whom an exception reaches, and who handles it.
fn push_concerned(line: &mut String, reaches: &[&str], handled: &[&str]) -> Result<(), AllocError>
    ensures { OnOk result (string_bytes line.new ≡ string_bytes line.old ++ concerned_text (bytes_of reaches.now) (bytes_of handled.now)) }
{
    push_titled_names(line, " reaches", reaches)?;
    push_titled_names(line, "; handled by", handled)
}

fn push_trial(
    line: &mut String,
    name: &str,
    sooner: u64,
    outcome: &Outcome,
    moment: u64,
) -> Result<(), AllocError>
    ensures { OnOk result (string_bytes line.new ≡ string_bytes line.old ++ row_text (a_row.Trial name.now sooner outcome.now moment)) }
{
    line.push_str(name)?;
    line.push_str(" sooner ")?;
    push_number(line, sooner)?;
    line.push_str(" -> ")?;
    push_outcome(line, outcome)?;
    line.push_str(" at ")?;
    push_number(line, moment)?;
    line.push_str("\n")
}

fn push_slack(
    line: &mut String,
    name: &str,
    slack: Option<u64>,
    start: u64,
) -> Result<(), AllocError>
    ensures { OnOk result (string_bytes line.new ≡ string_bytes line.old ++ row_text (a_row.Slack name.now slack start)) }
{
    line.push_str(name)?;
    line.push_str(" slack ")?;
    push_number_or_dash(line, slack)?;
    line.push_str(" start ")?;
    push_number(line, start)?;
    line.push_str(" latest ")?;
    push_number_or_dash(line, latest_start(start, slack))?;
    line.push_str("\n")
}

fn push_rescue(
    line: &mut String,
    name: &str,
    change: &TriedChange<'_>,
    value: Value,
    moment: u64,
) -> Result<(), AllocError>
    ensures { OnOk result (string_bytes line.new ≡ string_bytes line.old ++ row_text (a_row.Rescue name.now change.now value moment)) }
{
    line.push_str(name)?;
    line.push_str(" ")?;
    push_tried(line, change)?;
    line.push_str(" -> value:")?;
    push_value(line, value)?;
    line.push_str(" at ")?;
    push_number(line, moment)?;
    line.push_str("\n")
}

// How many ticks longer than in another run a stage's own action was queued and ran.
fn push_shares(line: &mut String, good: &InRun<'_>, bad: &InRun<'_>) -> Result<(), AllocError>
    ensures { OnOk result (string_bytes line.new ≡ string_bytes line.old ++ shares_text good.now bad.now) }
{
    line.push_str(" queued ")?;
    push_more(line, good.queued, bad.queued)?;
    line.push_str(" ran ")?;
    push_more(line, good.ran, bad.ran)
}

fn push_differs(
    line: &mut String,
    name: &str,
    good: &InRun<'_>,
    bad: &InRun<'_>,
) -> Result<(), AllocError>
    ensures { OnOk result (string_bytes line.new ≡ string_bytes line.old ++ row_text (a_row.Differs name.now good.now bad.now)) }
{
    line.push_str(name)?;
    push_shares(line, good, bad)?;
    push_results(line, &good.standing.standing(), &bad.standing.standing())?;
    line.push_str("\n")
}

// The stage is in one run alone.
fn push_only(line: &mut String, name: &str, run: &str) -> Result<(), AllocError>
    ensures { OnOk result (string_bytes line.new ≡ string_bytes line.old ++ only_text name.now run.now) }
{
    line.push_str(name)?;
    line.push_str(" only in ")?;
    line.push_str(run)?;
    line.push_str("\n")
}
