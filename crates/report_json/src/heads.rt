//! What a report says, in a line: its members in the order of their names.
ghost use Rattle.std.specs.Prelude.{◌∷◌, ◌++◌, [], OnOk, codes};
ghost use Rattle.report_rows.specs.declared.head.Head.TheVariants as a_head;
ghost use Rattle.report_json.specs.Heads.{facts_after, facts_before, facts_json, first_of_sweep, join_members, last_of_change, last_of_one, last_of_rescue, listed, listed_of, listed_since, moment_of, object_of};
ghost use Rattle.report_json.specs.Json.{at_line, count, object, optional, text};
ghost use Rattle.report_json.specs.Rows.{names_json, rows_json, standing_json};
ghost use Rattle.report_json.specs.Tokens.{Tells, TellsMember, TellsRows, line_rows};

use crate::haste::push_haste;
use crate::line::Line;
use crate::names::{push_join_member, push_names_member};
use crate::rows::push_rows;
use crate::stages::{push_moment, push_outcome, push_standing};
use act_expr::Mode;
use propagate::StateRepresentation;
use report_rows::{Head, Names, Rows, Said, Standing, Text, mode_text};
use stage_graph::Op;
use stage_ops::Join;
use std::alloc::AllocError;
use time_sweep::Haste;

/// Adds the number of the line that is answered, where there is one.
pub(crate) fn push_number(line: &mut Line, number: Option<u64>) -> Result<(), AllocError>
    ensures { OnOk result (TellsRows (line_rows number) line.old line.new) }
{
    match number {
        Some(number) => line.count("line", number),
        None => Ok(()),
    }
}

/// Adds what a report says, with the number of the line that it answers.
pub(crate) fn push_said<R: StateRepresentation>(
    line: &mut Line,
    said: &Said<'_, R>,
    number: Option<u64>,
) -> Result<(), AllocError>
    ensures { OnOk result (Tells (at_line number (object_of said.now)) line.old line.new) }
{
    let mut rows = said.rows();
    line.begin_object()?;
    push_first(line, &said.head)?;
    push_number(line, number)?;
    push_last(line, &said.head, &mut rows)?;
    line.end_object()
}

// The members before that number.
fn push_first(line: &mut Line, head: &Head<'_>) -> Result<(), AllocError>
    ensures { OnOk result (TellsRows (facts_json (facts_before head.now)) line.old line.new) }
{
    match head {
        Head::One {
            inner,
            dependents,
            join,
            ..
        } => push_first_of_one(line, inner, dependents, join),
        Head::Blame { chain, .. } => push_names_member(line, "chain", chain.as_slice()),
        Head::ChangesAgainst { against, .. } => line.count("against", u64::from(*against)),
        Head::DriftAgainst { against, .. } => line.count("against", u64::from(*against)),
        Head::Sweep { haste, count, .. } => push_first_of_sweep(line, *haste, *count),
        Head::Slack { count, .. } => line.count("count", *count as u64),
        Head::Rescue { by, count, .. } => push_first_of_rescue(line, *by, *count),
        Head::Differences { good, bad, .. } => {
            push_first_of_differences(line, &good.standing(), &bad.standing())
        }
        Head::All { .. } => Ok(()),
        Head::Times { .. } => Ok(()),
        Head::Path { .. } => Ok(()),
        Head::Change { .. } => Ok(()),
        Head::Changes { .. } => Ok(()),
        Head::Drift { .. } => Ok(()),
        Head::Ends { .. } => Ok(()),
        Head::Failures { .. } => Ok(()),
    }
}

// The members after it.
fn push_last<R: StateRepresentation>(
    line: &mut Line,
    head: &Head<'_>,
    rows: &mut Rows<'_, R>,
) -> Result<(), AllocError>
    ensures { OnOk result (TellsRows (facts_json (facts_after head.now rows.old)) line.old line.new) }
{
    match head {
        Head::All {
            version,
            parent,
            mode,
        } => push_last_of_all(line, *version, *parent, *mode, rows),
        Head::Times { version } => push_listed(line, "times", rows, *version),
        Head::One {
            version,
            name,
            op,
            rank,
            standing,
            sources,
            ..
        } => {
            let standing = standing.standing();
            push_last_of_one(line, *version, name, *op, *rank, &standing, sources)
        }
        Head::Blame { version, name, .. } => push_last_of_blame(line, name, *version),
        Head::Path {
            version,
            name,
            moment,
        } => push_last_of_path(line, *version, name, *moment, rows),
        Head::Change {
            version,
            name,
            old,
            new,
        } => push_last_of_change(line, *version, name, &old.standing(), &new.standing()),
        Head::Changes { version, parent } => {
            push_listed_since(line, "changes", *parent, rows, *version)
        }
        Head::Drift { version, parent } => {
            push_listed_since(line, "drift", *parent, rows, *version)
        }
        Head::ChangesAgainst { version, .. } => push_listed(line, "changes", rows, *version),
        Head::DriftAgainst { version, .. } => push_listed(line, "drift", rows, *version),
        Head::Ends { version } => push_listed(line, "ends", rows, *version),
        Head::Failures { version } => push_listed(line, "failures", rows, *version),
        Head::Sweep {
            version,
            name,
            moment,
            ..
        } => push_last_of_sweep(line, *version, name, *moment, rows),
        Head::Slack {
            version,
            name,
            moment,
            ..
        } => push_last_of_slack(line, *version, name, *moment, rows),
        Head::Rescue {
            version,
            name,
            standing,
            tried,
            ..
        } => {
            let standing = standing.standing();
            push_last_of_rescue(line, *version, name, &standing, *tried, rows)
        }
        Head::Differences { name, .. } => push_last_of_differences(line, name, rows),
    }
}

// The last members of `all`.
fn push_last_of_all<R: StateRepresentation>(
    line: &mut Line,
    version: u32,
    parent: Option<u32>,
    mode: Mode,
    rows: &mut Rows<'_, R>,
) -> Result<(), AllocError>
    ensures { OnOk result (TellsRows (facts_json (facts_after (a_head.All version parent mode) rows.old)) line.old line.new) }
{
    line.text("mode", mode_text(mode))?;
    push_listed_since(line, "all", parent, rows, version)
}

// The last members of `path`.
fn push_last_of_path<R: StateRepresentation>(
    line: &mut Line,
    version: u32,
    name: &Text<'_>,
    moment: Option<u64>,
    rows: &mut Rows<'_, R>,
) -> Result<(), AllocError>
    ensures { OnOk result (TellsRows (facts_json (moment_of (codes "path") moment ++ listed_of (codes "stage") name.now (codes "steps") rows.old version)) line.old line.new) }
{
    push_moment_of(line, "path", moment)?;
    push_listed_of(line, "stage", name, "steps", rows, version)
}

// The first members of `sweep`.
fn push_first_of_sweep(
    line: &mut Line,
    haste: Option<Haste>,
    count: usize,
) -> Result<(), AllocError>
    ensures { OnOk result (TellsRows (facts_json (first_of_sweep haste count)) line.old line.new) }
{
    line.count("count", count as u64)?;
    push_haste(line, haste)
}

// The last members of `sweep`.
fn push_last_of_sweep<R: StateRepresentation>(
    line: &mut Line,
    version: u32,
    name: &Text<'_>,
    moment: Option<u64>,
    rows: &mut Rows<'_, R>,
) -> Result<(), AllocError>
    ensures { OnOk result (TellsRows (facts_json (moment_of (codes "sweep") moment ++ listed_of (codes "target") name.now (codes "trials") rows.old version)) line.old line.new) }
{
    push_moment_of(line, "sweep", moment)?;
    push_listed_of(line, "target", name, "trials", rows, version)
}

// The last members of `slack`.
fn push_last_of_slack<R: StateRepresentation>(
    line: &mut Line,
    version: u32,
    name: &Text<'_>,
    moment: Option<u64>,
    rows: &mut Rows<'_, R>,
) -> Result<(), AllocError>
    ensures { OnOk result (TellsRows (facts_json (moment_of (codes "slack") moment ++ listed_of (codes "stage") name.now (codes "stages") rows.old version)) line.old line.new) }
{
    push_moment_of(line, "slack", moment)?;
    push_listed_of(line, "stage", name, "stages", rows, version)
}

// The first members of `rescue`.
fn push_first_of_rescue(line: &mut Line, by: Option<u64>, all: usize) -> Result<(), AllocError>
    ensures { OnOk result (TellsRows ((codes "by", optional count by) ∷ (codes "count", count all) ∷ []) line.old line.new) }
{
    line.optional_count("by", by)?;
    line.count("count", all as u64)
}

// The last members of `rescue`.
fn push_last_of_rescue<R: StateRepresentation>(
    line: &mut Line,
    version: u32,
    name: &Text<'_>,
    standing: &Standing,
    tried: usize,
    rows: &mut Rows<'_, R>,
) -> Result<(), AllocError>
    ensures { OnOk result (TellsRows (facts_json (last_of_rescue version name.now standing.now tried rows.old)) line.old line.new) }
{
    let name = name.as_str();
    push_moment(line, standing)?;
    push_outcome(line, standing)?;
    line.text("report", "rescue")?;
    line.name("rescues")?;
    push_rows(line, rows)?;
    line.text("stage", name)?;
    line.count("tried", tried as u64)?;
    line.count("version", u64::from(version))
}

// The moment of a stage, and the name of a report that lists what leads to it.
fn push_moment_of(line: &mut Line, report: &str, moment: Option<u64>) -> Result<(), AllocError>
    ensures { OnOk result (TellsRows (facts_json (moment_of report.now moment)) line.old line.new) }
{
    line.optional_count("moment", moment)?;
    line.text("report", report)
}

// The stage's name, the rows, and the version's number.
fn push_listed_of<R: StateRepresentation>(
    line: &mut Line,
    role: &str,
    name: &Text<'_>,
    title: &str,
    rows: &mut Rows<'_, R>,
    version: u32,
) -> Result<(), AllocError>
    ensures { OnOk result (TellsRows (facts_json (listed_of role.now name.now title.now rows.old version)) line.old line.new) }
{
    let name = name.as_str();
    line.text(role, name)?;
    push_titled(line, title, rows, version)
}

// The rows under a title, and the version's number.
fn push_titled<R: StateRepresentation>(
    line: &mut Line,
    title: &str,
    rows: &mut Rows<'_, R>,
    version: u32,
) -> Result<(), AllocError>
    ensures { OnOk result (TellsRows ((title.now, rows_json rows.old) ∷ (codes "version", count version) ∷ []) line.old line.new) }
{
    line.name(title)?;
    push_rows(line, rows)?;
    line.count("version", u64::from(version))
}

// The name of a report that lists stages, its rows, and the version's number.
fn push_listed<R: StateRepresentation>(
    line: &mut Line,
    report: &str,
    rows: &mut Rows<'_, R>,
    version: u32,
) -> Result<(), AllocError>
    ensures { OnOk result (TellsRows (facts_json (listed report.now rows.old version)) line.old line.new) }
{
    line.text("report", report)?;
    push_titled(line, "stages", rows, version)
}

// The same after the number of the version's parent.
fn push_listed_since<R: StateRepresentation>(
    line: &mut Line,
    report: &str,
    parent: Option<u32>,
    rows: &mut Rows<'_, R>,
    version: u32,
) -> Result<(), AllocError>
    ensures { OnOk result (TellsRows (facts_json (listed_since report.now parent rows.old version)) line.old line.new) }
{
    push_parent(line, parent)?;
    push_listed(line, report, rows, version)
}

// The number of the parent; null where there is none.
fn push_parent(line: &mut Line, parent: Option<u32>) -> Result<(), AllocError>
    ensures { OnOk result (TellsMember (codes "parent") (optional count parent) line.old line.new) }
{
    match parent {
        Some(parent) => line.count("parent", u64::from(parent)),
        None => line.none("parent"),
    }
}

fn push_first_of_one(
    line: &mut Line,
    inner: &Names<'_>,
    dependents: &Names<'_>,
    join: &Join,
) -> Result<(), AllocError>
    ensures { OnOk result (TellsRows ((codes "dependents", names_json dependents.now) ∷ (codes "inner", names_json inner.now) ∷ (codes "join", object (join_members join.now)) ∷ []) line.old line.new) }
{
    push_names_member(line, "dependents", dependents.as_slice())?;
    push_names_member(line, "inner", inner.as_slice())?;
    push_join_member(line, "join", join)
}

fn push_last_of_one(
    line: &mut Line,
    version: u32,
    name: &Text<'_>,
    op: Op,
    rank: u32,
    standing: &Standing,
    sources: &Names<'_>,
) -> Result<(), AllocError>
    ensures { OnOk result (TellsRows (facts_json (last_of_one version name.now op rank standing.now sources.now)) line.old line.new) }
{
    let name = name.as_str();
    let op = op.text();
    push_moment(line, standing)?;
    line.text("op", op)?;
    push_outcome(line, standing)?;
    line.count("rank", u64::from(rank))?;
    line.text("report", "one")?;
    push_names_member(line, "sources", sources.as_slice())?;
    line.text("stage", name)?;
    line.count("version", u64::from(version))
}

fn push_last_of_blame(line: &mut Line, name: &Text<'_>, version: u32) -> Result<(), AllocError>
    ensures { OnOk result (TellsRows ((codes "report", text (codes "blame")) ∷ (codes "stage", text name.now) ∷ (codes "version", count version) ∷ []) line.old line.new) }
{
    let name = name.as_str();
    line.text("report", "blame")?;
    line.text("stage", name)?;
    line.count("version", u64::from(version))
}

fn push_last_of_change(
    line: &mut Line,
    version: u32,
    name: &Text<'_>,
    old: &Standing,
    new: &Standing,
) -> Result<(), AllocError>
    ensures { OnOk result (TellsRows (facts_json (last_of_change version name.now old.now new.now)) line.old line.new) }
{
    let name = name.as_str();
    line.name("new")?;
    push_standing(line, new)?;
    line.name("old")?;
    push_standing(line, old)?;
    line.text("report", "change")?;
    line.text("stage", name)?;
    line.count("version", u64::from(version))
}

// What the stage is in both runs.
fn push_first_of_differences(
    line: &mut Line,
    good: &Standing,
    bad: &Standing,
) -> Result<(), AllocError>
    ensures { OnOk result (TellsRows ((codes "bad", standing_json bad.now) ∷ (codes "good", standing_json good.now) ∷ []) line.old line.new) }
{
    line.name("bad")?;
    push_standing(line, bad)?;
    line.name("good")?;
    push_standing(line, good)
}

// The stage's name, and the rows.
fn push_last_of_differences<R: StateRepresentation>(
    line: &mut Line,
    name: &Text<'_>,
    rows: &mut Rows<'_, R>,
) -> Result<(), AllocError>
    ensures { OnOk result (TellsRows ((codes "report", text (codes "differences")) ∷ (codes "stage", text name.now) ∷ (codes "stages", rows_json rows.old) ∷ []) line.old line.new) }
{
    let name = name.as_str();
    line.text("report", "differences")?;
    line.text("stage", name)?;
    line.name("stages")?;
    push_rows(line, rows)
}
