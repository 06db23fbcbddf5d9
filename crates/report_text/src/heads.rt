//! What a report begins with.
ghost use Rattle.std.specs.Prelude.{◌≡◌, ◌++◌, OnOk, codes, string_bytes};
ghost use Rattle.std.specs.Fmt.{decimal};
ghost use Rattle.report_rows.specs.declared.head.Head.TheVariants as a_head;
ghost use Rattle.report_text.specs.Texts.{around_text, counted, haste_text, head_text, number_or_dash, of_stage, of_stage_later, of_version, rescue_text, rescued_text};

use crate::digits::push_number;
use crate::haste::push_haste;
use crate::names::push_names_line;
use crate::rows::{push_change, push_state};
use crate::words::{push_answer, push_at, push_later, push_standing};
use act_expr::Mode;
use report_rows::{Head, Names, Standing, has_replied, mode_text};
use stage_ops::Join;
use std::alloc::AllocError;
use time_sweep::Haste;

/// Appends what a report of so many rows begins with to a text.
pub(crate) fn push_head(line: &mut String, head: &Head<'_>, count: usize) -> Result<(), AllocError>
    ensures { OnOk result (string_bytes line.new ≡ string_bytes line.old ++ head_text head.now count) }
{
    match head {
        Head::All {
            version,
            parent,
            mode,
        } => push_all(line, *version, *parent, *mode, count),
        Head::Times { version } => push_titled(line, "times", *version, "stages", count),
        Head::Ends { version } => push_titled(line, "ends", *version, "ends", count),
        Head::Failures { version } => push_titled(line, "failures", *version, "failures", count),
        Head::One {
            name,
            op,
            rank,
            standing,
            sources,
            inner,
            dependents,
            join,
            ..
        } => {
            push_state(line, name.as_str(), *op, *rank, &standing.standing())?;
            push_around(line, sources, inner, dependents, join)
        }
        Head::Blame { chain, .. } => push_names_line(line, "blame", chain),
        Head::Path { name, moment, .. } => {
            push_of_stage(line, "path", name.as_str(), *moment, count)
        }
        Head::Change { name, old, new, .. } => {
            push_change(line, name.as_str(), &old.standing(), &new.standing())
        }
        Head::Changes { version, parent } => push_changes(line, *version, *parent, count),
        Head::Drift { version, parent } => push_drift(line, *version, *parent, count),
        Head::ChangesAgainst { version, against } => {
            push_changes_against(line, *version, *against, count)
        }
        Head::DriftAgainst { version, against } => {
            push_drift_against(line, *version, *against, count)
        }
        Head::Sweep {
            name,
            moment,
            haste,
            count: all,
            ..
        } => push_sweep(line, name.as_str(), *moment, *haste, *all),
        Head::Slack {
            name,
            moment,
            count: all,
            ..
        } => push_of_stage(line, "slack", name.as_str(), *moment, *all),
        Head::Rescue {
            name,
            standing,
            by,
            tried,
            count: all,
            ..
        } => push_rescue(line, name.as_str(), &standing.standing(), *by, *tried, *all),
        Head::Differences { name, good, bad } => {
            push_differences(
                line,
                name.as_str(),
                &good.standing(),
                &bad.standing(),
                count,
            )
        }
    }
}

// WORD K, and the end of the line.
fn push_counted(line: &mut String, word: &str, count: usize) -> Result<(), AllocError>
    ensures { OnOk result (string_bytes line.new ≡ string_bytes line.old ++ counted word.now count) }
{
    line.push_str(" ")?;
    line.push_str(word)?;
    line.push_str(" ")?;
    push_number(line, count as u64)?;
    line.push_str("\n")
}

// TITLE of version N
fn push_of_version(line: &mut String, title: &str, version: u32) -> Result<(), AllocError>
    ensures { OnOk result (string_bytes line.new ≡ string_bytes line.old ++ of_version title.now version) }
{
    line.push_str(title)?;
    line.push_str(" of version ")?;
    push_number(line, u64::from(version))
}

// The number of a version, or a dash where there is none.
fn push_version_or_dash(line: &mut String, version: Option<u32>) -> Result<(), AllocError>
    ensures { OnOk result (string_bytes line.new ≡ string_bytes line.old ++ number_or_dash version) }
{
    match version {
        Some(version) => push_number(line, u64::from(version)),
        None => line.push_str("-"),
    }
}

// changes of version N from P touched K
fn push_changes(
    line: &mut String,
    version: u32,
    parent: Option<u32>,
    count: usize,
) -> Result<(), AllocError>
    ensures { OnOk result (string_bytes line.new ≡ string_bytes line.old ++ head_text (a_head.Changes version parent) count) }
{
    push_since(line, "changes", version, parent, "touched", count)
}

// drift of version N from P moved K
fn push_drift(
    line: &mut String,
    version: u32,
    parent: Option<u32>,
    count: usize,
) -> Result<(), AllocError>
    ensures { OnOk result (string_bytes line.new ≡ string_bytes line.old ++ head_text (a_head.Drift version parent) count) }
{
    push_since(line, "drift", version, parent, "moved", count)
}

// changes of version N against B changed K
fn push_changes_against(
    line: &mut String,
    version: u32,
    against: u32,
    count: usize,
) -> Result<(), AllocError>
    ensures { OnOk result (string_bytes line.new ≡ string_bytes line.old ++ head_text (a_head.ChangesAgainst version against) count) }
{
    push_against(line, "changes", version, against, "changed", count)
}

// drift of version N against B moved K
fn push_drift_against(
    line: &mut String,
    version: u32,
    against: u32,
    count: usize,
) -> Result<(), AllocError>
    ensures { OnOk result (string_bytes line.new ≡ string_bytes line.old ++ head_text (a_head.DriftAgainst version against) count) }
{
    push_against(line, "drift", version, against, "moved", count)
}

// TITLE of version N from P WORD K
fn push_since(
    line: &mut String,
    title: &str,
    version: u32,
    parent: Option<u32>,
    word: &str,
    count: usize,
) -> Result<(), AllocError>
    ensures { OnOk result (string_bytes line.new ≡ string_bytes line.old ++ (of_version title.now version ++ codes " from " ++ number_or_dash parent ++ counted word.now count)) }
{
    push_of_version(line, title, version)?;
    line.push_str(" from ")?;
    push_version_or_dash(line, parent)?;
    push_counted(line, word, count)
}

// TITLE of version N against B WORD K
fn push_against(
    line: &mut String,
    title: &str,
    version: u32,
    against: u32,
    word: &str,
    count: usize,
) -> Result<(), AllocError>
    ensures { OnOk result (string_bytes line.new ≡ string_bytes line.old ++ (of_version title.now version ++ codes " against " ++ decimal against ++ counted word.now count)) }
{
    push_of_version(line, title, version)?;
    line.push_str(" against ")?;
    push_number(line, u64::from(against))?;
    push_counted(line, word, count)
}

// TITLE of NAME at M, or TITLE of NAME pending
fn push_stage(
    line: &mut String,
    title: &str,
    name: &str,
    moment: Option<u64>,
) -> Result<(), AllocError>
    ensures { OnOk result (string_bytes line.new ≡ string_bytes line.old ++ of_stage title.now name.now moment) }
{
    line.push_str(title)?;
    line.push_str(" of ")?;
    line.push_str(name)?;
    push_at(line, " pending", moment)
}

// TITLE of NAME at M stages K, or TITLE of NAME pending stages K
fn push_of_stage(
    line: &mut String,
    title: &str,
    name: &str,
    moment: Option<u64>,
    count: usize,
) -> Result<(), AllocError>
    ensures { OnOk result (string_bytes line.new ≡ string_bytes line.old ++ of_stage title.now name.now moment ++ counted (codes "stages") count) }
{
    push_stage(line, title, name, moment)?;
    push_counted(line, "stages", count)
}

// sweep of NAME at M with HASTE stages K
fn push_sweep(
    line: &mut String,
    name: &str,
    moment: Option<u64>,
    haste: Option<Haste>,
    count: usize,
) -> Result<(), AllocError>
    ensures { OnOk result (string_bytes line.new ≡ string_bytes line.old ++ of_stage (codes "sweep") name.now moment ++ haste_text haste ++ counted (codes "stages") count) }
{
    push_stage(line, "sweep", name, moment)?;
    push_haste(line, haste)?;
    push_counted(line, "stages", count)
}

// TITLE of NAME at +D
fn push_stage_later(
    line: &mut String,
    title: &str,
    name: &str,
    good: &Standing,
    bad: &Standing,
) -> Result<(), AllocError>
    ensures { OnOk result (string_bytes line.new ≡ string_bytes line.old ++ of_stage_later title.now name.now good.now bad.now) }
{
    line.push_str(title)?;
    line.push_str(" of ")?;
    line.push_str(name)?;
    line.push_str(" at ")?;
    push_later(line, good, bad)
}

// differences of NAME at +D stages K
fn push_differences(
    line: &mut String,
    name: &str,
    good: &Standing,
    bad: &Standing,
    count: usize,
) -> Result<(), AllocError>
    ensures { OnOk result (string_bytes line.new ≡ string_bytes line.old ++ of_stage_later (codes "differences") name.now good.now bad.now ++ counted (codes "stages") count) }
{
    push_stage_later(line, "differences", name, good, bad)?;
    push_counted(line, "stages", count)
}

// TITLE of version N WORD K
fn push_titled(
    line: &mut String,
    title: &str,
    version: u32,
    word: &str,
    count: usize,
) -> Result<(), AllocError>
    ensures { OnOk result (string_bytes line.new ≡ string_bytes line.old ++ of_version title.now version ++ counted word.now count) }
{
    push_of_version(line, title, version)?;
    push_counted(line, word, count)
}

// version N parent P mode MODE stages K
fn push_all(
    line: &mut String,
    version: u32,
    parent: Option<u32>,
    mode: Mode,
    count: usize,
) -> Result<(), AllocError>
    ensures { OnOk result (string_bytes line.new ≡ string_bytes line.old ++ head_text (a_head.All version parent mode) count) }
{
    line.push_str("version ")?;
    push_number(line, u64::from(version))?;
    line.push_str(" parent ")?;
    push_version_or_dash(line, parent)?;
    line.push_str(" mode ")?;
    line.push_str(mode_text(mode))?;
    push_counted(line, "stages", count)
}

// The feeds, the dependents and `join` of a stage, each on a line.
fn push_around(
    line: &mut String,
    sources: &Names<'_>,
    inner: &Names<'_>,
    dependents: &Names<'_>,
    join: &Join,
) -> Result<(), AllocError>
    ensures { OnOk result (string_bytes line.new ≡ string_bytes line.old ++ around_text sources.now inner.now dependents.now join.now) }
{
    push_names_line(line, "sources", sources)?;
    push_names_line(line, "inner", inner)?;
    push_names_line(line, "dependents", dependents)?;
    line.push_str("join ")?;
    push_answer(line, join)?;
    line.push_str("\n")
}

// How many changes are rescues, of so many.
fn push_rescued(
    line: &mut String,
    has_replied: bool,
    all: usize,
    tried: usize,
) -> Result<(), AllocError>
    ensures { OnOk result (string_bytes line.new ≡ string_bytes line.old ++ rescued_text has_replied all tried) }
{
    if has_replied {
        return line.push_str("none needed");
    }
    push_number(line, all as u64)?;
    line.push_str(" of ")?;
    push_number(line, tried as u64)?;
    line.push_str(" changes")
}

// rescue of NAME STANDING: K of N changes
fn push_rescue(
    line: &mut String,
    name: &str,
    standing: &Standing,
    by: Option<u64>,
    tried: usize,
    all: usize,
) -> Result<(), AllocError>
    ensures { OnOk result (string_bytes line.new ≡ string_bytes line.old ++ rescue_text name.now standing.now by tried all) }
{
    line.push_str("rescue of ")?;
    line.push_str(name)?;
    line.push_str(" ")?;
    push_standing(line, standing)?;
    line.push_str(": ")?;
    push_rescued(line, has_replied(by, standing), all, tried)?;
    line.push_str("\n")
}
