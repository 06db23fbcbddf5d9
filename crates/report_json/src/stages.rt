//! What a stage is, and why, in a line.
ghost use Rattle.std.specs.Prelude.{◌∷◌, [], OnOk, codes};
ghost use Rattle.report_rows.specs.declared.standing.Standing.TheVariants.{Completed, Pending};
ghost use Rattle.stage_ends.specs.declared.fate.Fate.TheVariants.{CutOff};
ghost use Rattle.report_json.specs.Json.{count, object, optional, outcome_json, text};
ghost use Rattle.report_json.specs.Rows.{because_members, exception_json, fate_members, kind_of_stage, moment_in, outcome_in, standing_json, standing_members};
ghost use Rattle.report_json.specs.Tokens.{Tells, TellsMember};

use crate::line::Line;
use crate::line_values::{push_one_text, push_outcome_member};
use act_expr::Outcome;
use report_rows::{Because, Standing};
use stage_ends::Fate;
use std::alloc::AllocError;

/// Adds the tick at which a stage completed; null while it is pending.
pub(crate) fn push_moment(line: &mut Line, standing: &Standing) -> Result<(), AllocError>
    ensures { OnOk result (TellsMember (codes "moment") (optional count (moment_in standing.now)) line.old line.new) }
{
    match standing {
        Standing::Completed(_, moment) => line.count("moment", *moment),
        Standing::Absent => line.none("moment"),
        Standing::Pending => line.none("moment"),
    }
}

/// Adds what a stage holds; null while it is pending.
pub(crate) fn push_outcome(line: &mut Line, standing: &Standing) -> Result<(), AllocError>
    ensures { OnOk result (TellsMember (codes "outcome") (optional outcome_json (outcome_in standing.now)) line.old line.new) }
{
    match standing {
        Standing::Completed(outcome, _) => push_outcome_member(line, "outcome", outcome),
        Standing::Absent => line.none("outcome"),
        Standing::Pending => line.none("outcome"),
    }
}

// Adds the exception that an outcome is; null for a value.
fn push_exception_of(line: &mut Line, outcome: &Outcome) -> Result<(), AllocError>
    ensures { OnOk result (TellsMember (codes "exception") (exception_json outcome.now) line.old line.new) }
{
    match outcome {
        Outcome::Value(_) => line.none("exception"),
        Outcome::Bare(name) => line.text("exception", name.text()),
        Outcome::Wrapped(name) => line.text("exception", name.text()),
    }
}

/// Adds the exception that a stage holds.
pub(crate) fn push_exception(line: &mut Line, standing: &Standing) -> Result<(), AllocError>
    ensures { OnOk result (TellsMember (codes "exception") (optional exception_json (outcome_in standing.now)) line.old line.new) }
{
    match standing {
        Standing::Completed(outcome, _) => push_exception_of(line, outcome),
        Standing::Absent => line.none("exception"),
        Standing::Pending => line.none("exception"),
    }
}

// How and when it completed.
fn push_completed(line: &mut Line, outcome: &Outcome, moment: u64) -> Result<(), AllocError>
    ensures { OnOk result (Tells (object (standing_members (Completed outcome.now moment))) line.old line.new) }
{
    line.begin_object()?;
    line.count("moment", moment)?;
    push_outcome_member(line, "outcome", outcome)?;
    line.end_object()
}

// It has neither an outcome nor a moment.
fn push_pending(line: &mut Line) -> Result<(), AllocError>
    ensures { OnOk result (Tells (object (standing_members Pending)) line.old line.new) }
{
    line.begin_object()?;
    line.none("moment")?;
    line.none("outcome")?;
    line.end_object()
}

/// Adds what a stage is in a version; null where it is not there.
pub(crate) fn push_standing(line: &mut Line, standing: &Standing) -> Result<(), AllocError>
    ensures { OnOk result (Tells (standing_json standing.now) line.old line.new) }
{
    match standing {
        Standing::Absent => line.null(),
        Standing::Pending => push_pending(line),
        Standing::Completed(outcome, moment) => push_completed(line, outcome, *moment),
    }
}

// It was created at this tick.
fn push_created(line: &mut Line, tick: u64) -> Result<(), AllocError>
    ensures { OnOk result (Tells (object ((codes "kind", text (codes "created")) ∷ (codes "at", count tick) ∷ [])) line.old line.new) }
{
    line.begin_object()?;
    line.count("at", tick)?;
    line.text("kind", "created")?;
    line.end_object()
}

// An end of this kind completed it.
fn push_ended(line: &mut Line, end: &str) -> Result<(), AllocError>
    ensures { OnOk result (Tells (object ((codes "kind", text (codes "ended")) ∷ (codes "by", text end.now) ∷ [])) line.old line.new) }
{
    line.begin_object()?;
    line.text("by", end)?;
    line.text("kind", "ended")?;
    line.end_object()
}

// A kind of cause, and the stage that it names.
fn push_kind_of_stage(line: &mut Line, kind: &str, name: &str) -> Result<(), AllocError>
    ensures { OnOk result (Tells (object (kind_of_stage kind.now name.now)) line.old line.new) }
{
    line.begin_object()?;
    line.text("kind", kind)?;
    line.text("stage", name)?;
    line.end_object()
}

/// Adds since what and by what a stage completed, or what it waits for.
pub(crate) fn push_because(line: &mut Line, because: &Because<'_>) -> Result<(), AllocError>
    ensures { OnOk result (Tells (object (because_members because.now)) line.old line.new) }
{
    match because {
        Because::Created(tick) => push_created(line, *tick),
        Because::After(name) => push_kind_of_stage(line, "after", name.as_str()),
        Because::Inner(name) => push_kind_of_stage(line, "inner", name.as_str()),
        Because::Pinned => push_one_text(line, "kind", "pinned"),
        Because::Ended(kind) => push_ended(line, kind.as_str()),
        Because::Waiting(name) => push_kind_of_stage(line, "waits", name.as_str()),
        Because::Open => push_one_text(line, "kind", "open"),
    }
}

// It struck, and cut an action off after so many of its ticks.
fn push_cut_off(line: &mut Line, ran: u64, of: u64) -> Result<(), AllocError>
    ensures { OnOk result (Tells (object (fate_members (CutOff ran of))) line.old line.new) }
{
    line.begin_object()?;
    line.text("kind", "cutOff")?;
    line.count("of", of)?;
    line.count("ran", ran)?;
    line.end_object()
}

// It missed the stage by so many ticks.
fn push_missed(line: &mut Line, kind: &str, by: u64) -> Result<(), AllocError>
    ensures { OnOk result (Tells (object ((codes "kind", text kind.now) ∷ (codes "by", count by) ∷ [])) line.old line.new) }
{
    line.begin_object()?;
    line.count("by", by)?;
    line.text("kind", kind)?;
    line.end_object()
}

/// Adds what became of an end.
pub(crate) fn push_fate(line: &mut Line, fate: Fate) -> Result<(), AllocError>
    ensures { OnOk result (Tells (object (fate_members fate)) line.old line.new) }
{
    match fate {
        Fate::Struck => push_one_text(line, "kind", "struck"),
        Fate::CutOff { ran, of } => push_cut_off(line, ran, of),
        Fate::NotReached { by } => push_missed(line, "notReached", by),
        Fate::TooLate { by } => push_missed(line, "tooLate", by),
    }
}
