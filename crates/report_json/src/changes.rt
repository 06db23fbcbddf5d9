//! Single changes of stages, in a line.
ghost use Rattle.std.specs.Prelude.{OnOk};
ghost use Rattle.report_rows.specs.declared.tried_change.TriedChange.TheVariants.{NoFailure, TwiceTheDelay, WithoutEnd};
ghost use Rattle.report_json.specs.Changes.{tried_members};
ghost use Rattle.report_json.specs.Json.{object};
ghost use Rattle.report_json.specs.Tokens.{Tells};

use crate::line::Line;
use crate::line_values::push_one_text;
use act_expr::Value;
use report_rows::{LentEnd, TriedChange};
use std::alloc::AllocError;

// An exception did not arise.
fn push_no_failure(line: &mut Line, value: Value) -> Result<(), AllocError>
    ensures { OnOk result (Tells (object (tried_members (NoFailure value))) line.old line.new) }
{
    line.begin_object()?;
    line.text("kind", "noFailure")?;
    line.stage_value("value", value)?;
    line.end_object()
}

// An end is taken away.
fn push_without_end(
    line: &mut Line,
    index: usize,
    end: &LentEnd<'_>,
    is_only: bool,
) -> Result<(), AllocError>
    ensures { OnOk result (Tells (object (tried_members (WithoutEnd index end.now is_only))) line.old line.new) }
{
    let at = end.set_at();
    let delay = end.delay();
    let kind = end.kind();
    line.begin_object()?;
    line.count("at", at)?;
    line.optional_count("delay", delay)?;
    line.text("do", kind)?;
    line.count("end", index as u64)?;
    line.text("kind", "withoutEnd")?;
    line.flag("only", is_only)?;
    line.end_object()
}

// A timeout has twice the delay.
fn push_longer_end(
    line: &mut Line,
    index: usize,
    end: &LentEnd<'_>,
    is_only: bool,
) -> Result<(), AllocError>
    ensures { OnOk result (Tells (object (tried_members (TwiceTheDelay index end.now is_only))) line.old line.new) }
{
    let at = end.set_at();
    let delay = end.delay();
    let kind = end.kind();
    let longer = end.longer();
    line.begin_object()?;
    line.count("at", at)?;
    line.optional_count("delay", delay)?;
    line.text("do", kind)?;
    line.count("end", index as u64)?;
    line.text("kind", "twiceTheDelay")?;
    line.optional_count("longer", longer)?;
    line.flag("only", is_only)?;
    line.end_object()
}

/// Adds a change of a stage.
pub(crate) fn push_tried(line: &mut Line, change: &TriedChange<'_>) -> Result<(), AllocError>
    ensures { OnOk result (Tells (object (tried_members change.now)) line.old line.new) }
{
    match change {
        TriedChange::NoTime => push_one_text(line, "kind", "noTime"),
        TriedChange::NotQueued => push_one_text(line, "kind", "notQueued"),
        TriedChange::NoFailure { value } => push_no_failure(line, *value),
        TriedChange::WithoutEnd {
            index,
            end,
            is_only,
        } => push_without_end(line, *index, end, *is_only),
        TriedChange::TwiceTheDelay {
            index,
            end,
            is_only,
        } => push_longer_end(line, *index, end, *is_only),
    }
}
