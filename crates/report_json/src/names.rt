//! Names of stages, and what `join` answers, in a line.
ghost use Rattle.std.specs.Prelude.{OnOk};
ghost use Rattle.stage_ops.specs.declared.state.Join.TheVariants.{Cancelled, Returns, Throws};
ghost use Rattle.report_rows.specs.Names.{bytes_of};
ghost use Rattle.report_json.specs.Heads.{join_members};
ghost use Rattle.report_json.specs.Json.{object};
ghost use Rattle.report_json.specs.Rows.{names_json};
ghost use Rattle.report_json.specs.Tokens.{Tells, TellsMember};

use crate::line::Line;
use crate::line_values::push_one_text;
use act_expr::Value;
use stage_ops::Join;
use std::alloc::AllocError;

// The names, in order.
fn push_names(line: &mut Line, names: &[&str]) -> Result<(), AllocError>
    ensures { OnOk result (Tells (names_json (bytes_of names.now)) line.old line.new) }
{
    line.begin_list()?;
    for name in names {
        line.string(name)?;
    }
    line.end_list()
}

/// Adds a member that is a list of names.
pub(crate) fn push_names_member(
    line: &mut Line,
    name: &str,
    names: &[&str],
) -> Result<(), AllocError>
    ensures { OnOk result (TellsMember name.now (names_json (bytes_of names.now)) line.old line.new) }
{
    line.name(name)?;
    push_names(line, names)
}

// A value is returned.
fn push_returned(line: &mut Line, value: Value) -> Result<(), AllocError>
    ensures { OnOk result (Tells (object (join_members (Returns value))) line.old line.new) }
{
    line.begin_object()?;
    line.text("kind", "returns")?;
    line.stage_value("value", value)?;
    line.end_object()
}

// The cancellation itself is thrown.
fn push_cancelled(line: &mut Line) -> Result<(), AllocError>
    ensures { OnOk result (Tells (object (join_members Cancelled)) line.old line.new) }
{
    line.begin_object()?;
    line.none("cause")?;
    line.text("exception", "java.util.concurrent.CancellationException")?;
    line.text("kind", "throws")?;
    line.end_object()
}

// A CompletionException with this cause is thrown.
fn push_thrown(line: &mut Line, cause: &str) -> Result<(), AllocError>
    ensures { OnOk result (Tells (object (join_members (Throws cause.now))) line.old line.new) }
{
    line.begin_object()?;
    line.text("cause", cause)?;
    line.text("exception", "java.util.concurrent.CompletionException")?;
    line.text("kind", "throws")?;
    line.end_object()
}

// What `join` answers.
fn push_join(line: &mut Line, join: &Join) -> Result<(), AllocError>
    ensures { OnOk result (Tells (object (join_members join.now)) line.old line.new) }
{
    match join {
        Join::Waits => push_one_text(line, "kind", "waits"),
        Join::Returns(value) => push_returned(line, *value),
        Join::Cancelled => push_cancelled(line),
        Join::Throws(name) => push_thrown(line, name.text()),
    }
}

/// Adds a member that is what `join` answers.
pub(crate) fn push_join_member(line: &mut Line, name: &str, join: &Join) -> Result<(), AllocError>
    ensures { OnOk result (TellsMember name.now (object (join_members join.now)) line.old line.new) }
{
    line.name(name)?;
    push_join(line, join)
}
