//! Outcomes in a line.
ghost use Rattle.std.specs.Prelude.{◌∷◌, [], OnOk};
ghost use Rattle.report_json.specs.Json.{object, outcome_json, text, value_json};
ghost use Rattle.report_json.specs.Tokens.{Tells, TellsMember};

use crate::line::Line;
use act_expr::{Outcome, Value};
use std::alloc::AllocError;

/// Adds an object of one text.
pub(crate) fn push_one_text(line: &mut Line, name: &str, content: &str) -> Result<(), AllocError>
    ensures { OnOk result (Tells (object ((name.now, text content.now) ∷ [])) line.old line.new) }
{
    line.begin_object()?;
    line.text(name, content)?;
    line.end_object()
}

// An object of a value of a stage.
fn push_one_value(line: &mut Line, name: &str, content: Value) -> Result<(), AllocError>
    ensures { OnOk result (Tells (object ((name.now, value_json content) ∷ [])) line.old line.new) }
{
    line.begin_object()?;
    line.stage_value(name, content)?;
    line.end_object()
}

fn push_outcome(line: &mut Line, outcome: &Outcome) -> Result<(), AllocError>
    ensures { OnOk result (Tells (outcome_json outcome.now) line.old line.new) }
{
    match outcome {
        Outcome::Value(value) => push_one_value(line, "value", *value),
        Outcome::Bare(name) => push_one_text(line, "bare", name.text()),
        Outcome::Wrapped(name) => push_one_text(line, "wrapped", name.text()),
    }
}

/// Adds a member that is an outcome.
pub(crate) fn push_outcome_member(
    line: &mut Line,
    name: &str,
    outcome: &Outcome,
) -> Result<(), AllocError>
    ensures { OnOk result (TellsMember name.now (outcome_json outcome.now) line.old line.new) }
{
    line.name(name)?;
    push_outcome(line, outcome)
}
