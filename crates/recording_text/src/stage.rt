//! The line of a stage.
ghost use Rattle.std.specs.Prelude.{◌≡◌, ◌++◌, [], ◌∷◌, IfOk, OnOk, codes, map};
ghost use Rattle.json.specs.Tree.{json_tokens};
ghost use Rattle.recording_text.specs.Json.{feed_rows, op_rows, outcome_rows, row_tokens, rows_tokens, stage_json, throws_of, time_rows, value_of};
ghost use Rattle.recording_text.specs.Named.{name_at, named_stage};
ghost use Rattle.recording_text.specs.Texts.{stage_text};

use crate::line::Line;
use crate::members::{
    push_action, push_ends, push_exception, push_named_value, push_pin_moment, push_pin_result,
    push_some_count, push_some_names, push_text,
};
use act_expr::{Expr, Outcome};
use json::Token;
use stage_graph::{End, Graph, Op, Representation, Stage};
use std::alloc::{AllocError, Global};

/// Adds the value of a completed stage.
fn push_value_of(line: &mut Line, op: Op) -> Result<(), AllocError>
    ensures { OnOk result (line.new ≡ line.old ++ row_tokens (codes "value", value_of op)) }
{
    match op {
        Op::Completed(value) => push_named_value(line, "value", value),
        _ => Ok(()),
    }
}

/// Adds the exception of a failed stage.
fn push_throws_of(line: &mut Line, op: Op) -> Result<(), AllocError>
    ensures { OnOk result (line.new ≡ line.old ++ row_tokens (codes "throws", throws_of op)) }
{
    match op {
        Op::Failed(name) => push_exception(line, "throws", name),
        _ => Ok(()),
    }
}

/// Adds the name and the operation of a stage.
pub(crate) fn push_op(line: &mut Line, name: &str, op: Op) -> Result<(), AllocError>
    ensures { OnOk result (line.new ≡ line.old ++ rows_tokens (op_rows name.now op)) }
{
    push_text(line, "name", name)?;
    push_text(line, "op", op.text())?;
    push_value_of(line, op)?;
    push_throws_of(line, op)
}

/// Adds the names of the stages that feed a stage.
fn push_feeds<R: Representation>(
    line: &mut Line,
    graph: &Graph<R>,
    sources: &[u32],
    inner: &[u32],
) -> Result<(), AllocError>
    ensures { OnOk result (line.new ≡ line.old ++ rows_tokens (feed_rows (map (name_at graph.now.places) sources.now) (map (name_at graph.now.places) inner.now))) }
{
    push_some_names(line, "sources", graph, sources)?;
    push_some_names(line, "inner", graph, inner)
}

/// Adds the times of a stage.
pub(crate) fn push_times(
    line: &mut Line,
    created: u64,
    queued: u64,
    runs: u64,
) -> Result<(), AllocError>
    ensures { OnOk result (line.new ≡ line.old ++ rows_tokens (time_rows created queued runs)) }
{
    push_some_count(line, "created", created)?;
    push_some_count(line, "queued", queued)?;
    push_some_count(line, "runs", runs)
}

/// Adds the action of a stage, its pins and its ends.
pub(crate) fn push_outcome_members(
    line: &mut Line,
    action: &Option<Expr>,
    pin_result: Option<Outcome>,
    pin_moment: Option<u64>,
    ends: &[End],
) -> Result<(), AllocError>
    ensures { OnOk result (line.new ≡ line.old ++ rows_tokens (outcome_rows action.now pin_result pin_moment ends.now)) }
{
    push_action(line, action)?;
    push_pin_result(line, pin_result)?;
    push_pin_moment(line, pin_moment)?;
    push_ends(line, ends)
}

/// Adds a stage.
pub(crate) fn push_stage<R: Representation>(
    line: &mut Line,
    graph: &Graph<R>,
    stage: &Stage,
) -> Result<(), AllocError>
    ensures { OnOk result (line.new ≡ line.old ++ json_tokens (stage_json (named_stage graph.now.places stage.now))) }
{
    line.token(Token::BeginObject)?;
    push_op(line, stage.name.as_str(), stage.op)?;
    push_feeds(
        line,
        graph,
        stage.sources.as_slice(),
        stage.inner.as_slice(),
    )?;
    push_times(line, stage.created, stage.queued, stage.runs)?;
    push_outcome_members(
        line,
        &stage.action,
        stage.pin_result,
        stage.pin_moment,
        stage.ends.as_slice(),
    )?;
    line.token(Token::EndObject)
}

/// The JSON of a stage, without a space.
pub(crate) fn stage_line<R: Representation>(
    alloc: Global,
    graph: &Graph<R>,
    stage: &Stage,
) -> Result<Vec<u8>, AllocError>
    ensures { IfOk result (λ line. line.items ≡ stage_text (named_stage graph.now.places stage.now)) }
{
    let mut line = Line::new(alloc)?;
    push_stage(&mut line, graph, stage)?;
    Ok(line.into_bytes())
}
