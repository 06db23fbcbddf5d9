//! Labels: texts that a recording bears beside what is read of it.
ghost use Rattle.std.specs.Prelude.{◌≡◌, ◌++◌, IfOk, None, OnOk, map};
ghost use Rattle.json.specs.Tree.{json_tokens};
ghost use Rattle.recording_text.specs.Json.{feed_rows, row_tokens, rows_tokens};
ghost use Rattle.recording_text.specs.Labels.{group_row, label_rows, labelled_head, labelled_json, labelled_text, plain_group, plain_head, plain_label};

use crate::line::Line;
use crate::members::{push_count, push_named_list, push_text};
use crate::stage::{push_op, push_outcome_members, push_times};
use json::Token;
use stage_graph::{NameList, Spec};
use std::alloc::{AllocError, Global};

/// A name, and the text that stands by it.
#[derive(Clone, Copy)]
pub struct Label<'a> {
    pub name: &'a str,
    pub text: &'a str,
}

/// A name, and the labels that stand by it.
#[derive(Clone, Copy)]
pub struct LabelGroup<'a> {
    pub name: &'a str,
    pub labels: &'a [Label<'a>],
}

/// What a recording bears beside its stages.
#[derive(Clone, Copy)]
pub struct Head<'a> {
    pub labels: &'a [Label<'a>],
    /// Left out where it has no labels.
    pub group: LabelGroup<'a>,
}

/// Adds labels.
fn push_labels(line: &mut Line, labels: &[Label<'_>]) -> Result<(), AllocError>
    ensures { OnOk result (line.new ≡ line.old ++ rows_tokens (label_rows (map plain_label labels.now))) }
{
    for label in labels {
        push_text(line, label.name, label.text)?;
    }
    Ok(())
}

/// Adds a group of labels, if it has some.
fn push_group(line: &mut Line, group: LabelGroup<'_>) -> Result<(), AllocError>
    ensures { OnOk result (line.new ≡ line.old ++ row_tokens (group_row (plain_group group.entry))) }
{
    if group.labels.is_empty() {
        return Ok(());
    }
    line.key(group.name)?;
    line.token(Token::BeginObject)?;
    push_labels(line, group.labels)?;
    line.token(Token::EndObject)
}

/// What comes before the stages of a recording that bears labels.
pub(crate) fn labelled_head(alloc: Global, head: Head<'_>) -> Result<Vec<u8>, AllocError>
    ensures { IfOk result (λ text. text.items ≡ labelled_head None (plain_head head.entry)) }
{
    let mut line = Line::new(alloc)?;
    line.token(Token::BeginObject)?;
    push_count(&mut line, "form", 2)?;
    push_labels(&mut line, head.labels)?;
    push_group(&mut line, head.group)?;
    line.key("stages")?;
    line.token(Token::BeginArray)?;
    Ok(line.into_bytes())
}

/// Adds the names of the stages that feed a stage.
fn push_named_feeds(line: &mut Line, sources: &NameList, inner: &NameList) -> Result<(), AllocError>
    ensures { OnOk result (line.new ≡ line.old ++ rows_tokens (feed_rows sources.now inner.now)) }
{
    push_named_list(line, "sources", sources)?;
    push_named_list(line, "inner", inner)
}

/// Adds a stage that bears labels.
fn push_labelled(line: &mut Line, stage: &Spec, labels: &[Label<'_>]) -> Result<(), AllocError>
    ensures { OnOk result (line.new ≡ line.old ++ json_tokens (labelled_json stage.now (map plain_label labels.now))) }
{
    line.token(Token::BeginObject)?;
    push_op(line, stage.name.as_str(), stage.op)?;
    push_named_feeds(line, &stage.sources, &stage.inner)?;
    push_times(line, stage.created, stage.queued, stage.runs)?;
    push_outcome_members(
        line,
        &stage.action,
        stage.pin_result,
        stage.pin_moment,
        stage.ends.as_slice(),
    )?;
    push_labels(line, labels)?;
    line.token(Token::EndObject)
}

/// The JSON of a stage that bears labels, without a space.
pub(crate) fn labelled_text(
    alloc: Global,
    stage: &Spec,
    labels: &[Label<'_>],
) -> Result<Vec<u8>, AllocError>
    ensures { IfOk result (λ text. text.items ≡ labelled_text (stage.now, map plain_label labels.now)) }
{
    let mut line = Line::new(alloc)?;
    push_labelled(&mut line, stage, labels)?;
    Ok(line.into_bytes())
}
