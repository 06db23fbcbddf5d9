//! The tokens of members, each left out where it has its default.
ghost use Rattle.std.specs.Prelude.{◌≡◌, ◌++◌, ◌∷◌, [], OnOk, map, codes, option_map};
ghost use Rattle.stage_graph.specs.Plain.{stage_at};
ghost use Rattle.json.specs.Json.{string};
ghost use Rattle.json.specs.Tree.{json_tokens, members_tokens};
ghost use Rattle.json.specs.Token.{end_array, key};
ghost use Rattle.json.specs.Token as token;
ghost use Rattle.recording_text.specs.Named.{name_at};
ghost use Rattle.recording_text.specs.Json.{action_json, count, end_json, list_tokens, outcome_json, row, row_tokens, act_rows, members_of, some_count, some_of, value_json};

use crate::expression::{push_expression, push_value};
use crate::line::Line;
use act_expr::{ExName, Expr, Outcome, Value};
use json::Token;
use stage_graph::{Act, End, Graph, Name, NameList, Representation};
use std::alloc::AllocError;

/// Adds a member that is a text.
pub(crate) fn push_text(line: &mut Line, name: &str, content: &str) -> Result<(), AllocError>
    ensures { OnOk result (line.new ≡ line.old ++ key name.now ∷ token.string content.now ∷ []) }
{
    line.key(name)?;
    line.text(content)
}

/// Adds a member that is the name of an exception.
pub(crate) fn push_exception(
    line: &mut Line,
    name: &str,
    exception: ExName,
) -> Result<(), AllocError>
    ensures { OnOk result (line.new ≡ line.old ++ row_tokens (row name.now (string exception))) }
{
    push_text(line, name, exception.text())
}

/// Adds a member that is a value.
pub(crate) fn push_named_value(line: &mut Line, name: &str, value: Value) -> Result<(), AllocError>
    ensures { OnOk result (line.new ≡ line.old ++ row_tokens (row name.now (value_json value))) }
{
    line.key(name)?;
    push_value(line, value)
}

/// Adds a member that is a count.
pub(crate) fn push_count(line: &mut Line, name: &str, amount: u64) -> Result<(), AllocError>
    ensures { OnOk result (line.new ≡ line.old ++ row_tokens (row name.now (count amount))) }
{
    line.key(name)?;
    line.count(amount)
}

/// Adds a member that is a count, but for 0.
pub(crate) fn push_some_count(line: &mut Line, name: &str, amount: u64) -> Result<(), AllocError>
    ensures { OnOk result (line.new ≡ line.old ++ row_tokens (name.now, some_count amount)) }
{
    if amount > 0 {
        push_count(line, name, amount)
    } else {
        Ok(())
    }
}

/// The name of the stage at a place.
fn name_at<R: Representation>(graph: &Graph<R>, place: u32) -> &str
    ensures { result.now ≡ name_at graph.now.places place }
{
    match graph.stage(place) {
        Some(stage) => stage.name.as_str(),
        None => "",
    }
}

/// Adds the names of stages.
fn push_names<R: Representation>(
    line: &mut Line,
    graph: &Graph<R>,
    places: &[u32],
) -> Result<(), AllocError>
    ensures { OnOk result (line.new ≡ line.old ++ list_tokens string (map (name_at graph.now.places) places.now)) }
{
    for place in places {
        line.text(name_at(graph, *place))?;
    }
    Ok(())
}

/// Adds a member that has the names of stages, where there are some.
pub(crate) fn push_some_names<R: Representation>(
    line: &mut Line,
    name: &str,
    graph: &Graph<R>,
    places: &[u32],
) -> Result<(), AllocError>
    ensures { OnOk result (line.new ≡ line.old ++ row_tokens (name.now, some_of string (map (name_at graph.now.places) places.now))) }
{
    if places.is_empty() {
        return Ok(());
    }
    line.key(name)?;
    line.token(Token::BeginArray)?;
    push_names(line, graph, places)?;
    line.token(Token::EndArray)
}

/// Adds names.
fn push_each_name(line: &mut Line, names: &[Name]) -> Result<(), AllocError>
    ensures { OnOk result (line.new ≡ line.old ++ list_tokens string names.now) }
{
    for name in names {
        line.text(name.as_str())?;
    }
    Ok(())
}

/// Adds a member that has names, where there are some.
pub(crate) fn push_named_list(
    line: &mut Line,
    name: &str,
    names: &NameList,
) -> Result<(), AllocError>
    ensures { OnOk result (line.new ≡ line.old ++ row_tokens (name.now, some_of string names.now)) }
{
    if names.as_slice().is_empty() {
        return Ok(());
    }
    line.key(name)?;
    line.token(Token::BeginArray)?;
    push_each_name(line, names.as_slice())?;
    line.token(Token::EndArray)
}

/// Adds the action, where there is one.
pub(crate) fn push_action(line: &mut Line, action: &Option<Expr>) -> Result<(), AllocError>
    ensures { OnOk result (line.new ≡ line.old ++ row_tokens (codes "action", option_map action_json action.now)) }
{
    match action {
        Some(expression) => {
            line.key("action")?;
            push_expression(line, expression)
        }
        None => Ok(()),
    }
}

/// Adds an outcome.
fn push_outcome(line: &mut Line, outcome: Outcome) -> Result<(), AllocError>
    ensures { OnOk result (line.new ≡ line.old ++ json_tokens (outcome_json outcome)) }
{
    line.token(Token::BeginObject)?;
    match outcome {
        Outcome::Value(value) => push_named_value(line, "value", value)?,
        Outcome::Bare(name) => push_exception(line, "bare", name)?,
        Outcome::Wrapped(name) => push_exception(line, "wrapped", name)?,
    }
    line.token(Token::EndObject)
}

/// Adds the outcome that is pinned, where one is.
pub(crate) fn push_pin_result(line: &mut Line, pin: Option<Outcome>) -> Result<(), AllocError>
    ensures { OnOk result (line.new ≡ line.old ++ row_tokens (codes "pinResult", option_map outcome_json pin)) }
{
    match pin {
        Some(outcome) => {
            line.key("pinResult")?;
            push_outcome(line, outcome)
        }
        None => Ok(()),
    }
}

/// Adds the moment that is pinned, where one is.
pub(crate) fn push_pin_moment(line: &mut Line, pin: Option<u64>) -> Result<(), AllocError>
    ensures { OnOk result (line.new ≡ line.old ++ row_tokens (codes "pinMoment", option_map count pin)) }
{
    match pin {
        Some(moment) => push_count(line, "pinMoment", moment),
        None => Ok(()),
    }
}

/// Adds the members of what an end does, and closes the end.
fn push_act(line: &mut Line, act: Act) -> Result<(), AllocError>
    ensures { OnOk result (line.new ≡ line.old ++ members_tokens (members_of (act_rows act))) }
{
    match act {
        Act::Complete(value) => {
            push_text(line, "do", "complete")?;
            push_named_value(line, "value", value)?;
            line.token(Token::EndObject)
        }
        Act::CompleteExceptionally(name) => {
            push_text(line, "do", "completeExceptionally")?;
            push_exception(line, "throws", name)?;
            line.token(Token::EndObject)
        }
        Act::Cancel => {
            push_text(line, "do", "cancel")?;
            line.token(Token::EndObject)
        }
        Act::OrTimeout { delay } => {
            push_text(line, "do", "orTimeout")?;
            push_count(line, "delay", delay)?;
            line.token(Token::EndObject)
        }
        Act::CompleteOnTimeout { delay, value } => {
            push_text(line, "do", "completeOnTimeout")?;
            push_count(line, "delay", delay)?;
            push_named_value(line, "value", value)?;
            line.token(Token::EndObject)
        }
    }
}

/// Adds an end.
fn push_end(line: &mut Line, end: End) -> Result<(), AllocError>
    ensures { OnOk result (line.new ≡ line.old ++ json_tokens (end_json end)) }
{
    line.token(Token::BeginObject)?;
    push_count(line, "at", end.at)?;
    push_act(line, end.act)
}

/// Adds ends.
fn push_each_end(line: &mut Line, ends: &[End]) -> Result<(), AllocError>
    ensures { OnOk result (line.new ≡ line.old ++ list_tokens end_json ends.now) }
{
    for end in ends {
        push_end(line, *end)?;
    }
    Ok(())
}

/// Adds the ends, where there are some.
pub(crate) fn push_ends(line: &mut Line, ends: &[End]) -> Result<(), AllocError>
    ensures { OnOk result (line.new ≡ line.old ++ row_tokens (codes "ends", some_of end_json ends.now)) }
{
    if ends.is_empty() {
        return Ok(());
    }
    line.key("ends")?;
    line.token(Token::BeginArray)?;
    push_each_end(line, ends)?;
    line.token(Token::EndArray)
}
