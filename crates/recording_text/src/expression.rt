//! The tokens of expressions.
ghost use Rattle.std.specs.Prelude.{◌≡◌, ◌++◌, ◌∷◌, [], OnOk, codes};
ghost use Rattle.json.specs.Token.{begin_array, end_array, string};
ghost use Rattle.json.specs.Tree.{json_tokens};
ghost use Rattle.act_expr.specs.Expression.{argument, binary, conditional, is_null};
ghost use Rattle.recording.specs.Written.{operator_text};
ghost use Rattle.recording_text.specs.Json.{action_json, value_json};

use crate::line::Line;
use act_expr::{ExName, Expr, Form, Operator, Position, Value};
use json::Token;
use std::alloc::AllocError;

/// Adds a value.
pub(crate) fn push_value(line: &mut Line, value: Value) -> Result<(), AllocError>
    ensures { OnOk result (line.new ≡ line.old ++ json_tokens (value_json value)) }
{
    match value {
        Value::Null => line.token(Token::Null),
        Value::Num(amount) => line.number(amount),
    }
}

fn operator_text(operator: Operator) -> &'static str
    ensures { result.now ≡ operator_text operator }
{
    match operator {
        Operator::Add => "add",
        Operator::Sub => "sub",
        Operator::Mul => "mul",
        Operator::Div => "div",
        Operator::Lt => "lt",
        Operator::Eq => "eq",
    }
}

/// Opens an array and adds the word with which it begins.
fn push_word(line: &mut Line, word: &str) -> Result<(), AllocError>
    ensures { OnOk result (line.new ≡ line.old ++ begin_array ∷ string word.now ∷ []) }
{
    line.token(Token::BeginArray)?;
    line.text(word)
}

fn push_argument(line: &mut Line, position: Position) -> Result<(), AllocError>
    ensures { OnOk result (line.new ≡ line.old ++ json_tokens (action_json (argument position))) }
{
    push_word(line, "arg")?;
    match position {
        Position::First => line.count(0)?,
        Position::Second => line.count(1)?,
    }
    line.token(Token::EndArray)
}

/// Adds a word alone.
fn push_only_word(line: &mut Line, word: &str) -> Result<(), AllocError>
    ensures { OnOk result (line.new ≡ line.old ++ begin_array ∷ string word.now ∷ end_array ∷ []) }
{
    push_word(line, word)?;
    line.token(Token::EndArray)
}

/// Adds a word with the name of an exception.
fn push_named_word(line: &mut Line, word: &str, name: ExName) -> Result<(), AllocError>
    ensures { OnOk result (line.new ≡ line.old ++ begin_array ∷ string word.now ∷ string name ∷ end_array ∷ []) }
{
    push_word(line, word)?;
    line.text(name.text())?;
    line.token(Token::EndArray)
}

/// Adds an operator with its operands.
#[cycle(expression)]
fn push_binary(
    line: &mut Line,
    operator: Operator,
    left: &Expr,
    right: &Expr,
) -> Result<(), AllocError>
    ensures { OnOk result (line.new ≡ line.old ++ json_tokens (action_json (binary operator left.now right.now))) }
{
    push_word(line, operator_text(operator))?;
    push_expression(line, left)?;
    push_expression(line, right)?;
    line.token(Token::EndArray)
}

/// Adds a condition with both branches.
#[cycle(expression)]
fn push_conditional(
    line: &mut Line,
    condition: &Expr,
    first: &Expr,
    second: &Expr,
) -> Result<(), AllocError>
    ensures { OnOk result (line.new ≡ line.old ++ json_tokens (action_json (conditional condition.now first.now second.now))) }
{
    push_word(line, "if")?;
    push_expression(line, condition)?;
    push_expression(line, first)?;
    push_expression(line, second)?;
    line.token(Token::EndArray)
}

/// Adds the test for null.
#[cycle(expression)]
fn push_is_null(line: &mut Line, operand: &Expr) -> Result<(), AllocError>
    ensures { OnOk result (line.new ≡ line.old ++ json_tokens (action_json (is_null operand.now))) }
{
    push_word(line, "isnull")?;
    push_expression(line, operand)?;
    line.token(Token::EndArray)
}

/// Adds an expression.
#[cycle(expression)]
pub(crate) fn push_expression(line: &mut Line, expression: &Expr) -> Result<(), AllocError>
    ensures { OnOk result (line.new ≡ line.old ++ json_tokens (action_json expression.now)) }
{
    match expression.form() {
        Form::Literal(value) => push_value(line, *value),
        Form::Argument(position) => push_argument(line, *position),
        Form::Binary(operator, left, right) => push_binary(line, *operator, left, right),
        Form::If(condition, first, second) => push_conditional(line, condition, first, second),
        Form::IsNull(operand) => push_is_null(line, operand),
        Form::Failed => push_only_word(line, "failed"),
        Form::IsWrapped => push_only_word(line, "iswrapped"),
        Form::CauseIs(name) => push_named_word(line, "causeis", **name),
        Form::Throw(name) => push_named_word(line, "throw", **name),
    }
}
