//! Expressions, read from JSON.
ghost use Rattle.std.specs.Prelude.{◌≡◌, Option, IfOk};
ghost use Rattle.recording.specs.Tables.{beside};
ghost use Rattle.recording.specs.ExpressionOf.{words, word_in, position_in, exception_in, expression_of, expressions_of, form_of};
ghost use Rattle.recording.specs.Reads.{Reads};

use crate::forms::value_in;
use crate::from_json::FromJson;
use crate::items::{is_empty, only, pair, triple};
use crate::unread::Unread;
use act_expr::{ExName, Expr, Form, Operator, Position};
use json_trees::{Items, Tree};
use std::alloc::Global;

/// The first item of an expression that is an array.
#[derive(Clone, Copy, PartialEq, Eq, Debug)]
pub(crate) enum Word {
    Argument,
    Binary(Operator),
    If,
    IsNull,
    Failed,
    IsWrapped,
    CauseIs,
    Throw,
}

impl Word {
    /// The word that a text is, if it is one.
    fn new(text: &str) -> Option<Word>
        ensures { result ≡ beside words text.now }
    {
        match text {
            "arg" => Some(Word::Argument),
            "add" => Some(Word::Binary(Operator::Add)),
            "sub" => Some(Word::Binary(Operator::Sub)),
            "mul" => Some(Word::Binary(Operator::Mul)),
            "div" => Some(Word::Binary(Operator::Div)),
            "lt" => Some(Word::Binary(Operator::Lt)),
            "eq" => Some(Word::Binary(Operator::Eq)),
            "if" => Some(Word::If),
            "isnull" => Some(Word::IsNull),
            "failed" => Some(Word::Failed),
            "iswrapped" => Some(Word::IsWrapped),
            "causeis" => Some(Word::CauseIs),
            "throw" => Some(Word::Throw),
            _ => None,
        }
    }
}

fn word_in(value: &Tree<'_, '_>) -> Option<Word>
    ensures { result ≡ word_in value.now }
{
    Word::new(value.as_str()?)
}

fn position_in(value: &Tree<'_, '_>) -> Option<Position>
    ensures { result ≡ position_in value.now }
{
    match value.as_u64()? {
        0 => Some(Position::First),
        1 => Some(Position::Second),
        _ => None,
    }
}

pub(crate) fn exception_in(value: &Tree<'_, '_>) -> Option<ExName>
    ensures { result ≡ exception_in value.now }
{
    ExName::new(value.as_str()?)
}

impl FromJson for ExName {
    ghost form = { exception_in };

    fn from_json(_: Global, value: &Tree<'_, '_>) -> Result<ExName, Unread> {
        exception_in(value).ok_or(Unread::Shape)
    }
}

/// The expression of a word and the items after it.
#[cycle(expression)]
fn read_form(alloc: Global, word: Word, operands: Items<'_, '_>) -> Result<Expr, Unread>
    ensures { Reads result (form_of word operands.entry (expressions_of operands.entry)) }
{
    match word {
        Word::Argument => {
            let Some(position) = only(operands) else {
                return Err(Unread::Shape);
            };
            let Some(position) = position_in(&position) else {
                return Err(Unread::Shape);
            };
            Ok(Expr::new(alloc, Form::Argument(position))?)
        }
        Word::Binary(operator) => {
            let Some((left, right)) = pair(operands) else {
                return Err(Unread::Shape);
            };
            let left = read_expression(alloc, &left)?;
            let right = read_expression(alloc, &right)?;
            Ok(Expr::new(alloc, Form::Binary(operator, left, right))?)
        }
        Word::If => {
            let Some((condition, first, second)) = triple(operands) else {
                return Err(Unread::Shape);
            };
            let condition = read_expression(alloc, &condition)?;
            let first = read_expression(alloc, &first)?;
            let second = read_expression(alloc, &second)?;
            Ok(Expr::new(alloc, Form::If(condition, first, second))?)
        }
        Word::IsNull => {
            let Some(operand) = only(operands) else {
                return Err(Unread::Shape);
            };
            let operand = read_expression(alloc, &operand)?;
            Ok(Expr::new(alloc, Form::IsNull(operand))?)
        }
        Word::Failed => {
            if !is_empty(operands) {
                return Err(Unread::Shape);
            }
            Ok(Expr::new(alloc, Form::Failed)?)
        }
        Word::IsWrapped => {
            if !is_empty(operands) {
                return Err(Unread::Shape);
            }
            Ok(Expr::new(alloc, Form::IsWrapped)?)
        }
        Word::CauseIs => {
            let Some(name) = only(operands) else {
                return Err(Unread::Shape);
            };
            let Some(name) = exception_in(&name) else {
                return Err(Unread::Shape);
            };
            Ok(Expr::new(alloc, Form::cause_is(alloc, name)?)?)
        }
        Word::Throw => {
            let Some(name) = only(operands) else {
                return Err(Unread::Shape);
            };
            let Some(name) = exception_in(&name) else {
                return Err(Unread::Shape);
            };
            Ok(Expr::new(alloc, Form::throw(alloc, name)?)?)
        }
    }
}

/// The expression that a JSON value is. It recurses no deeper than JSON is nested, which is 127 levels.
#[cycle(expression)]
fn read_expression(alloc: Global, value: &Tree<'_, '_>) -> Result<Expr, Unread>
    ensures { Reads result (expression_of value.now) }
{
    let Some(mut operands) = value.as_array() else {
        let Some(literal) = value_in(value) else {
            return Err(Unread::Shape);
        };
        return Ok(Expr::new(alloc, Form::Literal(literal))?);
    };
    let Some(head) = operands.next() else {
        return Err(Unread::Shape);
    };
    match word_in(&head) {
        Some(word) => read_form(alloc, word, operands),
        None => Err(Unread::Shape),
    }
}

impl FromJson for Expr {
    ghost form = { expression_of };

    fn from_json(alloc: Global, value: &Tree<'_, '_>) -> Result<Expr, Unread> {
        read_expression(alloc, value)
    }
}
