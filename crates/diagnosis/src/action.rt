//! What is wrong in an action.
use crate::finding::Found;
use crate::items::count_items;
use crate::wanted::Wanted;
use json_trees::{Items, Tree};
use std::alloc::{AllocError, Global};

/// How large an expression is.
#[derive(Clone, Copy)]
pub(crate) struct Size {
    pub nodes: usize,
    pub depth: usize,
}

/// What stands in the place of an expression, and what is wanted there.
type Mistake<'a> = (Found<'a>, Wanted);

/// Expressions that are still to be looked at, and how deep they stand.
#[derive(Drop)]
struct Waiting<'t, 'a> {
    items: Items<'t, 'a>,
    depth: usize,
}

/// What stands behind a word.
#[derive(Clone, Copy)]
enum Operands {
    /// The position of an argument.
    Position,
    /// The name of an exception.
    Name,
    /// So many expressions.
    Expressions(usize),
}

/// What stands behind a word, if it begins an expression.
fn operands_behind(word: &str) -> Option<Operands> {
    match word {
        "arg" => Some(Operands::Position),
        "causeis" | "throw" => Some(Operands::Name),
        "add" | "sub" | "mul" | "div" | "lt" | "eq" => Some(Operands::Expressions(2)),
        "if" => Some(Operands::Expressions(3)),
        "isnull" => Some(Operands::Expressions(1)),
        "failed" | "iswrapped" => Some(Operands::Expressions(0)),
        _ => None,
    }
}

/// How many operands stand behind the word of an expression.
fn operand_count(expression: &Tree<'_, '_>) -> usize {
    match expression.as_array() {
        Some(mut items) => count_items(&mut items).saturating_sub(1),
        None => 0,
    }
}

/// No expressions, where an operand that is none is what is wanted.
fn none_in<'t, 'a>(
    operand: &Tree<'t, 'a>,
    fits: bool,
    wanted: Wanted,
) -> Result<Items<'t, 'a>, Mistake<'a>> {
    if fits {
        Ok(Items::none())
    } else {
        Err((Found::of(operand), wanted))
    }
}

/// No expressions, where the only operand is what a word wants.
fn none_behind<'t, 'a>(
    expected: Operands,
    operand: &Tree<'t, 'a>,
) -> Result<Items<'t, 'a>, Mistake<'a>> {
    match expected {
        Operands::Position => {
            let fits = matches!(operand.as_u64(), Some(0 | 1));
            none_in(operand, fits, Wanted::Position)
        }
        _ => {
            let fits = Wanted::Exception.is_met_by(operand);
            none_in(operand, fits, Wanted::Exception)
        }
    }
}

/// The operands that are expressions themselves.
fn operands_of<'t, 'a>(value: &Tree<'t, 'a>) -> Result<Items<'t, 'a>, Mistake<'a>> {
    let Some(mut items) = value.as_array() else {
        return Err((Found::of(value), Wanted::Action));
    };
    let Some(head) = items.next() else {
        return Err((Found::of(value), Wanted::Action));
    };
    let Some(expected) = head.as_str().and_then(operands_behind) else {
        return Err((Found::of(&head), Wanted::Action));
    };
    let given = operand_count(value);
    let wanted = match expected {
        Operands::Expressions(count) => count,
        Operands::Position | Operands::Name => 1,
    };
    if given != wanted {
        return Err((Found::of(value), Wanted::Operands));
    }
    if let Operands::Expressions(_) = expected {
        return Ok(items);
    }
    match items.next() {
        Some(operand) => none_behind(expected, &operand),
        None => Err((Found::of(value), Wanted::Operands)),
    }
}

/// The expressions in an expression, or what is wrong there.
fn inner_of<'t, 'a>(value: &Tree<'t, 'a>) -> Result<Items<'t, 'a>, Mistake<'a>> {
    if value.is_array() {
        return operands_of(value);
    }
    if Wanted::Value.is_met_by(value) {
        return Ok(Items::none());
    }
    Err((Found::of(value), Wanted::Action))
}

/// The next expression that is to be looked at, and how deep it stands. Where no item is left on the last level, that is left.
fn next_waiting<'t, 'a>(waiting: &mut Vec<Waiting<'t, 'a>>) -> Option<(Tree<'t, 'a>, usize)> {
    for _ in 0..u64::MAX {
        let last = waiting.last_mut()?;
        let depth = last.depth;
        if let Some(value) = last.items.next() {
            return Some((value, depth));
        }
        waiting.pop();
    }
    None
}

/// Measures an expression: counts it, and makes those in it wait.
fn measure<'t, 'a>(
    waiting: &mut Vec<Waiting<'t, 'a>>,
    size: &mut Size,
    value: &Tree<'t, 'a>,
    depth: usize,
) -> Result<Result<(), Mistake<'a>>, AllocError> {
    size.nodes = size.nodes.saturating_add(1);
    size.depth = size.depth.max(depth);
    match inner_of(value) {
        Ok(items) => {
            let depth = depth.saturating_add(1);
            waiting.reserve(1)?;
            waiting.push_reserved(Waiting { items, depth });
            Ok(Ok(()))
        }
        Err(mistake) => Ok(Err(mistake)),
    }
}

/// How large an action is, or the first of its expressions that is none. It does not call itself.
pub(crate) fn action_fault<'a>(
    alloc: Global,
    action: &Tree<'_, 'a>,
) -> Result<Result<Size, Mistake<'a>>, AllocError> {
    let mut waiting = Vec::new(alloc);
    let mut size = Size { nodes: 0, depth: 0 };
    if let Err(mistake) = measure(&mut waiting, &mut size, action, 1)? {
        return Ok(Err(mistake));
    }
    for _ in 0..u64::MAX {
        let Some((value, depth)) = next_waiting(&mut waiting) else {
            break;
        };
        if let Err(mistake) = measure(&mut waiting, &mut size, &value, depth)? {
            return Ok(Err(mistake));
        }
    }
    Ok(Ok(size))
}
