//! The nodes of a text.
ghost use Rattle.std.specs.Prelude.{◌≡◌, option_map, is_some};
ghost use Rattle.serde_json.specs.View.{number_view};
ghost use Rattle.json_trees.specs.Cells.{cell, span, text_at, Texts};
ghost use Rattle.json_trees.specs.First.{boolean_in, is_array_cell, is_null_cell, is_object_cell, key_in, number_in, string_in};

use crate::numbers::{MINUS_ZERO, number_of};
use serde_json::Number;

/// A node: a value that is neither an array nor an object, the name of a member, or how many nodes an array or an object takes, this
/// one and those of its items or members, which come next.
///
/// It takes eight bytes. A text stands beside the nodes, in a list of its own, and takes sixteen there; its node has the place. A
/// value that two bytes write, as `""` and `-0`, needs no text. So the nodes and the texts of a JSON text take no more than seven
/// bytes for each of its bytes.
#[derive(Clone, Copy, Drop)]
pub(crate) enum Node {
    Null,
    Bool(bool),
    /// A whole number.
    Whole(u32),
    /// A whole number below zero.
    BelowZero(i32),
    /// The number that `-0` writes.
    MinusZero,
    /// The place of the text of another number.
    Number(u32),
    /// The text with no bytes.
    Empty,
    /// The place of another text.
    String(u32),
    /// The place of the name of a member.
    Key(u32),
    Array(u32),
    Object(u32),
}

/// The text at a place, and past the last place the empty one.
#[inline(always)]
fn text_at<'a>(texts: &[&'a str], place: u32) -> &'a str
    ensures { result.now ≡ text_at texts.now place }
{
    match texts.get(place as usize) {
        Some(text) => *text,
        None => "",
    }
}

impl Node {
    /// How many nodes the value takes that begins with this one.
    #[inline(always)]
    pub(crate) fn span(&self) -> usize
        ensures { (texts : Texts) → result ≡ span (cell texts self.now) }
    {
        match self {
            Node::Array(count) | Node::Object(count) => *count as usize,
            Node::Null
            | Node::Bool(_)
            | Node::Whole(_)
            | Node::BelowZero(_)
            | Node::MinusZero
            | Node::Number(_)
            | Node::Empty
            | Node::String(_)
            | Node::Key(_) => 1,
        }
    }

    /// The text, where this is one.
    #[inline(always)]
    pub(crate) fn as_str<'a>(&self, texts: &[&'a str]) -> Option<&'a str>
        ensures { option_map (λ t. t.now) result ≡ string_in (cell texts.now self.now) }
    {
        match self {
            Node::String(place) => Some(text_at(texts, *place)),
            Node::Empty => Some(""),
            _ => None,
        }
    }

    /// The name of a member, where this is one.
    #[inline(always)]
    pub(crate) fn as_key<'a>(&self, texts: &[&'a str]) -> Option<&'a str>
        ensures { option_map (λ t. t.now) result ≡ key_in (cell texts.now self.now) }
    {
        match self {
            Node::Key(place) => Some(text_at(texts, *place)),
            _ => None,
        }
    }

    /// The number, where this is one.
    #[inline(always)]
    pub(crate) fn as_number(&self, texts: &[&str]) -> Option<Number>
        ensures { option_map number_view result ≡ number_in (cell texts.now self.now) }
    {
        match self {
            Node::Whole(integer) => Some(Number::from(*integer)),
            Node::BelowZero(integer) => Some(Number::from(*integer)),
            Node::MinusZero => number_of(MINUS_ZERO),
            Node::Number(place) => number_of(text_at(texts, *place)),
            _ => None,
        }
    }

    /// The truth value, where this is one.
    #[inline(always)]
    pub(crate) fn as_bool(&self) -> Option<bool>
        ensures { (texts : Texts) → result ≡ boolean_in (cell texts self.now) }
    {
        match self {
            Node::Bool(flag) => Some(*flag),
            _ => None,
        }
    }

    /// Whether this is null.
    #[inline(always)]
    pub(crate) fn is_null(&self) -> bool
        ensures { (texts : Texts) → result ≡ is_null_cell (cell texts self.now) }
    {
        matches!(self, Node::Null)
    }

    /// Whether an array begins here.
    #[inline(always)]
    pub(crate) fn is_array(&self) -> bool
        ensures { (texts : Texts) → result ≡ is_array_cell (cell texts self.now) }
    {
        matches!(self, Node::Array(_))
    }

    /// Whether an object begins here.
    #[inline(always)]
    pub(crate) fn is_object(&self) -> bool
        ensures { (texts : Texts) → result ≡ is_object_cell (cell texts self.now) }
    {
        matches!(self, Node::Object(_))
    }
}
