//! The members and the elements of a JSON text, one after the other, with the way to each.
use crate::scanner::{Open, Scanned, after_blanks, after_token};
use crate::syntax::Expected;
use std::alloc::{AllocError, Global};

/// A part of the way to a value.
#[derive(Clone, Copy)]
pub(crate) enum Turn<'a> {
    /// To the member of this name, which stands here as it is written, with its escapes.
    Member(&'a [u8]),
    /// To the element of this index.
    Element(usize),
}

/// What the next token begins.
#[derive(Clone, Copy)]
enum Beginning {
    Member,
    /// The first member of an object.
    FirstMember,
    Element,
    /// The first element of an array.
    FirstElement,
    Other,
}

/// Goes over a JSON text.
#[derive(Drop)]
pub(crate) struct Walk<'a> {
    /// What is still to be gone over, from the next token on.
    rest: &'a [u8],
    expected: Expected,
    open: Vec<Open>,
    /// The way to the last member or element.
    way: Vec<Turn<'a>>,
    /// The line of the last member or element, from 1.
    line: usize,
    /// The line of the next token.
    next_line: usize,
    /// Whether the last is the first member of its object.
    is_first: bool,
}

/// What a token begins that stands in an array, in an object or in neither.
fn beginning_at(token: &[u8], expected: Expected, container: Option<Open>) -> Beginning {
    match (expected, token, container) {
        (Expected::NameOrBrace, [b'"', ..], _) => Beginning::FirstMember,
        (Expected::Name, _, _) => Beginning::Member,
        (Expected::ValueOrBracket, [b']', ..], _) => Beginning::Other,
        (Expected::ValueOrBracket, _, _) => Beginning::FirstElement,
        (Expected::Value, _, Some(Open::Array)) => Beginning::Element,
        _ => Beginning::Other,
    }
}

/// How many lines end at the front, up to what comes behind it.
fn lines_before(bytes: &[u8], behind: &[u8]) -> usize {
    let length = bytes.len().saturating_sub(behind.len());
    bytes
        .iter()
        .take(length)
        .filter(|byte| **byte == b'\n')
        .count()
}

/// The text at the front, without its quotes.
fn text_before<'a>(token: &'a [u8], behind: &[u8]) -> &'a [u8] {
    let end = token.len().saturating_sub(behind.len()).saturating_sub(1);
    token.get(1..end).unwrap_or(b"")
}

impl<'a> Walk<'a> {
    /// At the beginning of a text.
    pub(crate) fn new(alloc: Global, text: &'a [u8]) -> Walk<'a> {
        let rest = after_blanks(text);
        let line = lines_before(text, rest).saturating_add(1);
        Walk {
            rest,
            expected: Expected::Value,
            open: Vec::new(alloc),
            way: Vec::new(alloc),
            line,
            next_line: line,
            is_first: false,
        }
    }

    /// The way to the last member or element.
    pub(crate) fn way(&self) -> &[Turn<'a>] {
        self.way.as_slice()
    }

    /// The line of the last member or element, from 1.
    pub(crate) fn line(&self) -> usize {
        self.line
    }

    /// Whether the last is the first member of its object.
    pub(crate) fn is_first_member(&self) -> bool {
        self.is_first
    }

    /// The index behind that of the last element of the innermost array.
    fn next_index(&self, depth: usize) -> usize {
        match self.way.as_slice().get(depth.saturating_sub(1)) {
            Some(Turn::Element(index)) => index.saturating_add(1),
            _ => 0,
        }
    }

    /// Takes the way to what a token begins, if it begins something. The answer is whether it does.
    fn turn(
        &mut self,
        depth: usize,
        token: &'a [u8],
        begun: Beginning,
    ) -> Result<bool, AllocError> {
        let turn = match begun {
            Beginning::Member | Beginning::FirstMember => Turn::Member(token),
            Beginning::Element => Turn::Element(self.next_index(depth)),
            Beginning::FirstElement => Turn::Element(0),
            Beginning::Other => return Ok(false),
        };
        self.is_first = matches!(begun, Beginning::FirstMember);
        self.way.truncate(depth.saturating_sub(1));
        self.way.push(turn)?;
        Ok(true)
    }

    /// Goes past a token. The answer is whether it begins a member or an element.
    fn pass(&mut self) -> Result<bool, AllocError> {
        let (token, depth) = (self.rest, self.open.len());
        let begun = beginning_at(token, self.expected, self.open.last().copied());
        match after_token(token, self.expected, &mut self.open) {
            Ok((behind, next)) => {
                self.line = self.next_line;
                self.rest = after_blanks(behind);
                self.next_line = self.line.saturating_add(lines_before(behind, self.rest));
                self.expected = next;
                self.turn(depth, text_before(token, behind), begun)
            }
            Err(Scanned::Memory) => Err(AllocError),
            Err(Scanned::Stop(_)) => {
                self.rest = &[];
                Ok(false)
            }
        }
    }

    /// Goes on to the next member or element. The answer is whether there is one, as far as the text is JSON.
    pub(crate) fn go_on(&mut self) -> Result<bool, AllocError> {
        for _ in 0..self.rest.len() {
            if self.rest.is_empty() {
                break;
            }
            if self.pass()? {
                return Ok(true);
            }
        }
        Ok(false)
    }
}
