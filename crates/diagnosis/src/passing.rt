//! Going once over the bytes of a JSON text, which is not read.
ghost use Rattle.std.specs.Prelude.{◌≤◌, IfSome, length};

use memchr::memchr2_iter;
use std::simd::prelude::*;

/// What looks at the texts of a JSON text, and at the colons and brackets between them.
pub(crate) trait Passing<'a> {
    /// Takes a text, without its quotes and with its escapes as they are.
    fn take(&mut self, text: &'a [u8]);

    /// Goes into an array or an object.
    fn enter(&mut self);

    /// Goes out of an array or an object. The answer is whether what is gone out of is read.
    fn leave(&mut self) -> bool;

    /// Takes the last text for the name of a member, whose value comes next. The answer is whether it is read.
    fn name(&mut self, value: &'a [u8]) -> bool;
}

/// How many bytes of a text are looked at first, all at once. Most texts are shorter.
const NEAR: usize = 16;

/// The least of the colon and the brackets. Blanks, commas and the bytes of numbers are below it.
const LEAST_MARK: u8 = b':';

/// A byte that means nothing between texts.
const BLANK: u8 = b' ';

/// The bytes before a place and those after it, if a quote stands there.
#[inline(always)]
fn split_at_quote(bytes: &[u8], place: usize) -> Option<(&[u8], &[u8])>
    ensures { IfSome result (λ parts. length parts.1.now ≤ length bytes.now) }
{
    match bytes.get(place..)? {
        [b'"', after @ ..] => Some((bytes.get(..place)?, after)),
        _ => None,
    }
}

/// What `split_text` answers, if the text ends near and has no escapes.
#[inline(always)]
fn split_near_text(bytes: &[u8]) -> Option<(&[u8], &[u8])>
    ensures { IfSome result (λ parts. length parts.1.now ≤ length bytes.now) }
{
    let near = u8x16::from_array(*bytes.first_chunk::<NEAR>()?);
    let quotes = near.simd_eq(u8x16::splat(b'"'));
    let escapes = near.simd_eq(u8x16::splat(b'\\'));
    match (quotes | escapes).to_bitmask() {
        0 => None,
        marked => split_at_quote(bytes, marked.trailing_zeros() as usize),
    }
}

/// Where the quote stands that closes a text, whose opening quote stands before these bytes.
#[inline(never)]
fn closing_quote(bytes: &[u8]) -> Option<usize> {
    let mut unescaped = 0;
    for place in memchr2_iter(b'"', b'\\', bytes) {
        if place >= unescaped {
            if bytes.get(place) == Some(&b'"') {
                return Some(place);
            }
            // (the byte after an escape is part of the text)
            unescaped = place.saturating_add(2);
        }
    }
    None
}

/// The text whose opening quote stands before these bytes, and what comes after its closing quote, if it has one.
#[inline(always)]
pub(crate) fn split_text(bytes: &[u8]) -> Option<(&[u8], &[u8])>
    ensures { IfSome result (λ parts. length parts.1.now ≤ length bytes.now) }
{
    match split_near_text(bytes) {
        None => split_at_quote(bytes, closing_quote(bytes)?),
        near => near,
    }
}

/// The colon or the comma that comes after a text, and what comes after it; a blank where neither comes.
#[inline(always)]
fn split_separator(bytes: &[u8]) -> (u8, &[u8])
    ensures { length result.1.now ≤ length bytes.now }
{
    match bytes {
        [b':', after @ ..] => (b':', after),
        [b',', after @ ..] => (b',', after),
        _ => (BLANK, bytes),
    }
}

/// Goes past a byte between texts. The answer is whether what it ends or names is read.
#[inline(always)]
fn pass_mark<'a, P: Passing<'a>>(mark: u8, after: &'a [u8], passing: &mut P) -> bool {
    match mark {
        b':' => passing.name(after),
        b'{' | b'[' => {
            passing.enter();
            true
        }
        b'}' | b']' => passing.leave(),
        _ => true,
    }
}

/// What comes after the first byte that ends or names something which is not read, if there is such a byte.
pub(crate) fn after_unread<'a, P: Passing<'a>>(
    bytes: &'a [u8],
    passing: &mut P,
) -> Option<&'a [u8]> {
    let mut rest = bytes;
    while let [byte, after @ ..] = rest {
        let (mark, next) = match *byte {
            b'"' => {
                let (text, closed) = split_text(after)?;
                passing.take(text);
                split_separator(closed)
            }
            mark => (mark, after),
        };
        if mark >= LEAST_MARK && !pass_mark(mark, next, passing) {
            return Some(next);
        }
        rest = next;
    }
    None
}

/// Whether all that is gone past is read.
pub(crate) fn all_pass<'a, P: Passing<'a>>(bytes: &'a [u8], passing: &mut P) -> bool {
    after_unread(bytes, passing).is_none()
}

/// Goes past an array or an object, and stops at its end.
#[derive(Clone, Copy)]
struct Whole {
    /// How many arrays and objects are open.
    depth: usize,
}

impl<'a> Passing<'a> for Whole {
    fn take(&mut self, _text: &'a [u8]) {}

    fn enter(&mut self) {
        self.depth = self.depth.saturating_add(1);
    }

    fn leave(&mut self) -> bool {
        self.depth = self.depth.saturating_sub(1);
        self.depth > 0
    }

    fn name(&mut self, _value: &'a [u8]) -> bool {
        true
    }
}

/// Whether a byte ends a number or a word.
fn ends_word(byte: u8) -> bool {
    matches!(byte, b',' | b']' | b'}' | b' ' | b'\t' | b'\n' | b'\r')
}

/// What comes after the value at the front.
pub(crate) fn after_item(bytes: &[u8]) -> &[u8] {
    match bytes {
        [b'{' | b'[', ..] => after_unread(bytes, &mut Whole { depth: 0 }).unwrap_or(&[]),
        [b'"', text @ ..] => match split_text(text) {
            Some((_, behind)) => behind,
            None => &[],
        },
        _ => match bytes.iter().position(|byte| ends_word(*byte)) {
            Some(end) => &bytes[end..],
            None => &[],
        },
    }
}
