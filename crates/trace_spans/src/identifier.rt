//! Ids: up to 32 hexadecimal digits, or bytes in base64.
ghost use Rattle.std.specs.Prelude.{◌≡◌, IfOk, map, string_bytes};
ghost use Rattle.std.specs.List.{list_all};
ghost use Rattle.std.specs.Str.{chars, encode_utf8_all};
ghost use Rattle.std.specs.Char.{to_ascii_lowercase};
ghost use Rattle.trace_spans.specs.Identifiers.{compared, compared_in, compared_text, is_hexadecimal, is_id, is_zero, span_id_in, told_digits, told_text, without_zeros};
ghost use Rattle.trace_spans.specs.Members.{member_of};
ghost use Rattle.trace_spans.specs.Reads.{IsRead};

use crate::base64_ids::base64_id;
use crate::fault::Fault;
use crate::member::Member;
use crate::object::{found_text, member};
use crate::text::Text;
use json_trees::Tree;
use std::alloc::{AllocError, Global};

/// The most digits that an id has.
const MOST_DIGITS: usize = 32;

fn is_hexadecimal(byte: u8) -> bool
    ensures { result ≡ is_hexadecimal byte }
{
    byte.is_ascii_digit() || (b'a' <= byte && byte <= b'f') || (b'A' <= byte && byte <= b'F')
}

/// Whether all bytes are hexadecimal digits.
///
/// Nearly always they are. So it looks at all of them, whatever came before: with nothing to decide at each byte, many
/// are looked at at once.
fn are_hexadecimal(bytes: &[u8]) -> bool
    ensures { result ≡ list_all is_hexadecimal bytes.now }
{
    let mut are = true;
    for byte in bytes {
        are &= is_hexadecimal(*byte);
    }
    are
}

/// Whether all bytes are zeros.
fn are_zeros(bytes: &[u8]) -> bool
    ensures { result ≡ list_all is_zero bytes.now }
{
    bytes.iter().all(|byte| *byte == b'0')
}

/// The digits after the leading zeros, in lower case.
///
/// A zero is one byte, and so is each letter whose case changes: no character has to be read, and the text that is
/// made has its room at once.
fn significant(alloc: Global, id: &str) -> Result<String, AllocError>
    ensures { IfOk result (λ short. string_bytes short ≡ encode_utf8_all (map to_ascii_lowercase (without_zeros (chars id.now)))) }
{
    let mut digits = id;
    while let Some(after) = digits.strip_prefix('0') {
        digits = after;
    }
    digits.to_ascii_lowercase(alloc)
}

/// Whether a text is an id.
#[tactic(auto, unfolding(crate::specs::Identifiers::is_id))]
pub(crate) fn is_id(text: &str) -> bool
    ensures { result ≡ is_id text.now }
{
    text.len() <= MOST_DIGITS && are_hexadecimal(text.as_bytes())
}

/// A text in lower case.
pub(crate) fn lower_case(alloc: Global, text: &str) -> Result<Text, AllocError>
    ensures { IfOk result (λ lower. lower ≡ map to_ascii_lowercase text.now) }
{
    Ok(Text::of(text.to_ascii_lowercase(alloc)?))
}

/// An id as it is compared: in lower case, without leading zeros.
#[tactic(auto, unfolding(crate::specs::Identifiers::compared))]
pub fn compared(alloc: Global, id: &str) -> Result<Text, AllocError>
    ensures { IfOk result (λ short. short ≡ compared id.now) }
{
    Ok(Text::of(significant(alloc, id)?))
}

/// The id that a text is, as it is compared, if it is one.
#[tactic(auto, unfolding(crate::specs::Identifiers::compared_text))]
fn compared_text(alloc: Global, text: &str) -> Result<Option<Text>, AllocError>
    ensures { IfOk result (λ id. id ≡ compared_text text.now) }
{
    if is_id(text) {
        return Ok(Some(compared(alloc, text)?));
    }
    match base64_id(alloc, text)? {
        Some(id) => Ok(Some(compared(alloc, id.as_str())?)),
        None => Ok(None),
    }
}

/// The digits of an id, in lower case, unless all are zeros.
#[tactic(auto, unfolding(crate::specs::Identifiers::told_digits))]
fn told_digits(alloc: Global, id: &str) -> Result<Option<Text>, AllocError>
    ensures { IfOk result (λ digits. digits ≡ told_digits id.now) }
{
    if are_zeros(id.as_bytes()) {
        Ok(None)
    } else {
        Ok(Some(lower_case(alloc, id)?))
    }
}

/// The id that a text is, as it is told, if it is one and has a digit that isn't 0.
#[tactic(auto, unfolding(crate::specs::Identifiers::told_text))]
fn told_text(alloc: Global, text: &str) -> Result<Option<Text>, AllocError>
    ensures { IfOk result (λ id. id ≡ told_text text.now) }
{
    if is_id(text) {
        return told_digits(alloc, text);
    }
    match base64_id(alloc, text)? {
        Some(id) => told_digits(alloc, id.as_str()),
        None => Ok(None),
    }
}

/// The id that a member is, as it is compared, from the look-up that found it or not; without one it is empty.
#[tactic(auto, unfolding(crate::specs::Identifiers::compared_in))]
pub(crate) fn found_compared_id(
    alloc: Global,
    object: &Tree<'_, '_>,
    found: &Option<Tree<'_, '_>>,
    asked: Member,
) -> Result<Text, Fault>
    requires { found.now ≡ member_of asked object.now }
    ensures { IsRead result (compared_in asked object.now) }
{
    let text = found_text(object, found, asked)?;
    match compared_text(alloc, text)? {
        Some(id) => Ok(id),
        None => Err(Fault::of_shape(asked)),
    }
}

/// The id that a member is, as it is compared.
pub(crate) fn compared_id(
    alloc: Global,
    object: &Tree<'_, '_>,
    asked: Member,
) -> Result<Text, Fault>
    ensures { IsRead result (compared_in asked object.now) }
{
    found_compared_id(alloc, object, &member(object, asked), asked)
}

/// The id of a span, as it is told, from the look-up that found it or not.
#[tactic(auto, unfolding(crate::specs::Identifiers::span_id_in))]
pub(crate) fn found_span_id(
    alloc: Global,
    object: &Tree<'_, '_>,
    found: &Option<Tree<'_, '_>>,
    asked: Member,
) -> Result<Text, Fault>
    requires { found.now ≡ member_of asked object.now }
    ensures { IsRead result (span_id_in asked object.now) }
{
    let text = found_text(object, found, asked)?;
    match told_text(alloc, text)? {
        Some(id) => Ok(id),
        None => Err(Fault::of_shape(asked)),
    }
}
