//! JSON, token by token.
use crate::syntax::Expected;

/// The most arrays and objects that stand in one another.
const DEEPEST: usize = 127;

/// An array or an object that is not closed yet.
#[derive(Clone, Copy)]
pub(crate) enum Open {
    Array,
    Object,
}

/// Where JSON can't go on: at the front of these bytes.
#[derive(Clone, Copy)]
pub(crate) struct Stop<'a> {
    pub rest: &'a [u8],
    pub expected: Expected,
}

/// What ends a scan.
#[derive(Clone, Copy)]
pub(crate) enum Scanned<'a> {
    Stop(Stop<'a>),
    Memory,
}

fn stopped<'a>(rest: &'a [u8], expected: Expected) -> Scanned<'a> {
    Scanned::Stop(Stop { rest, expected })
}

/// What comes after the blanks at the front.
pub(crate) fn after_blanks(bytes: &[u8]) -> &[u8] {
    match bytes
        .iter()
        .position(|byte| !matches!(*byte, b' ' | b'\t' | b'\n' | b'\r'))
    {
        Some(start) => &bytes[start..],
        None => &[],
    }
}

/// What comes after the digits at the front.
fn after_digits(bytes: &[u8]) -> &[u8] {
    match bytes.iter().position(|byte| !byte.is_ascii_digit()) {
        Some(start) => &bytes[start..],
        None => &[],
    }
}

/// What comes after one digit or more.
fn after_some_digits(bytes: &[u8]) -> Result<&[u8], Scanned<'_>> {
    match bytes {
        [b'0'..=b'9', ..] => Ok(after_digits(bytes)),
        _ => Err(stopped(bytes, Expected::Digit)),
    }
}

/// What comes after a number's power of ten, if it has one.
fn after_power(bytes: &[u8]) -> Result<&[u8], Scanned<'_>> {
    match bytes {
        [b'e' | b'E', b'+' | b'-', rest @ ..] => after_some_digits(rest),
        [b'e' | b'E', rest @ ..] => after_some_digits(rest),
        _ => Ok(bytes),
    }
}

/// What comes after a number.
fn after_number(bytes: &[u8]) -> Result<&[u8], Scanned<'_>> {
    let whole = match bytes {
        [b'-', rest @ ..] => rest,
        _ => bytes,
    };
    let whole = match whole {
        [b'0', rest @ ..] => rest,
        _ => after_some_digits(whole)?,
    };
    match whole {
        [b'.', rest @ ..] => after_power(after_some_digits(rest)?),
        _ => after_power(whole),
    }
}

/// What a byte of a text may be.
#[derive(Clone, Copy)]
enum Inside {
    Plain,
    Escape,
    /// So many hexadecimal digits are to come.
    Hexadecimal(u8),
}

/// What the next byte of a text may be, or what was expected in its place.
fn go_on(inside: Inside, byte: u8) -> Result<Inside, Expected> {
    match inside {
        Inside::Plain => match byte {
            b'\\' => Ok(Inside::Escape),
            0..=31 => Err(Expected::Printable),
            _ => Ok(Inside::Plain),
        },
        Inside::Escape => match byte {
            b'u' => Ok(Inside::Hexadecimal(4)),
            b'"' | b'\\' | b'/' | b'b' | b'f' | b'n' | b'r' | b't' => Ok(Inside::Plain),
            _ => Err(Expected::Escape),
        },
        Inside::Hexadecimal(left) => match byte {
            b'0'..=b'9' | b'a'..=b'f' | b'A'..=b'F' if left > 1 => {
                Ok(Inside::Hexadecimal(left - 1))
            }
            b'0'..=b'9' | b'a'..=b'f' | b'A'..=b'F' => Ok(Inside::Plain),
            _ => Err(Expected::HexadecimalDigit),
        },
    }
}

/// What comes after a text, from behind its first quote.
fn after_text(bytes: &[u8]) -> Result<&[u8], Scanned<'_>> {
    let mut inside = Inside::Plain;
    for (index, byte) in bytes.iter().enumerate() {
        if let (Inside::Plain, b'"') = (inside, *byte) {
            return Ok(&bytes[index + 1..]);
        }
        match go_on(inside, *byte) {
            Ok(next) => inside = next,
            Err(expected) => return Err(stopped(&bytes[index..], expected)),
        }
    }
    Err(stopped(&[], Expected::Quote))
}

/// What may come after a value, by what it stands in.
fn after_value(open: &[Open]) -> Expected {
    match open.last() {
        Some(Open::Array) => Expected::CommaOrBracket,
        Some(Open::Object) => Expected::CommaOrBrace,
        None => Expected::End,
    }
}

/// What comes after a value that is neither an array nor an object.
fn after_plain<'a>(bytes: &'a [u8], expected: Expected) -> Result<&'a [u8], Scanned<'a>> {
    match bytes {
        [b'"', rest @ ..] => after_text(rest),
        [b'-' | b'0'..=b'9', ..] => after_number(bytes),
        [b't', b'r', b'u', b'e', rest @ ..] => Ok(rest),
        [b'f', b'a', b'l', b's', b'e', rest @ ..] => Ok(rest),
        [b'n', b'u', b'l', b'l', rest @ ..] => Ok(rest),
        _ => Err(stopped(bytes, expected)),
    }
}

/// Goes into an array or an object.
fn enter<'a>(
    bytes: &'a [u8],
    rest: &'a [u8],
    container: Open,
    open: &mut Vec<Open>,
) -> Result<(&'a [u8], Expected), Scanned<'a>> {
    if open.len() >= DEEPEST {
        return Err(stopped(bytes, Expected::Shallower));
    }
    if open.push(container).is_err() {
        return Err(Scanned::Memory);
    }
    match container {
        Open::Array => Ok((rest, Expected::ValueOrBracket)),
        Open::Object => Ok((rest, Expected::NameOrBrace)),
    }
}

/// Goes out of an array or an object.
fn leave<'a>(rest: &'a [u8], open: &mut Vec<Open>) -> (&'a [u8], Expected) {
    open.pop();
    (rest, after_value(open))
}

/// What comes after a value, or after the beginning of one that is an array or an object.
fn after_front<'a>(
    bytes: &'a [u8],
    expected: Expected,
    open: &mut Vec<Open>,
) -> Result<(&'a [u8], Expected), Scanned<'a>> {
    match bytes {
        [b'[', rest @ ..] => enter(bytes, rest, Open::Array, open),
        [b'{', rest @ ..] => enter(bytes, rest, Open::Object, open),
        _ => {
            let rest = after_plain(bytes, expected)?;
            Ok((rest, after_value(open)))
        }
    }
}

/// What comes after the name of a member.
fn after_name<'a>(
    bytes: &'a [u8],
    expected: Expected,
) -> Result<(&'a [u8], Expected), Scanned<'a>> {
    match bytes {
        [b'"', rest @ ..] => Ok((after_text(rest)?, Expected::Colon)),
        _ => Err(stopped(bytes, expected)),
    }
}

/// What comes after the next token, and what may stand there.
pub(crate) fn after_token<'a>(
    bytes: &'a [u8],
    expected: Expected,
    open: &mut Vec<Open>,
) -> Result<(&'a [u8], Expected), Scanned<'a>> {
    match (expected, bytes) {
        (Expected::ValueOrBracket, [b']', rest @ ..])
        | (Expected::CommaOrBracket, [b']', rest @ ..])
        | (Expected::NameOrBrace, [b'}', rest @ ..])
        | (Expected::CommaOrBrace, [b'}', rest @ ..]) => Ok(leave(rest, open)),
        (Expected::Value | Expected::ValueOrBracket, _) => after_front(bytes, expected, open),
        (Expected::Name | Expected::NameOrBrace, _) => after_name(bytes, expected),
        (Expected::Colon, [b':', rest @ ..]) => Ok((rest, Expected::Value)),
        (Expected::CommaOrBracket, [b',', rest @ ..]) => Ok((rest, Expected::Value)),
        (Expected::CommaOrBrace, [b',', rest @ ..]) => Ok((rest, Expected::Name)),
        _ => Err(stopped(bytes, expected)),
    }
}
