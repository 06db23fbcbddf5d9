//! Where bytes stop being JSON, and why.
use crate::foreign::{Foreign, foreign_at};
use crate::scanner::{Scanned, Stop, after_blanks, after_token};
use std::alloc::{AllocError, Global};
use std::fmt;

/// What JSON could have gone on with.
#[derive(Clone, Copy)]
pub enum Expected {
    Value,
    ValueOrBracket,
    Name,
    NameOrBrace,
    Colon,
    CommaOrBracket,
    CommaOrBrace,
    End,
    Digit,
    Quote,
    Escape,
    HexadecimalDigit,
    Printable,
    /// No more arrays or objects in one another.
    Shallower,
    /// UTF-8.
    Utf8,
    /// A number that fits, or the other half of a pair of escapes.
    Fitting,
}

/// Why bytes are no JSON.
#[derive(Clone, Copy)]
pub enum Unmet {
    /// Something else was expected.
    Expected {
        expected: Expected,
        /// Whether the bytes end there.
        at_end: bool,
    },
    /// It is written as in another language.
    Foreign(Foreign),
}

/// Where bytes stop being JSON, and why.
#[derive(Clone, Copy)]
pub struct JsonFault {
    /// The line, from 1.
    pub line: usize,
    /// The character of the line, from 1.
    pub column: usize,
    pub unmet: Unmet,
}

impl Expected {
    fn text(self) -> &'static str {
        match self {
            Expected::Value => "a value",
            Expected::ValueOrBracket => "a value or \"]\"",
            Expected::Name => "a name in quotes",
            Expected::NameOrBrace => "a name in quotes or \"}\"",
            Expected::Colon => "\":\"",
            Expected::CommaOrBracket => "\",\" or \"]\"",
            Expected::CommaOrBrace => "\",\" or \"}\"",
            Expected::End => "the end of the text",
            Expected::Digit => "a digit",
            Expected::Quote => "a quote that ends the text",
            Expected::Escape => "one of \" \\ / b f n r t u behind \"\\\"",
            Expected::HexadecimalDigit => "a hexadecimal digit",
            Expected::Printable =>
                "no control character in a text, but an escape as \\n or \\u0000",
            Expected::Shallower => "no more than 127 arrays and objects in one another",
            Expected::Utf8 => "UTF-8",
            Expected::Fitting => "a number that fits, and both halves of a pair of escapes",
        }
    }
}

impl fmt::Display for Expected {
    fn fmt<W: fmt::Write>(&self, f: &mut fmt::Formatter<W>) -> fmt::Result {
        f.write_str(self.text())
    }
}

impl fmt::Display for Unmet {
    fn fmt<W: fmt::Write>(&self, f: &mut fmt::Formatter<W>) -> fmt::Result {
        match *self {
            Unmet::Expected {
                expected,
                at_end: true,
            } => write!(f, "expected {expected}, and the text ends"),
            Unmet::Expected { expected, .. } => write!(f, "expected {expected}"),
            Unmet::Foreign(foreign) => write!(f, "{foreign}"),
        }
    }
}

impl fmt::Display for JsonFault {
    fn fmt<W: fmt::Write>(&self, f: &mut fmt::Formatter<W>) -> fmt::Result {
        let (line, column, unmet) = (self.line, self.column, self.unmet);
        write!(f, "line {line}, column {column}: {unmet}")
    }
}

impl JsonFault {
    /// The fault that lies so many bytes behind the front.
    fn at(bytes: &[u8], offset: usize, unmet: Unmet) -> JsonFault {
        let (mut line, mut column) = (1usize, 1usize);
        for byte in bytes.iter().take(offset) {
            match *byte {
                b'\n' => {
                    line = line.saturating_add(1);
                    column = 1;
                }
                // (a further byte of a character)
                0x80..=0xbf => {}
                _ => column = column.saturating_add(1),
            }
        }
        JsonFault {
            line,
            column,
            unmet,
        }
    }

    /// The same, where something else was expected.
    fn expecting(bytes: &[u8], offset: usize, expected: Expected) -> JsonFault {
        let at_end = offset >= bytes.len();
        JsonFault::at(bytes, offset, Unmet::Expected { expected, at_end })
    }

    /// The same, by what stands there.
    fn stopped_at(bytes: &[u8], stop: Stop<'_>) -> JsonFault {
        let offset = bytes.len().saturating_sub(stop.rest.len());
        // (what stands in a text is no other language's)
        let is_between = !matches!(
            stop.expected,
            Expected::Quote | Expected::Escape | Expected::HexadecimalDigit | Expected::Printable
        );
        match foreign_at(bytes.get(..offset).unwrap_or(&[]), stop.rest) {
            Some((foreign, offset)) if is_between => {
                JsonFault::at(bytes, offset, Unmet::Foreign(foreign))
            }
            _ => JsonFault::expecting(bytes, offset, stop.expected),
        }
    }
}

/// Where JSON can't go on, if that is anywhere. Each turn of the loop goes past a byte.
fn first_stop(alloc: Global, bytes: &[u8]) -> Result<(), Scanned<'_>> {
    let mut open = Vec::new(alloc);
    let mut expected = Expected::Value;
    let mut rest = after_blanks(bytes);
    for _ in 0..bytes.len() {
        if rest.is_empty() {
            break;
        }
        let (behind, next) = after_token(rest, expected, &mut open)?;
        rest = after_blanks(behind);
        expected = next;
    }
    match expected {
        Expected::End if rest.is_empty() => Ok(()),
        _ => Err(Scanned::Stop(Stop { rest, expected })),
    }
}

/// How many bytes at the front are UTF-8, if not all are.
fn utf8_front(bytes: &[u8]) -> Option<usize> {
    match str::from_utf8(bytes) {
        Ok(_) => None,
        Err(error) => Some(error.valid_up_to()),
    }
}

/// Where bytes that are no JSON stop being it.
pub fn json_fault(alloc: Global, bytes: &[u8]) -> Result<JsonFault, AllocError> {
    if let Some(front) = utf8_front(bytes) {
        return Ok(JsonFault::expecting(bytes, front, Expected::Utf8));
    }
    match first_stop(alloc, bytes) {
        Ok(()) => Ok(JsonFault::expecting(bytes, 0, Expected::Fitting)),
        Err(Scanned::Stop(stop)) => Ok(JsonFault::stopped_at(bytes, stop)),
        Err(Scanned::Memory) => Err(AllocError),
    }
}
