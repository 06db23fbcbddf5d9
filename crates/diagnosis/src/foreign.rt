//! What is written in place of JSON, as other languages have it.
use std::fmt;

/// What stands where JSON can't go on, where other languages have it.
#[derive(Clone, Copy)]
pub enum Foreign {
    /// A comma behind the last member of an object.
    CommaBeforeBrace,
    /// A comma behind the last element of an array.
    CommaBeforeBracket,
    Comment,
    SingleQuote,
    CurlyQuote,
    /// What is no number, or no finite one.
    NoNumber,
    /// A word of another language for true, false or null.
    Word,
}

/// The last byte that is no blank, and how many bytes stand before it.
fn last_mark(bytes: &[u8]) -> Option<(u8, usize)> {
    let is_mark = |byte: &u8| !matches!(*byte, b' ' | b'\t' | b'\n' | b'\r');
    let behind = bytes.iter().rev().position(is_mark)?;
    let place = bytes.len().checked_sub(behind)?.checked_sub(1)?;
    Some((*bytes.get(place)?, place))
}

/// What bytes begin with that are no JSON.
fn beginning_foreign(bytes: &[u8]) -> Option<Foreign> {
    match bytes {
        [b'/', b'/' | b'*', ..] | [b'#', ..] => Some(Foreign::Comment),
        [b'\'' | b'`', ..] => Some(Foreign::SingleQuote),
        // (the quotes from U+2018 to U+201F, and the angled ones)
        [0xe2, 0x80, 0x98..=0x9f, ..] | [0xc2, 0xab | 0xbb, ..] => Some(Foreign::CurlyQuote),
        [b'N', b'a', b'N', ..] | [b'n', b'a', b'n', ..] | [b'I', b'n', b'f', ..] => {
            Some(Foreign::NoNumber)
        }
        [b'T', b'r', b'u', b'e', ..]
        | [b'F', b'a', b'l', b's', b'e', ..]
        | [b'N', b'o', b'n', b'e', ..]
        | [b'u', b'n', b'd', b'e', b'f', b'i', b'n', b'e', b'd', ..] => Some(Foreign::Word),
        _ => None,
    }
}

/// What stands behind the bytes of a JSON text where it can't go on, and at how many bytes it begins, if that is known.
pub(crate) fn foreign_at(before: &[u8], rest: &[u8]) -> Option<(Foreign, usize)> {
    match (last_mark(before), rest) {
        (Some((b',', place)), [b'}', ..]) => Some((Foreign::CommaBeforeBrace, place)),
        (Some((b',', place)), [b']', ..]) => Some((Foreign::CommaBeforeBracket, place)),
        (Some((b'-', place)), [b'I' | b'N', ..]) => Some((Foreign::NoNumber, place)),
        _ => Some((beginning_foreign(rest)?, before.len())),
    }
}

impl fmt::Display for Foreign {
    fn fmt<W: fmt::Write>(&self, f: &mut fmt::Formatter<W>) -> fmt::Result {
        f.write_str(match self {
            Foreign::CommaBeforeBrace =>
                "a comma before \"}\": JSON has none behind the last member of an object",
            Foreign::CommaBeforeBracket =>
                "a comma before \"]\": JSON has none behind the last element of an array",
            Foreign::Comment =>
                "a comment: JSON has none; a member whose name begins with x- may hold a text of your own",
            Foreign::SingleQuote =>
                "a single quote: JSON has names and texts in double quotes, as \"name\"",
            Foreign::CurlyQuote =>
                "a curly quote: JSON has names and texts in straight double quotes, as \"name\"",
            Foreign::NoNumber =>
                "NaN or Infinity: JSON has no such number, but digits, or null where there is no number",
            Foreign::Word =>
                "a word of another language: JSON has true, false and null, in small letters",
        })
    }
}
