//! A text as it stands in a message.
use std::fmt;

/// The most characters of a text that are shown.
const MOST_SHOWN: usize = 72;

/// A text in quotes, on one line: what can't be seen is written as an escape, and a long text is cut.
#[derive(Clone, Copy)]
pub struct Quoted<'a>(pub &'a str);

/// Whether a character would not be seen, or would move what stands beside it.
pub fn is_hidden(character: char) -> bool {
    matches!(
        character as u32,
        0..=31 | 127..=159 | 173 | 0x200b..=0x200f | 0x2028..=0x202e | 0x2060..=0x206f | 0xfeff
    )
}

/// Writes a character of a text in quotes.
fn write_character<W: fmt::Write>(character: char, f: &mut fmt::Formatter<W>) -> fmt::Result {
    if character == '"' || character == '\\' {
        write!(f, "\\{character}")
    } else if is_hidden(character) {
        let code = character as u32;
        write!(f, "\\u{code:04x}")
    } else {
        write!(f, "{character}")
    }
}

impl fmt::Display for Quoted<'_> {
    fn fmt<W: fmt::Write>(&self, f: &mut fmt::Formatter<W>) -> fmt::Result {
        let Quoted(text) = *self;
        f.write_str("\"")?;
        for character in text.chars().take(MOST_SHOWN) {
            write_character(character, f)?;
        }
        f.write_str(if text.chars().count() > MOST_SHOWN {
            "..\""
        } else {
            "\""
        })
    }
}
