//! The name of a file as it stands in a message.
use diagnosis::is_hidden;
use std::fmt;

/// The name of a file, on one line: what can't be seen is written as an escape.
#[derive(Clone, Copy)]
pub struct FileName<'a>(pub &'a str);

impl fmt::Display for FileName<'_> {
    fn fmt<W: fmt::Write>(&self, f: &mut fmt::Formatter<W>) -> fmt::Result {
        let FileName(name) = *self;
        for character in name.chars() {
            write_character(character, f)?;
        }
        Ok(())
    }
}

/// Writes a character of a name.
fn write_character<W: fmt::Write>(character: char, f: &mut fmt::Formatter<W>) -> fmt::Result {
    if character == '\\' {
        f.write_str("\\\\")
    } else if is_hidden(character) {
        let code = character as u32;
        write!(f, "\\u{code:04x}")
    } else {
        write!(f, "{character}")
    }
}
