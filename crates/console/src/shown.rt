//! A name out of a trace as it stands in a message.
use diagnosis::Quoted;
use std::fmt;

/// A name that a trace tells: as it is, where no character of it has to be quoted.
#[derive(Clone, Copy)]
pub(crate) struct Shown<'a>(pub(crate) &'a str);

/// Whether a byte is a character that is seen, and is neither a quote nor a backslash.
fn is_plain(byte: u8) -> bool {
    b' ' <= byte && byte <= b'~' && byte != b'"' && byte != b'\\'
}

impl fmt::Display for Shown<'_> {
    fn fmt<W: fmt::Write>(&self, f: &mut fmt::Formatter<W>) -> fmt::Result {
        let Shown(name) = *self;
        if name.as_bytes().iter().all(|byte| is_plain(*byte)) {
            f.write_str(name)
        } else {
            let quoted = Quoted(name);
            write!(f, "{quoted}")
        }
    }
}
