//! Lines.
ghost use Rattle.std.specs.Prelude.{◌≡◌};
ghost use Rattle.script_lines.specs.Lines.{is_blank};

/// A line of a script, without its end.
#[derive(Clone, Copy)]
pub enum Line<'a> {
    Kept(&'a [u8]),
    TooLong,
}

// Whether the text between two line ends is a blank line.
pub(crate) fn is_blank(text: &[u8]) -> bool
    ensures { result ≡ is_blank text.now }
{
    matches!(text, [] | [b'\r'])
}
