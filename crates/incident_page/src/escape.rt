//! Text as it stands in the page.
ghost use Rattle.std.specs.Prelude.{◌≡◌, ◌++◌, ◌∷◌, ◌-◌, ◌^◌, ◌<◌, IfSome, IsNone, length};
ghost use Rattle.text_io.specs.Writes.{Writes};
ghost use Rattle.incident_page.specs.Escaped.{HasNoLess, escaped, less_escape};

use memchr::memchr;
use text_io::{Sink, Stopped};

/// The bytes before the first `<`, and the bytes after it.
fn split_less(text: &[u8]) -> Option<(&[u8], &[u8])>
    ensures some { IfSome result (λ parts. HasNoLess parts.0.now × (text.now ≡ parts.0.now ++ 60 ∷ parts.1.now)) }
    ensures shorter { IfSome result (λ parts. length parts.1.now < length text.now) }
    ensures none { IsNone result → HasNoLess text.now }
{
    let at = memchr(b'<', text)?;
    Some((&text[..at], &text[at + 1..]))
}

/// Writes a text, and the escape of `<` after it.
fn write_before_less<S: Sink>(text: &[u8], sink: &mut S) -> Result<(), Stopped>
    requires { S.failures sink.old < 2 ^ 64 - 1 }
    ensures { Writes S.held S.failures sink.old sink.new result (text.now ++ less_escape) }
{
    sink.write(text)?;
    sink.write("\\u003c".as_bytes())?;
    Ok(())
}

/// Writes a text with each `<` as `\u003c`, as a text of JSON may have it; each other byte as it is. What is written has no `<`.
pub fn write_escaped<S: Sink>(text: &[u8], sink: &mut S) -> Result<(), Stopped>
    requires { S.failures sink.old < 2 ^ 64 - 1 }
    ensures written { Writes S.held S.failures sink.old sink.new result (escaped text.now) }
    ensures contained { HasNoLess (escaped text.now) }
{
    let mut rest = text;
    while let Some((before, after)) = split_less(rest) {
        write_before_less(before, sink)?;
        rest = after;
    }
    sink.write(rest)?;
    Ok(())
}
