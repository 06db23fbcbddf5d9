//! The keys by which spans name the spans of their trace.
ghost use Rattle.std.specs.Prelude.{◌≡◌, IfOk};
ghost use Rattle.trace_spans.specs.Keys.{half_key, key_of};

use crate::identifier::compared;
use crate::span::Span;
use crate::text::Text;
use std::alloc::{AllocError, Global};

/// The key of the server's half of the span with that key: an s that no id has.
pub(crate) fn half_key(key: Text) -> Result<Text, AllocError>
    ensures { IfOk result (λ half. half ≡ half_key key) }
{
    let mut half = key.into_string();
    half.push('s')?;
    Ok(Text::of(half))
}

/// The key of a span: its id as it is compared, and of a server's half that of the client's half with an s after it. The
/// parents and the links of spans are keys.
pub fn key_of(alloc: Global, span: &Span) -> Result<Text, AllocError>
    ensures { IfOk result (λ key. key ≡ key_of span.now) }
{
    let key = compared(alloc, span.id.as_str())?;
    if span.shared { half_key(key) } else { Ok(key) }
}
