//! Keys: one text for several, which tells them apart from all others.
ghost use Rattle.std.specs.Prelude.{◌≡◌, ◌++◌, ◌<◌, ◌^◌, OnOk, length, string_bytes};
ghost use Rattle.trace_relations.specs.Keys.{AreShort, key_of, measured};

use std::alloc::AllocError;
use std::fmt::Write;
use trace_spans::Text;

/// Puts a text behind its length at the end of a key.
pub(crate) fn push_text(key: &mut String, text: &str) -> Result<(), AllocError>
    ensures text { OnOk result (string_bytes key.new ≡ string_bytes key.old ++ measured text.now) }
    ensures short { OnOk result (length text.now < 2 ^ 64) }
{
    let length = text.len();
    write!(key, "{length}:{text}")?;
    Ok(())
}

/// Puts texts at the end of a key.
pub(crate) fn push_texts(key: &mut String, texts: &[Text]) -> Result<(), AllocError>
    ensures texts { OnOk result (string_bytes key.new ≡ string_bytes key.old ++ key_of texts.now) }
    ensures short { OnOk result (AreShort texts.now) }
{
    for text in texts {
        push_text(key, text.as_str())?;
    }
    Ok(())
}
