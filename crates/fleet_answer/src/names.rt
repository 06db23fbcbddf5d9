//! How a name stands in a line.
ghost use Rattle.std.specs.Prelude.{◌≡◌, ◌++◌, OnOk, string_bytes};
ghost use Rattle.serde_json.specs.Data.{string};
ghost use Rattle.serde_json.specs.Written.{compact_text};
ghost use Rattle.fleet_answer.specs.Names.{is_plain, is_plain_byte, name_text};

use crate::label::Label;
use serde_json::Value;
use std::alloc::{AllocError, Global};

/// Whether a byte is neither a blank nor a sign that no one sees, and no quote.
fn is_plain_byte(byte: u8) -> bool
    ensures { result ≡ is_plain_byte byte }
{
    byte > b' ' && byte != b'"' && byte != 127
}

/// Whether a name stands in a line as it is.
fn is_plain(name: &[u8]) -> bool
    ensures { result ≡ is_plain name.now }
{
    0 < name.len() && name.iter().all(|byte| is_plain_byte(*byte))
}

/// Appends a text as a JSON string.
fn push_quoted(alloc: Global, line: &mut String, text: &str) -> Result<(), AllocError>
    ensures { OnOk result (string_bytes line.new ≡ string_bytes line.old ++ compact_text (string text.now)) }
{
    let value = Value::try_from_str(alloc, text)?;
    let quoted = value.to_string(alloc)?;
    line.push_str(quoted.as_str())
}

/// Appends a name: as it is, or as a JSON string where it has to be told where it ends.
pub(crate) fn push_name(alloc: Global, line: &mut String, name: &Label) -> Result<(), AllocError>
    ensures { OnOk result (string_bytes line.new ≡ string_bytes line.old ++ name_text name.now) }
{
    let text = name.as_str();
    if is_plain(text.as_bytes()) {
        line.push_str(text)
    } else {
        push_quoted(alloc, line, text)
    }
}
