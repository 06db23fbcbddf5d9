//! An answer as JSON.
ghost use Rattle.std.specs.Prelude.{◌≡◌, IfOk, string_bytes};
ghost use Rattle.fleet_answer.specs.Json.{json_text};

use crate::answer::Answer;
use crate::values::answer_value;
use std::alloc::{AllocError, Global};

/// An answer, as an object on a line.
pub(crate) fn json_of(alloc: Global, answer: &Answer) -> Result<String, AllocError>
    ensures { IfOk result (λ text. string_bytes text ≡ json_text answer.now) }
{
    let value = answer_value(alloc, answer)?;
    let mut text = value.to_string(alloc)?;
    text.push_str("\n")?;
    Ok(text)
}
