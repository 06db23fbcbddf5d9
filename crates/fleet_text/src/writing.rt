//! The text of a summary.
ghost use Rattle.std.specs.Prelude.{◌≡◌, IfOk, Some, string_bytes};
ghost use Rattle.serde_json.specs.Read.{read};
ghost use Rattle.serde_json.specs.Written.{compact_text};
ghost use Rattle.fleet_text.specs.Json.{part_json};

use crate::fault::WriteFault;
use crate::part::PartSummary;
use crate::values::part_value;
use std::alloc::Global;

/// The text of a summary, a JSON object on one line.
///
/// Errors: `NotText` where a name is not UTF-8; `Memory`.
pub fn write_summary(alloc: Global, part: &PartSummary) -> Result<String, WriteFault>
    ensures text { IfOk result (λ text. string_bytes text ≡ compact_text (part_json part.now)) }
    ensures read { IfOk result (λ text. read (string_bytes text) ≡ Some (part_json part.now)) }
{
    let value = part_value(alloc, part)?;
    Ok(value.to_string(alloc)?)
}
