//! A histogram, as a value of JSON.
ghost use Rattle.std.specs.Prelude.{◌≡◌, IfOk};
ghost use Rattle.serde_json.specs.View.{view};
ghost use Rattle.fleet_text.specs.Json.{entry_json, histogram_json};

use fleet_summary::Histogram;
use serde_json::{Value, json};
use std::alloc::{AllocError, Global};

/// A step and its number.
fn entry_value(alloc: Global, step: u32, number: u64) -> Result<Value, AllocError>
    ensures { IfOk result (λ value. view value ≡ entry_json (step, number)) }
{
    json!(in alloc; [step, number])
}

/// A list of steps, each with its number.
pub(crate) fn histogram_value(alloc: Global, histogram: &Histogram) -> Result<Value, AllocError>
    ensures { IfOk result (λ value. view value ≡ histogram_json histogram.now) }
{
    let mut entries = Vec::new(alloc);
    for (step, number) in histogram.by_step() {
        let entry = entry_value(alloc, *step, *number)?;
        serde_json::push(&mut entries, entry)?;
    }
    Ok(Value::from(entries))
}
