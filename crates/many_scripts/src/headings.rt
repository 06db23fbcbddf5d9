//! The lines that stand around the answers to scripts.
ghost use Rattle.std.specs.Prelude.{◌≡◌, ◌∷◌, [], IfOk, false};
ghost use Rattle.serde_json.specs.View.{view};
ghost use Rattle.serde_json.specs.Written.{has_float};
ghost use Rattle.report_json.specs.Json.{count, line_text, object};
ghost use Rattle.many_scripts.specs.Outputs.{log_line, script_line};

use report_form::Format;
use report_json::Object;
use serde_json::Value;
use std::alloc::{AllocError, Global};
use std::fmt::Write;

/// The line before the answers to the script of this number.
pub(crate) fn script_line(alloc: Global, format: Format, number: u32) -> Result<Vec<u8>, AllocError>
    ensures { IfOk result (λ line. line.items ≡ script_line format number) }
{
    match format {
        Format::Text => {
            let mut line = String::new(alloc);
            writeln!(line, "script {number}")?;
            Ok(line.into_bytes())
        }
        Format::Json => object_line(alloc, "script", u64::from(number)),
    }
}

/// The last line, which tells how many entries the log has.
pub(crate) fn log_line(alloc: Global, format: Format, entries: usize) -> Result<Vec<u8>, AllocError>
    ensures { IfOk result (λ line. line.items ≡ log_line format entries) }
{
    match format {
        Format::Text => {
            let mut line = String::new(alloc);
            writeln!(line, "log {entries}")?;
            Ok(line.into_bytes())
        }
        Format::Json => object_line(alloc, "log", entries as u64),
    }
}

// The line that is an object of one number.
fn object_line(alloc: Global, name: &str, number: u64) -> Result<Vec<u8>, AllocError>
    ensures { IfOk result (λ line. line.items ≡ line_text (object ((name.now, count number) ∷ []))) }
{
    let value = one_number(alloc, name, number)?;
    line_of(alloc, &value)
}

// An object of one number.
fn one_number(alloc: Global, name: &str, number: u64) -> Result<Value, AllocError>
    ensures { IfOk result (λ value. view value ≡ object ((name.now, count number) ∷ [])) }
{
    let mut object = Object::new(alloc);
    object.count(name, number)?;
    Ok(object.into_value())
}

// The line of a value.
fn line_of(alloc: Global, value: &Value) -> Result<Vec<u8>, AllocError>
    requires exact { has_float (view value.now) ≡ false }
    ensures { IfOk result (λ line. line.items ≡ line_text (view value.now)) }
{
    let mut line = value.to_string(alloc)?;
    line.push_str("\n")?;
    Ok(line.into_bytes())
}
