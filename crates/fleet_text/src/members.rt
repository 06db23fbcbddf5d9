//! Values of JSON, looked into.
ghost use Rattle.std.specs.Prelude.{◌≡◌, ◌^◌, ◌<◌, ℕ, List, Option, Ok, Some, None, IfOk, MatchResult};
ghost use Rattle.serde_json.specs.Data.{string};
ghost use Rattle.serde_json.specs.Find.{as_array, get};
ghost use Rattle.serde_json.specs.View.{items_view, view};
ghost use Rattle.fleet_text.specs.Back.{IsReadAs};
ghost use Rattle.fleet_text.specs.Json.{text_or_null};
ghost use Rattle.json_objects.specs.Objects.{count_json};

use crate::read_fault::ReadFault;
use fleet_summary::Name;
use serde_json::Value;
use std::alloc::Global;

/// The member of that name.
pub(crate) fn member_of<'v>(value: &'v Value, name: &str) -> Result<&'v Value, ReadFault>
    ensures { MatchResult result (λ own. get name.now (view value.now) ≡ Some (view own.now)) (λ fault. get name.now (view value.now) ≡ None) }
{
    match value.get(name) {
        Some(own) => Ok(own),
        None => Err(ReadFault::Member),
    }
}

/// The items of a list.
pub(crate) fn items_in(value: &Value) -> Result<&[Value], ReadFault>
    ensures { MatchResult result (λ items. as_array (view value.now) ≡ Some (items_view items.now)) (λ fault. as_array (view value.now) ≡ None) }
{
    match value.as_array() {
        Some(items) => Ok(items.as_slice()),
        None => Err(ReadFault::Member),
    }
}

/// The number.
#[tactic(auto, using(crate::proofs::Looks::count_read))]
pub(crate) fn count_in(value: &Value) -> Result<u64, ReadFault>
    ensures said { IfOk result (λ count. view value.now ≡ count_json count) }
    ensures fits { IfOk result (λ count. count < 2 ^ 64) }
    ensures back { (count : ℕ) → view value.now ≡ count_json count → result ≡ Ok count }
{
    match value.as_u64() {
        Some(count) => Ok(count),
        None => Err(ReadFault::Member),
    }
}

/// The number of that name.
pub(crate) fn count_of(value: &Value, name: &str) -> Result<u64, ReadFault>
    ensures said { IfOk result (λ count. get name.now (view value.now) ≡ Some (count_json count)) }
    ensures fits { IfOk result (λ count. count < 2 ^ 64) }
    ensures back { (count : ℕ) → get name.now (view value.now) ≡ Some (count_json count) → result ≡ Ok count }
{
    count_in(member_of(value, name)?)
}

/// The text, as a name.
#[tactic(auto, using(crate::proofs::Looks::text_read))]
fn text_in(alloc: Global, value: &Value) -> Result<Name, ReadFault>
    ensures said { IfOk result (λ text. view value.now ≡ string text) }
    ensures back { (text : List ℕ) → view value.now ≡ string text → IsReadAs result text }
{
    match value.as_str() {
        Some(text) => Ok(Name::new(alloc, text.as_bytes())?),
        None => Err(ReadFault::Member),
    }
}

/// The text of that name, as a name.
pub(crate) fn text_of(alloc: Global, value: &Value, name: &str) -> Result<Name, ReadFault>
    ensures said { IfOk result (λ text. get name.now (view value.now) ≡ Some (string text)) }
    ensures back { (text : List ℕ) → get name.now (view value.now) ≡ Some (string text) → IsReadAs result text }
{
    text_in(alloc, member_of(value, name)?)
}

#[tactic(auto, using(crate::proofs::Looks::null_read, crate::proofs::Looks::null_text))]
fn text_unless_null(alloc: Global, value: &Value) -> Result<Option<Name>, ReadFault>
    ensures said { IfOk result (λ text. view value.now ≡ text_or_null text) }
    ensures back { (text : Option (List ℕ)) → view value.now ≡ text_or_null text → IsReadAs result text }
{
    if value.is_null() {
        Ok(None)
    } else {
        Ok(Some(text_in(alloc, value)?))
    }
}

/// The text of that name, as a name, if it isn't `null`.
pub(crate) fn optional_text_of(
    alloc: Global,
    value: &Value,
    name: &str,
) -> Result<Option<Name>, ReadFault>
    ensures said { IfOk result (λ text. get name.now (view value.now) ≡ Some (text_or_null text)) }
    ensures back { (text : Option (List ℕ)) → get name.now (view value.now) ≡ Some (text_or_null text) → IsReadAs result text }
{
    text_unless_null(alloc, member_of(value, name)?)
}
