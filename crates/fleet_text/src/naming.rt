//! Names, as members of an object.
ghost use Rattle.std.specs.Prelude.{◌≡◌, OnOk};
ghost use Rattle.serde_json.specs.Data.{put, string};
ghost use Rattle.json_objects.specs.Held.{held};
ghost use Rattle.fleet_text.specs.Json.{text_or_null};

use crate::fault::WriteFault;
use fleet_summary::Name;
use json_objects::Object;
use serde_json::Value;
use std::str;

/// Adds a name, as a text.
pub(crate) fn put_name(object: &mut Object, member: &str, name: &Name) -> Result<(), WriteFault>
    ensures { OnOk result (held object.new ≡ put member.now (string name.now) (held object.old)) }
{
    match str::from_utf8(name.bytes()) {
        Ok(text) => Ok(object.text(member, text)?),
        Err(_) => Err(WriteFault::NotText),
    }
}

/// Adds a name, as a text, or `null` where there is none.
pub(crate) fn put_optional_name(
    object: &mut Object,
    member: &str,
    name: &Option<Name>,
) -> Result<(), WriteFault>
    ensures { OnOk result (held object.new ≡ put member.now (text_or_null name.now) (held object.old)) }
{
    match name {
        Some(name) => put_name(object, member, name),
        None => Ok(object.value(member, Value::Null)?),
    }
}
