//! An object of JSON, put together member by member.
ghost use Rattle.std.specs.Prelude.{◌≡◌, OnOk};
ghost use Rattle.serde_json.specs.Data.{no_members, object as object_of, put, string};
ghost use Rattle.serde_json.specs.View.{view};
ghost use Rattle.json_objects.specs.Held.{held};
ghost use Rattle.json_objects.specs.Objects.{count_json};

use serde_json::{Map, Value};
use std::alloc::{AllocError, Global};

/// An object to which members are added. Contracts see its members by `held`.
#[derive(Drop)]
pub struct Object {
    members: Map<String, Value>,
    alloc: Global,
}

impl Object {
    /// An object without members.
    pub fn new(alloc: Global) -> Object
        ensures { held result ≡ no_members }
    {
        Object {
            members: Map::new(alloc),
            alloc,
        }
    }

    /// Adds a value.
    pub fn value(&mut self, name: &str, value: Value) -> Result<(), AllocError>
        ensures { OnOk result (held self.new ≡ put name.now (view value) (held self.old)) }
    {
        serde_json::put(&mut self.members, self.alloc, name, value)
    }

    /// Adds a number.
    pub fn count(&mut self, name: &str, count: u64) -> Result<(), AllocError>
        ensures { OnOk result (held self.new ≡ put name.now (count_json count) (held self.old)) }
    {
        self.value(name, Value::from(count))
    }

    /// Adds a text.
    pub fn text(&mut self, name: &str, text: &str) -> Result<(), AllocError>
        ensures { OnOk result (held self.new ≡ put name.now (string text.now) (held self.old)) }
    {
        let value = Value::try_from_str(self.alloc, text)?;
        self.value(name, value)
    }

    /// The object, as a value.
    pub fn into_value(self) -> Value
        ensures { view result ≡ object_of (held self) }
    {
        let Object { members, .. } = self;
        Value::Object(members)
    }
}
