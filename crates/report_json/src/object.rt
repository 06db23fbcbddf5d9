//! Objects that are put together member by member.
ghost use Rattle.std.specs.Prelude.{◌≡◌, OnOk};
ghost use Rattle.serde_json.specs.Data.{no_members, object as object_of, put};
ghost use Rattle.serde_json.specs.View.{members_view, view};
ghost use Rattle.report_json.specs.Json.{count, text};
ghost use Rattle.report_json.specs.Objects.{held};

use serde_json::{Map, Value};
use std::alloc::{AllocError, Global};

/// An object to which members are added.
#[derive(Drop)]
pub struct Object {
    members: Map<String, Value>,
    alloc: Global,
}

impl Object {
    /// An object without members.
    pub fn new(alloc: Global) -> Object
        ensures { held result ≡ no_members }
    {
        Object {
            members: Map::new(alloc),
            alloc,
        }
    }

    /// An object of these members.
    pub(crate) fn of(alloc: Global, members: Map<String, Value>) -> Object
        ensures { held result ≡ members_view members.entries }
    {
        Object { members, alloc }
    }

    /// Adds a member.
    pub fn value(&mut self, name: &str, value: Value) -> Result<(), AllocError>
        ensures { OnOk result (held self.new ≡ put name.now (view value) (held self.old)) }
    {
        serde_json::put(&mut self.members, self.alloc, name, value)
    }

    /// Adds a text.
    pub fn text(&mut self, name: &str, content: &str) -> Result<(), AllocError>
        ensures { OnOk result (held self.new ≡ put name.now (text content.now) (held self.old)) }
    {
        let value = Value::try_from_str(self.alloc, content)?;
        self.value(name, value)
    }

    /// Adds a number.
    pub fn count(&mut self, name: &str, number: u64) -> Result<(), AllocError>
        ensures { OnOk result (held self.new ≡ put name.now (count number) (held self.old)) }
    {
        self.value(name, Value::from(number))
    }

    /// The object as a value.
    pub fn into_value(self) -> Value
        ensures { view result ≡ object_of (held self) }
    {
        let Object { members, .. } = self;
        Value::Object(members)
    }
}
