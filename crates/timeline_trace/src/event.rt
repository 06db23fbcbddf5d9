//! Events, put together member by member and written as lines.
ghost use Rattle.std.specs.Prelude.{◌≡◌, ◌∷◌, ◌++◌, [], IfOk, OnOk, codes, false, string_bytes};
ghost use Rattle.serde_json.specs.Data.{no_members, object as object_of, put};
ghost use Rattle.serde_json.specs.View.{view};
ghost use Rattle.serde_json.specs.Written.{compact_text, has_float};
ghost use Rattle.timeline_trace.specs.Held.{held};
ghost use Rattle.timeline_trace.specs.Json.{count, event_members, line_of, text, with};

use crate::labels::Track;
use serde_json::{Map, Value};
use std::alloc::{AllocError, Global};

/// An object to which members are added.
#[derive(Drop)]
pub(crate) struct Object {
    members: Map<String, Value>,
    alloc: Global,
}

impl Object {
    /// An object without members.
    pub(crate) fn new(alloc: Global) -> Object
        ensures { held result ≡ no_members }
    {
        Object {
            members: Map::new(alloc),
            alloc,
        }
    }

    /// What every event has: its phase, where its row stands, and its name.
    pub(crate) fn event(
        alloc: Global,
        phase: &str,
        track: Track,
        name: &str,
    ) -> Result<Object, AllocError>
        ensures { IfOk result (λ object. held object ≡ with no_members (event_members phase.now track name.now)) }
    {
        let mut object = Object::new(alloc);
        object.text("ph", phase)?;
        object.count("pid", track.process)?;
        object.count("tid", track.row)?;
        object.text("name", name)?;
        Ok(object)
    }

    fn value(&mut self, name: &str, value: Value) -> Result<(), AllocError>
        ensures { OnOk result (held self.new ≡ put name.now (view value) (held self.old)) }
    {
        serde_json::put(&mut self.members, self.alloc, name, value)
    }

    /// Adds a text.
    pub(crate) fn text(&mut self, name: &str, content: &str) -> Result<(), AllocError>
        ensures { OnOk result (held self.new ≡ put name.now (text content.now) (held self.old)) }
    {
        let value = Value::try_from_str(self.alloc, content)?;
        self.value(name, value)
    }

    /// Adds a number.
    pub(crate) fn count(&mut self, name: &str, number: u64) -> Result<(), AllocError>
        ensures { OnOk result (held self.new ≡ put name.now (count number) (held self.old)) }
    {
        self.value(name, Value::from(number))
    }

    /// Adds an object.
    pub(crate) fn object(&mut self, name: &str, object: Object) -> Result<(), AllocError>
        ensures { OnOk result (held self.new ≡ put name.now (object_of (held object)) (held self.old)) }
    {
        self.value(name, object.into_value())
    }

    fn into_value(self) -> Value
        ensures { view result ≡ object_of (held self) }
    {
        let Object { members, .. } = self;
        Value::Object(members)
    }
}

/// Puts an event at the end of a text.
pub(crate) fn push_event(alloc: Global, text: &mut String, event: Object) -> Result<(), AllocError>
    requires { has_float (object_of (held event)) ≡ false }
    ensures { OnOk result (string_bytes text.new ≡ string_bytes text.old ++ compact_text (object_of (held event))) }
{
    let written = event.into_value().to_string(alloc)?;
    text.push_str(written.as_str())
}

/// Puts an event on a line of its own behind those before it.
pub(crate) fn push_line(alloc: Global, text: &mut String, event: Object) -> Result<(), AllocError>
    requires { has_float (object_of (held event)) ≡ false }
    ensures { OnOk result (string_bytes text.new ≡ string_bytes text.old ++ line_of (object_of (held event))) }
{
    text.push_str(",\n")?;
    push_event(alloc, text, event)
}
