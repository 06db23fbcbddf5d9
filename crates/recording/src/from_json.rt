//! Values that are read from JSON.
ghost use Rattle.std.specs.Prelude.{Option};
ghost use Rattle.serde_json.specs.Data.{Data};
ghost use Rattle.serde_json.specs.Find.{as_str};
ghost use Rattle.recording.specs.Forms.{count_in, count32_in, names_in, or_null};
ghost use Rattle.recording.specs.Reads.{Reads};

use crate::unread::Unread;
use json_trees::Tree;
use stage_graph::{Name, NameList};
use std::alloc::Global;

/// A value that can be read from a JSON value of its form.
pub(crate) trait FromJson: Sized {
    /// The value that a JSON value is, if it has the form.
    ghost form: { Data → Option Self };

    /// The value, if the JSON value has its form.
    fn from_json(alloc: Global, value: &Tree<'_, '_>) -> Result<Self, Unread>
        ensures { Reads result (form value.now) };
}

/// A count: a whole number from 0 to 2^64 - 1.
impl FromJson for u64 {
    ghost form = { count_in };

    fn from_json(_: Global, value: &Tree<'_, '_>) -> Result<u64, Unread> {
        value.as_u64().ok_or(Unread::Shape)
    }
}

/// A count below 2^32.
impl FromJson for u32 {
    ghost form = { count32_in };

    fn from_json(alloc: Global, value: &Tree<'_, '_>) -> Result<u32, Unread> {
        let count = u64::from_json(alloc, value)?;
        u32::try_from(count).map_err(|_| Unread::Shape)
    }
}

/// The name of a stage: any text, for it is the graph that checks names.
impl FromJson for Name {
    ghost form = { as_str };

    fn from_json(alloc: Global, value: &Tree<'_, '_>) -> Result<Name, Unread> {
        match value.as_str() {
            Some(name) => Ok(Name::new(alloc, name)?),
            None => Err(Unread::Shape),
        }
    }
}

/// An array of names of stages.
impl FromJson for NameList {
    ghost form = { names_in };

    fn from_json(alloc: Global, value: &Tree<'_, '_>) -> Result<NameList, Unread> {
        let Some(mut items) = value.as_array() else {
            return Err(Unread::Shape);
        };
        let mut names = NameList::new(alloc);
        while let Some(item) = items.next() {
            let name = Name::from_json(alloc, &item)?;
            names.push(name)?;
        }
        Ok(names)
    }
}

/// A value, or null for none.
impl<T: FromJson> FromJson for Option<T> {
    ghost form = { or_null T.form };

    fn from_json(alloc: Global, value: &Tree<'_, '_>) -> Result<Option<T>, Unread> {
        if value.is_null() {
            return Ok(None);
        }
        Ok(Some(T::from_json(alloc, value)?))
    }
}
