//! Names of stages, which contracts see as lists.
ghost use Rattle.std.specs.Prelude.{◌≡◌, ◌↔◌, [], ◌∷◌, ◌++◌, IfOk, OnOk, OnErr, IsTrue};

use std::alloc::{AllocError, Global};
use std::marker::Model;

/// A text that names a stage, or is meant to: only a loaded graph checks that it is a name of a stage.
#[derive(Drop)]
pub struct Name {
    text: String,
}

impl Model for Name {
    ghost use Rattle.std.specs.Prelude.{ℕ, List, string_bytes};

    ghost Value = { List ℕ };

    ghost view = { λ name. string_bytes name.text };
}

impl Name {
    /// The name with this text.
    pub fn new(alloc: Global, text: &str) -> Result<Name, AllocError>
        ensures { IfOk result (λ name. name ≡ text.now) }
    {
        Ok(Name {
            text: String::from_str(alloc, text)?,
        })
    }

    /// The text.
    pub fn as_str(&self) -> &str
        ensures { result.now ≡ self.now }
    {
        self.text.as_str()
    }

    /// Whether two names have the same text.
    pub fn same(&self, other: &Name) -> bool
        ensures { IsTrue result ↔ (self.now ≡ other.now) }
    {
        self.as_str() == other.as_str()
    }

    /// A clone of the name.
    pub fn again(&self) -> Result<Name, AllocError>
        ensures { IfOk result (λ same. same ≡ self.now) }
    {
        Ok(Name {
            text: self.text.clone()?,
        })
    }
}

/// Names of stages, in order.
#[derive(Drop)]
pub struct NameList {
    items: Vec<Name>,
}

impl Model for NameList {
    ghost use Rattle.std.specs.Prelude.{ℕ, List};

    ghost Value = { List (List ℕ) };

    ghost view = { λ names. names.items.items };
}

impl NameList {
    /// No names.
    pub fn new(alloc: Global) -> NameList
        ensures { result ≡ [] }
    {
        NameList {
            items: Vec::new(alloc),
        }
    }

    /// Adds a name at the end; if out of memory, the names stay as they are.
    pub fn push(&mut self, name: Name) -> Result<(), AllocError>
        ensures added { OnOk result (self.new ≡ self.old ++ name ∷ []) }
        ensures kept { OnErr result (self.new ≡ self.old) }
    {
        self.items.push(name)?;
        Ok(())
    }

    /// The names, in order.
    pub fn as_slice(&self) -> &[Name]
        ensures { result.now ≡ self.now }
    {
        self.items.as_slice()
    }
}
