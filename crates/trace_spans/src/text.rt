//! Texts and lists of texts, which contracts see as lists.
ghost use Rattle.std.specs.Prelude.{◌≡◌, ◌↔◌, [], ◌∷◌, ◌++◌, IfOk, OnOk, OnErr, IsTrue, string_bytes};

use std::alloc::{AllocError, Global};
use std::marker::Model;

/// A text of its own.
#[derive(Drop, Debug)]
pub struct Text {
    text: String,
}

impl Model for Text {
    ghost use Rattle.std.specs.Prelude.{ℕ, List, string_bytes};

    ghost Value = { List ℕ };

    ghost view = { λ text. string_bytes text.text };
}

impl Text {
    /// A copy of the text.
    pub fn new(alloc: Global, text: &str) -> Result<Text, AllocError>
        ensures { IfOk result (λ copy. copy ≡ text.now) }
    {
        Ok(Text {
            text: String::from_str(alloc, text)?,
        })
    }

    /// The text of a string.
    pub fn of(text: String) -> Text
        ensures { result ≡ string_bytes text }
    {
        Text { text }
    }

    /// The text as a string.
    pub fn into_string(self) -> String
        ensures { string_bytes result ≡ self }
    {
        self.text
    }

    pub fn as_str(&self) -> &str
        ensures { result.now ≡ self.now }
    {
        self.text.as_str()
    }

    /// Whether two texts are the same.
    pub fn same(&self, other: &Text) -> bool
        ensures { IsTrue result ↔ (self.now ≡ other.now) }
    {
        self.as_str() == other.as_str()
    }
}

/// Texts, in order.
#[derive(Drop, Debug)]
pub struct TextList {
    items: Vec<Text>,
}

impl Model for TextList {
    ghost use Rattle.std.specs.Prelude.{ℕ, List};

    ghost Value = { List (List ℕ) };

    ghost view = { λ texts. texts.items.items };
}

impl TextList {
    /// No texts.
    pub fn new(alloc: Global) -> TextList
        ensures { result ≡ [] }
    {
        TextList {
            items: Vec::new(alloc),
        }
    }

    /// Adds a text at the end; where memory is out the texts stay as they are.
    pub fn push(&mut self, text: Text) -> Result<(), AllocError>
        ensures added { OnOk result (self.new ≡ self.old ++ text ∷ []) }
        ensures kept { OnErr result (self.new ≡ self.old) }
    {
        self.items.push(text)?;
        Ok(())
    }

    /// The texts, in order.
    pub fn as_slice(&self) -> &[Text]
        ensures { result.now ≡ self.now }
    {
        self.items.as_slice()
    }

    /// Whether two lists have the same texts.
    pub fn same(&self, other: &TextList) -> bool
        ensures { IsTrue result ↔ (self.now ≡ other.now) }
    {
        let texts = self.as_slice();
        let others = other.as_slice();
        if texts.len() != others.len() {
            return false;
        }
        for place in 0..texts.len() {
            if !texts[place].same(&others[place]) {
                return false;
            }
        }
        true
    }
}
