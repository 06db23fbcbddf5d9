//! Texts that are borrowed from a version.
ghost use Rattle.std.specs.Prelude.{◌≡◌};

use std::marker::Model;

/// A text, such as the name of a stage. Contracts see its bytes.
#[derive(Drop)]
pub struct Text<'a> {
    content: &'a str,
}

impl<'a> Model for Text<'a> {
    ghost use Rattle.std.specs.Prelude.{List, ℕ};

    ghost Value = { List ℕ };

    ghost view = { λ text. text.content.now };
}

impl<'a> Text<'a> {
    /// This text, borrowed.
    #[inline(always)]
    pub fn new(content: &'a str) -> Text<'a>
        ensures { result ≡ content.now }
    {
        Text { content }
    }

    /// The text, for as long as it is borrowed.
    #[inline(always)]
    pub fn as_str(&self) -> &'a str
        ensures { result.now ≡ self.now }
    {
        self.content
    }
}
