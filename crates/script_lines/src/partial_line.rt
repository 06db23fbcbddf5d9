//! The line that is being read.
ghost use Rattle.std.specs.Prelude.{◌≡◌, ℕ, List, [], ◌∷◌, ◌++◌, Some, OnOk, OnErr, IfSome, IsNone};
ghost use Rattle.std.specs.Option.{option_map};
ghost use Rattle.script_lines.specs.Lines.{IsBegun, IsUnbroken, comes_after, line_begun};
ghost use Rattle.script_lines.specs.Seen.{seen};

use crate::line::{Line, is_blank};
use memchr::memchr;
use std::alloc::{AllocError, Global};
use std::marker::Model;

// The most bytes that a line may have.
const LONGEST: usize = 65_536;

/// The part of a line that was read. Contracts see its bytes, or none if it is longer than a line may be.
#[derive(Drop)]
pub struct PartialLine {
    text: Vec<u8>,
    is_too_long: bool,
}

impl Model for PartialLine {
    ghost use Rattle.std.specs.Prelude.{ℕ, List, Option, None, Some, if◌then◌else◌};

    ghost Value = { Option (List ℕ) };

    ghost use Rattle.script_lines.specs.PartialFields.{IsPartialLine};

    ghost view = { λ partial. if partial.is_too_long then None else Some partial.text.items };

    ghost invariant = { IsPartialLine };
}

impl PartialLine {
    /// No line yet.
    pub fn new(alloc: Global) -> PartialLine
        ensures { result ≡ Some [] }
    {
        PartialLine {
            text: Vec::new(alloc),
            is_too_long: false,
        }
    }

    /// Appends to the line. If out of memory, the line stays as it was.
    pub fn extend(&mut self, piece: &[u8]) -> Result<(), AllocError>
        requires { IsUnbroken piece.now }
        ensures begun { IsBegun self.new }
        ensures more { OnOk result ((bytes : List ℕ) → comes_after self.old (piece.now ++ bytes) ≡ comes_after self.new bytes) }
        ensures refused { OnErr result (self.new ≡ self.old) }
    {
        if !self.is_too_long {
            if piece.len() <= LONGEST - self.text.len() {
                self.text.extend_from_slice(piece)?;
            } else {
                self.is_too_long = true;
            }
        }
        Ok(())
    }

    /// The line, if it ends here; None where it is a blank one.
    pub fn line(&self) -> Option<Line<'_>>
        ensures { option_map seen result ≡ line_begun self.now }
    {
        if self.is_too_long {
            Some(Line::TooLong)
        } else if is_blank(&self.text) {
            None
        } else {
            Some(Line::Kept(&self.text))
        }
    }

    /// Begins the next line.
    pub fn clear(&mut self)
        ensures { self.new ≡ Some [] }
    {
        self.text.clear();
        self.is_too_long = false;
    }
}

/// The bytes before the first line end, and the bytes after it.
pub fn split_line(text: &[u8]) -> Option<(&[u8], &[u8])>
    ensures some { IfSome result (λ parts. IsUnbroken parts.0.now × (text.now ≡ parts.0.now ++ 10 ∷ parts.1.now)) }
    ensures none { IsNone result → IsUnbroken text.now }
{
    let end = memchr(b'\n', text)?;
    Some((&text[..end], &text[end + 1..]))
}
