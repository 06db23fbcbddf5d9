//! The names of exceptions.
ghost use Rattle.std.specs.Prelude.{◌≡◌, ◌+◌, ◌-◌, ◌≤◌, ◌++◌, ℕ, Some, length, replicate, IsTrue, nat_eq};
ghost use Rattle.std.specs.List.{list_all};
ghost use Rattle.std.specs.Cmp.{partial_equiv_from_equiv};
ghost use Rattle.std.specs.Cmp.Lexicographic.{pointwise, nat_list_eq_equiv};
ghost use Rattle.act_expr.specs.ExceptionName.{null_pointer, arithmetic, is_name_byte, is_exception_name, exception_name};

use std::marker::Model;
use std::{fmt, str};

/// The exception that wraps others. A stage that holds one holds its cause, wrapped.
const COMPLETION_EXCEPTION: &str = "java.util.concurrent.CompletionException";

/// The name of an exception, compared as a whole text: 1 to 128 ASCII letters, digits, `.`, `_` or
/// `$`, but not `java.util.concurrent.CompletionException`.
#[derive(Clone, Copy)]
pub struct ExName {
    /// The text, padded with zeros.
    bytes: [u8; 128],
    len: usize,
}

impl Model for ExName {
    ghost use Rattle.std.specs.Prelude.{◌≡◌, ◌-◌, ◌++◌, ℕ, List, length, take, replicate, IsTrue};
    ghost use Rattle.std.proofs.Common.{sym, ap, ◌∙◌};
    ghost use Rattle.act_expr.specs.ExceptionName.{is_exception_name};

    ghost Value = { List ℕ };

    ghost view = { λ name. take name.len name.bytes };

    ghost invariant = { λ name.
        IsTrue (is_exception_name (take name.len name.bytes))
        × (length (take name.len name.bytes) ≡ name.len)
        × (name.bytes ≡ take name.len name.bytes ++ replicate (128 - name.len) 0) };

    ghost inverse = { λ text. record { bytes = text ++ replicate (128 - length text) 0; len = length text } };

    ghost inverse_ok = { λ name h i. record {
      bytes = (ap (λ n. take name.len name.bytes ++ replicate (128 - n) 0) h.1 ∙ sym h.2) i;
      len = h.1 i;
    } };
}

/// Whether a byte may stand in an exception name.
fn is_name_byte(byte: u8) -> bool
    ensures { result ≡ is_name_byte byte }
{
    byte.is_ascii_alphanumeric() || byte == b'.' || byte == b'_' || byte == b'$'
}

/// Whether all bytes may stand in an exception name.
fn are_name_bytes(bytes: &[u8]) -> bool
    ensures { result ≡ list_all is_name_byte bytes.now }
{
    bytes.iter().all(|byte| is_name_byte(*byte))
}

/// Whether a text is an exception name.
fn is_exception_name(text: &str) -> bool
    ensures { result ≡ is_exception_name text.now }
{
    let bytes = text.as_bytes();
    0 < bytes.len() && bytes.len() <= 128 && are_name_bytes(bytes) && text != COMPLETION_EXCEPTION
}

/// The text, padded with zeros.
#[inline(always)]
fn padded(text: &[u8]) -> [u8; 128]
    requires { length text.now ≤ 128 }
    ensures { result ≡ text.now ++ replicate (128 - length text.now) 0 }
{
    let mut bytes = [0; 128];
    bytes[..text.len()].copy_from_slice(text);
    bytes
}

impl ExName {
    /// The exception name that a text is, if it is one. Allocates nothing.
    pub fn new(text: &str) -> Option<ExName>
        ensures { result ≡ exception_name text.now }
    {
        if is_exception_name(text) {
            Some(ExName::known(text.as_bytes()))
        } else {
            None
        }
    }

    /// A text that is known to be an exception name.
    #[inline(always)]
    pub(crate) fn known(text: &[u8]) -> ExName
        requires { IsTrue (is_exception_name text.now) }
        ensures { result ≡ text.now }
    {
        ExName {
            bytes: padded(text),
            len: text.len(),
        }
    }

    /// `java.lang.NullPointerException`: what an operator throws at a null operand, and a compose operation whose
    /// function gave null.
    #[inline(always)]
    pub fn null_pointer() -> ExName
        ensures { result ≡ null_pointer }
    {
        ExName::known(b"java.lang.NullPointerException")
    }

    /// What a division by 0 throws.
    #[inline(always)]
    pub(crate) fn arithmetic() -> ExName
        ensures { result ≡ arithmetic }
    {
        ExName::known(b"java.lang.ArithmeticException")
    }

    /// The text of the name.
    #[inline(always)]
    pub fn text(&self) -> &str
        ensures text { result.now ≡ self.now }
        ensures name { IsTrue (is_exception_name self.now) }
    {
        str::from_utf8(&self.bytes[..self.len]).unwrap()
    }
}

impl PartialEq for ExName {
    ghost eq = { λ x y. pointwise nat_eq x y };

    ghost laws = { partial_equiv_from_equiv nat_list_eq_equiv };

    fn eq(&self, other: &Self) -> bool {
        self.text() == other.text()
    }
}

impl Eq for ExName {
    ghost laws = { nat_list_eq_equiv };
}

impl fmt::Display for ExName {
    ghost output = { λ name. Some name };

    fn fmt<W: fmt::Write>(&self, f: &mut fmt::Formatter<W>) -> fmt::Result {
        f.pad(self.text())
    }
}

impl fmt::Debug for ExName {
    fn fmt<W: fmt::Write>(&self, f: &mut fmt::Formatter<W>) -> fmt::Result {
        fmt::Debug::fmt(&self.text(), f)
    }
}
