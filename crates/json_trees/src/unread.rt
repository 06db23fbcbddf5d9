//! Why a text was not read.
ghost use Rattle.std.specs.Prelude.{Some, Ok, Err};

use thiserror::Error;

/// Why a text was not read.
#[derive(Clone, Copy, PartialEq, Eq, Debug, Error)]
pub enum Unread {
    #[error("the text is no JSON")]
    NotJson,
    #[error("out of memory")]
    Memory,
}
