//! JSON texts.
ghost use Rattle.std.specs.Prelude.{◌≡◌};
ghost use Rattle.trace_spans.specs.Texts.{is_blank, json_of};
ghost use Rattle.trace_spans.specs.Reads.{IsRead};

use crate::fault::Fault;
use json::Scratch;
use json_trees::{Document, Unread};
use std::alloc::Global;

/// The value of a JSON text, read in the room that is lent.
#[tactic(auto, unfolding(crate::specs::Texts::json_of))]
pub(crate) fn read_json<'a>(
    alloc: Global,
    text: &'a str,
    room: &'a mut Scratch,
) -> Result<Document<'a>, Fault>
    ensures { IsRead result (json_of text.now) }
{
    match Document::parse(alloc, text, room) {
        Ok(document) => Ok(document),
        Err(Unread::Memory) => Err(Fault::Memory),
        Err(Unread::NotJson) => Err(Fault::Json),
    }
}

/// Whether a line has nothing but white space.
#[tactic(auto, unfolding(crate::specs::Texts::is_blank))]
pub(crate) fn is_blank(line: &str) -> bool
    ensures { result ≡ is_blank line.now }
{
    line.as_bytes()
        .iter()
        .all(|byte| *byte == b' ' || *byte == b'\t' || *byte == b'\r')
}
