//! Bytes, parsed as JSON.
ghost use Rattle.recording.specs.RecordingOf.{json_or_fault};
ghost use Rattle.recording.specs.Reads.{IsRead};

use crate::Fault;
use json::Scratch;
use json_trees::{Document, Unread};
use simdutf8::compat::from_utf8;
use std::alloc::Global;

/// The JSON in these bytes, read in the room that is lent.
pub(crate) fn read_json<'a>(
    alloc: Global,
    bytes: &'a [u8],
    room: &'a mut Scratch,
) -> Result<Document<'a>, Fault>
    ensures { IsRead result (json_or_fault bytes.now) }
{
    let Ok(text) = from_utf8(bytes) else {
        return Err(Fault::Json);
    };
    match Document::parse(alloc, text, room) {
        Ok(document) => Ok(document),
        Err(Unread::Memory) => Err(Fault::Memory),
        Err(Unread::NotJson) => Err(Fault::Json),
    }
}
