//! JSON texts, read once more.
use json::Scratch;
use json_trees::{Document, Unread};
use std::alloc::{AllocError, Global};

/// The JSON text that bytes are, read in the room that is lent, if they are one.
pub fn read_again<'a>(
    alloc: Global,
    bytes: &'a [u8],
    room: &'a mut Scratch,
) -> Result<Option<Document<'a>>, AllocError> {
    let Ok(text) = str::from_utf8(bytes) else {
        return Ok(None);
    };
    match Document::parse(alloc, text, room) {
        Ok(document) => Ok(Some(document)),
        Err(Unread::Memory) => Err(AllocError),
        Err(Unread::NotJson) => Ok(None),
    }
}
