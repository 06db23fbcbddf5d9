//! Ids in base64, as protobuf's own JSON has them.
ghost use Rattle.std.specs.Prelude.{◌≡◌, IfOk};
ghost use Rattle.trace_spans.specs.Base64Ids.{base64_id};

use crate::text::Text;
use base64::DecodeAllocError;
use base64::engine::general_purpose::STANDARD;
use std::alloc::{AllocError, Global};

/// The hexadecimal digits of an id that a text has in base64, if it does: of eight bytes or sixteen.
#[tactic(auto, unfolding(crate::specs::Base64Ids::base64_id))]
pub(crate) fn base64_id(alloc: Global, text: &str) -> Result<Option<Text>, AllocError>
    ensures { IfOk result (λ id. id ≡ base64_id text.now) }
{
    match STANDARD.decode(alloc, text.as_bytes()) {
        Ok(bytes) => {
            if bytes.len() == 8 || bytes.len() == 16 {
                Ok(Some(Text::of(hex::encode(alloc, bytes.as_slice())?)))
            } else {
                Ok(None)
            }
        }
        Err(DecodeAllocError::OutOfMemory) => Err(AllocError),
        Err(DecodeAllocError::DecodeError(_)) => Ok(None),
    }
}
