//! Calls that write to a writer which has room.
ghost use Rattle.std.specs.Prelude.{◌≡◌, IfOk};
ghost use Rattle.text_io.specs.Counted.{write_failures};

use crate::told::Told;
use std::alloc::{AllocError, Global};
use text_io::CountedWriter;

/// The room of a writer.
const ROOM: usize = 65_536;

/// The number by which running out of memory is told.
const MEMORY: u32 = 90;

/// A writer that has room, so that it asks for no memory.
pub(crate) fn room(alloc: Global) -> Result<CountedWriter<Vec<u8>>, AllocError>
    ensures { IfOk result (λ sink. write_failures sink ≡ 0) }
{
    Ok(CountedWriter::new(Vec::with_capacity(alloc, ROOM)?))
}

/// Tells what was written, and the number of the refusal, if there was one; whether that tells that memory ran out.
pub(crate) fn push_written(
    text: &mut Told,
    sink: CountedWriter<Vec<u8>>,
    refusal: Option<u32>,
) -> bool {
    text.push_bytes(sink.into_inner().as_slice());
    match refusal {
        None => false,
        Some(MEMORY) => true,
        Some(number) => {
            text.push_number(number);
            false
        }
    }
}
