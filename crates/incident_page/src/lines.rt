//! Lines as the members of an array.
ghost use Rattle.std.specs.Prelude.{◌≡◌, ◌++◌, IfOk, OnOk};
ghost use Rattle.incident_page.specs.Lines.{separated, separated_byte};

use std::alloc::{AllocError, Global};

/// Adds a byte of a line, and behind the end of a line that is not the last one a comma.
fn push_separated(lines: &mut Vec<u8>, byte: u8, is_last: bool) -> Result<(), AllocError>
    ensures { OnOk result (lines.new.items ≡ lines.old.items ++ separated_byte byte is_last) }
{
    lines.push(byte)?;
    if byte == b'\n' && !is_last {
        lines.push(b',')?;
    }
    Ok(())
}

/// The lines, with a comma before each but the first.
pub(crate) fn separated(alloc: Global, text: &[u8]) -> Result<Vec<u8>, AllocError>
    ensures { IfOk result (λ lines. lines.items ≡ separated text.now) }
{
    let mut lines = Vec::with_capacity(alloc, text.len())?;
    let mut rest = text;
    while let Some((byte, others)) = rest.split_first() {
        push_separated(&mut lines, *byte, others.is_empty())?;
        rest = others;
    }
    Ok(lines)
}
