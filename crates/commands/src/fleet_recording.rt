//! The recordings of a fleet's files: each on one line, or a file that is one.
use crate::fleet_lines::{MOST_LINES, read_line};
use console::{Fault, Voice};
use serde_json::{Category, Value};
use std::alloc::{AllocError, Global};
use std::io::BufRead;
use std::str;

/// Whether a text is a recording.
fn is_recording(alloc: Global, text: &[u8]) -> Result<bool, AllocError> {
    let may_be = match str::from_utf8(text) {
        Ok(text) => text.contains("\"stages\""),
        Err(_) => false,
    };
    if !may_be {
        return Ok(false);
    }
    match Value::from_slice(alloc, text) {
        Ok(value) => Ok(value.get("stages").is_some()),
        Err(error) => match error.classify() {
            Category::Memory => Err(AllocError),
            _ => Ok(false),
        },
    }
}

/// The lines that have a text, with their numbers, from 1.
pub(crate) fn lines_of<'b>(
    alloc: Global,
    bytes: &'b [u8],
) -> Result<Vec<(usize, &'b [u8])>, AllocError> {
    let mut lines = Vec::new(alloc);
    let mut number: usize = 0;
    for line in bytes.split(|byte| *byte == b'\n') {
        number = number.saturating_add(1);
        if !line.iter().all(|byte| byte.is_ascii_whitespace()) {
            lines.push((number, line))?;
        }
    }
    Ok(lines)
}

/// The recordings of a file with their lines, if it has some: each is on one line, or the file is one.
pub(crate) fn recordings_in<'b>(
    alloc: Global,
    bytes: &'b [u8],
) -> Result<Option<Vec<(usize, &'b [u8])>>, AllocError> {
    let lines = lines_of(alloc, bytes)?;
    let Some((_, first)) = lines.first() else {
        return Ok(None);
    };
    if is_recording(alloc, *first)? {
        return Ok(Some(lines));
    }
    if lines.len() > 1 && is_recording(alloc, bytes)? {
        let mut whole = Vec::new(alloc);
        whole.push((1, bytes))?;
        return Ok(Some(whole));
    }
    Ok(None)
}

/// Whether the first line that has a text is a recording.
pub(crate) fn begins_with_recording<B: BufRead>(
    alloc: Global,
    voice: Voice<'_>,
    reader: &mut B,
) -> Result<bool, Fault> {
    let mut line = Vec::new(alloc);
    for _ in 0..MOST_LINES {
        line.clear();
        let length = read_line(voice, reader, &mut line)?;
        let is_blank = line.iter().all(|byte| byte.is_ascii_whitespace());
        if length == 0 || !is_blank {
            return Ok(is_recording(alloc, &line)?);
        }
    }
    Ok(false)
}
