//! Traces.
ghost use Rattle.std.specs.Prelude.{false, option_copied};
ghost use Rattle.trace_spans.specs.Members.{then_on};
ghost use Rattle.trace_spans.specs.Reads.{IsRead};
ghost use Rattle.trace_spans.specs.Spans.{spans_of, told_by_bytes, told_by_texts};
ghost use Rattle.trace_spans.specs.Texts.{nothing_more, texts_of, texts_of_text, with_text};

use crate::choice::{chosen_trace, spans_of_trace};
use crate::fault::Fault;
use crate::formats::add_text;
use crate::json_text::read_json;
use crate::lines::read_lines;
use crate::span::Spans;
use crate::text::Text;
use crate::told::Told;
use json::Scratch;
use json_trees::Tree;
use simdutf8::compat::from_utf8;
use std::alloc::Global;

/// How many bytes a file may have.
const LONGEST: usize = 268_435_456;

/// A trace: its id without leading zeros, and its spans but for repeats, in the order of the file; and whether the last
/// line of the file is cut, and was left out.
#[derive(Drop)]
pub struct Trace {
    pub id: Text,
    pub spans: Spans,
    pub is_cut: bool,
}

/// The spans of a file that is one text.
fn read_alone(alloc: Global, text: &Tree<'_, '_>) -> Result<Told, Fault>
    ensures { IsRead result (told_by_texts (with_text text.now (nothing_more false))) }
{
    let mut spans = Spans::new(alloc);
    add_text(alloc, text, &mut spans)?;
    Ok(Told {
        spans,
        is_cut: false,
    })
}

/// The spans of a text that is one JSON text, or whose lines are.
#[tactic(auto, unfolding(crate::specs::Texts::texts_of_text))]
fn read_text(alloc: Global, text: &str) -> Result<Told, Fault>
    ensures { IsRead result (then_on (texts_of_text text.now) told_by_texts) }
{
    let mut room = Scratch::new(alloc);
    let fault = match read_json(alloc, text, &mut room) {
        Ok(document) => return read_alone(alloc, &document.root()),
        Err(fault) => fault,
    };
    // (a line needs less room than the whole text)
    drop(room);
    match fault {
        Fault::Memory => Err(Fault::Memory),
        _ => read_lines(alloc, text),
    }
}

/// The spans of the JSON texts that bytes are.
#[tactic(auto, unfolding(crate::specs::Texts::texts_of))]
fn read_bytes(alloc: Global, bytes: &[u8]) -> Result<Told, Fault>
    ensures { IsRead result (then_on (texts_of bytes.now) told_by_texts) }
{
    match from_utf8(bytes) {
        Ok(text) => read_text(alloc, text),
        Err(_) => Err(Fault::Json),
    }
}

/// All spans of a file.
#[tactic(auto, unfolding(crate::specs::Spans::told_by_bytes))]
pub(crate) fn read_told(alloc: Global, bytes: &[u8]) -> Result<Told, Fault>
    ensures { IsRead result (told_by_bytes bytes.now) }
{
    if bytes.len() > LONGEST {
        return Err(Fault::TooLong);
    }
    read_bytes(alloc, bytes)
}

/// The trace in a file, of several the one that is asked for: by its id, or a beginning of it that no other has.
#[tactic(auto, unfolding(crate::specs::Spans::spans_of))]
pub fn read_trace(alloc: Global, bytes: &[u8], wanted: Option<&str>) -> Result<Trace, Fault>
    ensures { IsRead result (spans_of bytes.now (option_copied wanted.entry)) }
{
    let Told { spans, is_cut } = read_told(alloc, bytes)?;
    let id = chosen_trace(alloc, wanted, &spans)?;
    let spans = spans_of_trace(alloc, &id, spans)?;
    if spans.as_slice().is_empty() {
        return Err(Fault::NoTrace);
    }
    Ok(Trace { id, spans, is_cut })
}
