//! A text of which each line is a JSON text.
ghost use Rattle.std.specs.Prelude.{◌≡◌, ℕ, List, ◌∷◌, IfOk, true, false};
ghost use Rattle.serde_json.specs.Data.{Data};
ghost use Rattle.trace_spans.specs.Lines.{ReadsOn, spans_after, told_after};
ghost use Rattle.trace_spans.specs.Members.{then_on};
ghost use Rattle.trace_spans.specs.Reads.{IsFault, IsRead};
ghost use Rattle.trace_spans.specs.Spans.{told_by_texts};
ghost use Rattle.trace_spans.specs.Texts.{is_blank, json_of, last_text, lines_of, nothing_more, texts_of_lines, with_text};

use crate::fault::Fault;
use crate::formats::add_text;
use crate::json_text::{is_blank, read_json};
use crate::span::Spans;
use crate::told::Told;
use json::Scratch;
use json_trees::Tree;
use std::alloc::{AllocError, Global};

/// What the lines so far tell: their spans, or why they are refused.
///
/// A line that is no JSON is refused before a fault in a line's spans, wherever they stand. So a fault in the spans waits
/// until the lines after it have been seen, and each line is read once, in the room of the one before it.
#[derive(Drop)]
enum Reading {
    Spans(Spans),
    Refused(Fault),
}

/// The spans that all lines tell, of which the last is cut or isn't.
fn told(reading: Reading, is_cut: bool) -> Result<Told, Fault>
    ensures { result ≡ told_after reading (nothing_more is_cut) }
{
    match reading {
        Reading::Spans(spans) => Ok(Told { spans, is_cut }),
        Reading::Refused(fault) => Err(fault),
    }
}

/// What the lines tell with one more text, which is the line of that number.
fn with_text(
    alloc: Global,
    so_far: Reading,
    text: &Tree<'_, '_>,
    number: usize,
) -> Result<Reading, AllocError>
    ensures { IfOk result (λ reading. (texts : List Data) → spans_after so_far (text.now ∷ texts) ≡ spans_after reading texts) }
{
    match so_far {
        Reading::Refused(fault) => Ok(Reading::Refused(fault)),
        Reading::Spans(mut spans) => match add_text(alloc, text, &mut spans) {
            Ok(()) => Ok(Reading::Spans(spans)),
            Err(fault) => match fault {
                Fault::Memory => Err(AllocError),
                fault => Ok(Reading::Refused(fault.in_line(alloc, number))),
            },
        },
    }
}

/// What the lines tell with one more line, the one of that number.
fn read_line(
    alloc: Global,
    line: &str,
    number: usize,
    room: &mut Scratch,
    so_far: Reading,
) -> Result<Reading, Fault>
    ensures { ReadsOn so_far line.now result }
{
    let document = read_json(alloc, line, room)?;
    Ok(with_text(alloc, so_far, &document.root(), number)?)
}

/// What the lines tell with the last one, which is a text.
fn last_told(
    alloc: Global,
    so_far: Reading,
    text: &Tree<'_, '_>,
    number: usize,
) -> Result<Told, Fault>
    ensures { IsRead result (told_after so_far (with_text text.now (nothing_more false))) }
{
    let reading = with_text(alloc, so_far, text, number)?;
    told(reading, false)
}

/// What the lines tell with the last one, which is blank: there have to be some before it.
fn told_before(so_far: Reading, some_before: bool) -> Result<Told, Fault>
    ensures { (line : List ℕ) → is_blank line ≡ true → result ≡ then_on (last_text some_before line) (told_after so_far) }
{
    if some_before {
        return told(so_far, false);
    }
    Err(Fault::Json)
}

/// What the lines tell with the last one, which is no text for that reason; of a file that is still written it may be cut.
fn cut_off(fault: Fault, some_before: bool, so_far: Reading) -> Result<Told, Fault>
    ensures { (line : List ℕ) → is_blank line ≡ false → IsFault fault (json_of line) → IsRead result (then_on (last_text some_before line) (told_after so_far)) }
{
    if !some_before {
        return Err(fault);
    }
    match fault {
        Fault::Json => told(so_far, true),
        fault => Err(fault),
    }
}

/// What the lines tell with the last one, which no line end ends.
fn read_last(
    alloc: Global,
    line: &str,
    number: usize,
    some_before: bool,
    room: &mut Scratch,
    so_far: Reading,
) -> Result<Told, Fault>
    ensures { IsRead result (then_on (last_text some_before line.now) (told_after so_far)) }
{
    if is_blank(line) {
        return told_before(so_far, some_before);
    }
    match read_json(alloc, line, room) {
        Ok(document) => last_told(alloc, so_far, &document.root(), number),
        Err(fault) => cut_off(fault, some_before, so_far),
    }
}

/// The spans of a text whose lines are JSON texts, but for blank lines.
pub(crate) fn read_lines(alloc: Global, text: &str) -> Result<Told, Fault>
    ensures { IsRead result (then_on (texts_of_lines false (lines_of text.now)) told_by_texts) }
{
    let mut room = Scratch::new(alloc);
    let mut reading = Reading::Spans(Spans::new(alloc));
    let mut number: usize = 0;
    let mut some = false;
    let mut rest = text;
    while let Some((line, others)) = rest.split_once('\n') {
        number = number.saturating_add(1);
        rest = others;
        if !is_blank(line) {
            reading = read_line(alloc, line, number, &mut room, reading)?;
            some = true;
        }
    }
    read_last(
        alloc,
        rest,
        number.saturating_add(1),
        some,
        &mut room,
        reading,
    )
}
