//! The texts that name stages.
ghost use Rattle.std.specs.Prelude.{◌≡◌, ◌++◌, IfOk, OnOk, string_bytes};
ghost use Rattle.trace_import.specs.StageNames.{ending_of, name_at, numbered, place_of, stage_name};

use stage_graph::Name;
use std::alloc::{AllocError, Global};
use std::fmt::Write;
use trace_spans::TextList;
use trace_stages::StageName;

/// Room for most endings.
const ROOM: usize = 16;

/// The name of the span at a place.
pub(crate) fn name_at(names: &TextList, place: usize) -> &str
    ensures { result.now ≡ name_at names.now place }
{
    match names.as_slice().get(place) {
        Some(name) => name.as_str(),
        None => "",
    }
}

/// Puts an ending with a number at the end of a text, but for the number 1.
fn push_numbered(text: &mut String, ending: &str, number: usize) -> Result<(), AllocError>
    ensures { OnOk result (string_bytes text.new ≡ string_bytes text.old ++ numbered ending.now number) }
{
    if number > 1 {
        write!(text, "{ending}-{number}")
    } else {
        text.push_str(ending)
    }
}

/// Puts what a stage has after the name of its span at the end of a text.
fn push_ending(text: &mut String, name: StageName) -> Result<(), AllocError>
    ensures { OnOk result (string_bytes text.new ≡ string_bytes text.old ++ ending_of name) }
{
    match name {
        StageName::Whole(_) => Ok(()),
        StageName::Start(_) => text.push_str(".start"),
        StageName::Join(_, number) => push_numbered(text, ".join", number),
        StageName::Work(_, number) => push_numbered(text, ".work", number),
        StageName::Tried(_) => text.push_str(".tried"),
        StageName::Limit(_) => text.push_str(".limit"),
        StageName::Answer(_) => text.push_str(".answer"),
    }
}

/// The span of a stage.
fn place_of(name: StageName) -> usize
    ensures { result ≡ place_of name }
{
    match name {
        StageName::Whole(place)
        | StageName::Start(place)
        | StageName::Join(place, _)
        | StageName::Work(place, _)
        | StageName::Tried(place)
        | StageName::Limit(place)
        | StageName::Answer(place) => place,
    }
}

/// The name of a stage.
#[tactic(auto, using(crate::proofs::Names::put_together))]
pub(crate) fn stage_name(
    alloc: Global,
    names: &TextList,
    name: StageName,
) -> Result<Name, AllocError>
    ensures { IfOk result (λ text. text ≡ stage_name names.now name) }
{
    let of_span = name_at(names, place_of(name));
    if let StageName::Whole(_) = name {
        return Name::new(alloc, of_span);
    }
    let mut text = String::with_capacity(alloc, of_span.len().saturating_add(ROOM))?;
    text.push_str(of_span)?;
    push_ending(&mut text, name)?;
    Name::new(alloc, text.as_str())
}
