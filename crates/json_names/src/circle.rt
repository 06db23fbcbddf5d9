//! Stages that wait for each other.
ghost use Rattle.std.specs.Prelude.{◌≡◌, IfOk, map, option_map, slice_get, take};
ghost use Rattle.std.specs.List.{list_any};
ghost use Rattle.json_names.specs.Circles.{circle_names, is_awaited, is_text, items_of, stages_of, waits_for};

use crate::members::{items_of, name_of};
use json_trees::Tree;
use std::alloc::{AllocError, Global};
use std::fmt;

/// The most names of a circle that are told.
const MOST_TOLD: usize = 32;

/// Names of stages, each of which waits for the next one; the last is the first.
#[derive(Drop)]
pub struct Circle<'a> {
    pub names: Vec<&'a str>,
}

/// Whether a value is this text.
fn is_text(value: &Tree<'_, '_>, text: &str) -> bool
    ensures { result ≡ is_text text.now value.now }
{
    value.as_str() == Some(text)
}

/// Whether one of the elements of a member is this text.
fn has_text(object: &Tree<'_, '_>, member: &str, text: &str) -> bool
    ensures { result ≡ list_any (is_text text.now) (items_of member.now object.now) }
{
    let mut items = items_of(object, member);
    'items: while let Some(item) = items.next() {
        if is_text(&item, text) {
            return true;
        }
    }
    false
}

/// Whether a stage names another one as its source or as an inner stage.
fn waits_for(stage: &Tree<'_, '_>, name: &str) -> bool
    ensures { result ≡ waits_for stage.now name.now }
{
    has_text(stage, "sources", name) || has_text(stage, "inner", name)
}

/// Whether the stage before, if there is one, waits for the one of this name.
fn is_awaited(before: Option<&Tree<'_, '_>>, name: &str) -> bool
    ensures { result ≡ is_awaited (option_map (λ stage. stage.now) before.entry) name.now }
{
    match before {
        Some(stage) => waits_for(stage, name),
        None => true,
    }
}

/// The stages of a recording, so that each is found by its place.
fn stages_in<'t, 'a>(
    alloc: Global,
    recording: &Tree<'t, 'a>,
) -> Result<Vec<Tree<'t, 'a>>, AllocError>
    ensures { IfOk result (λ stages. stages.items ≡ stages_of recording.now) }
{
    let mut stages = Vec::new(alloc);
    let mut items = items_of(recording, "stages");
    'items: while let Some(item) = items.next() {
        stages.push(item)?;
    }
    Ok(stages)
}

/// The stage at a place.
fn stage_at<'v, 't, 'a>(stages: &'v [Tree<'t, 'a>], place: u32) -> Option<&'v Tree<'t, 'a>>
    ensures { option_map (λ stage. stage.now) result ≡ slice_get stages.now place }
{
    stages.get(place as usize)
}

/// The stages of these places, if each of them waits for the next one.
pub fn circle_of<'a>(
    alloc: Global,
    recording: &Tree<'_, 'a>,
    places: &[u32],
) -> Result<Option<Circle<'a>>, AllocError>
    ensures { IfOk result (λ found. option_map (λ circle. map (λ name. name.now) circle.names.items) found ≡ circle_names recording.now places.now) }
{
    let list = stages_in(alloc, recording)?;
    let stages = list.as_slice();
    let mut names = Vec::new(alloc);
    let mut before: Option<&Tree<'_, 'a>> = None;
    for place in places {
        let Some(stage) = stage_at(stages, *place) else {
            return Ok(None);
        };
        let Some(name) = name_of(stage) else {
            return Ok(None);
        };
        if !is_awaited(before, name) {
            return Ok(None);
        }
        names.push(name)?;
        before = Some(stage);
    }
    Ok(Some(Circle { names }))
}

/// Names, with a comma between each two.
#[derive(Clone, Copy)]
struct Listed<'a>(&'a [&'a str]);

impl fmt::Display for Listed<'_> {
    ghost use Rattle.std.specs.Prelude.{Some, map};
    ghost use Rattle.json_names.specs.Circles.{listed};

    ghost output = { λ names. Some (listed (map (λ name. name.now) names.0.now)) };

    fn fmt<W: fmt::Write>(&self, f: &mut fmt::Formatter<W>) -> fmt::Result {
        let Some((first, rest)) = self.0.split_first() else {
            return Ok(());
        };
        f.write_str(first)?;
        for name in rest {
            f.write_str(", ")?;
            f.write_str(name)?;
        }
        Ok(())
    }
}

/// The first names, which are told.
fn told<'a, 'b>(names: &'a [&'b str]) -> &'a [&'b str]
    ensures { result.now ≡ take MOST_TOLD names.now }
{
    if names.len() > MOST_TOLD {
        &names[..MOST_TOLD]
    } else {
        names
    }
}

impl fmt::Display for Circle<'_> {
    ghost use Rattle.std.specs.Prelude.{Some, map};
    ghost use Rattle.json_names.specs.Circles.{circle_text};

    ghost output = { λ circle. Some (circle_text (map (λ name. name.now) circle.names.items)) };

    fn fmt<W: fmt::Write>(&self, f: &mut fmt::Formatter<W>) -> fmt::Result {
        let names = self.names.as_slice();
        let told = Listed(told(names));
        write!(f, "these stages wait for each other: {told}")?;
        let all = names.len();
        if all > MOST_TOLD {
            write!(f, ", and so on: {all} in all")?;
        }
        Ok(())
    }
}
