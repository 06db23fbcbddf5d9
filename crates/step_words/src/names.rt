//! Stages by their names, or by parts of these.
ghost use Rattle.std.specs.Prelude.{◌≡◌, IfOk, OnOk, ◌++◌};
ghost use Rattle.std.specs.Option.{option_to_list};
ghost use Rattle.stage_graph.specs.Plain.{stage_at};
ghost use Rattle.step_words.specs.declared.names.Like.{Like};
ghost use Rattle.step_words.specs.Names.{begins, has_part, is_like, name_like, names_like, stage_in, the_only};
ghost use Rattle.step_words.specs.Said.{IsSaid};

use crate::mistake::Mistake;
use stage_graph::{Graph, Name, NameList, Representation};
use std::alloc::{AllocError, Global};

/// How a text stands in a name.
#[derive(Clone, Copy, Debug, PartialEq, Eq)]
pub enum Like {
    /// The name begins with it.
    Beginning,
    /// It is a part of the name.
    Part,
}

/// Whether a name begins with a text.
fn begins(name: &str, text: &str) -> bool
    ensures { result ≡ begins name.now text.now }
{
    name.starts_with(text)
}

/// Whether a text is a part of a name.
fn has_part(name: &str, text: &str) -> bool
    ensures { result ≡ has_part name.now text.now }
{
    name.contains(text)
}

impl Like {
    /// Whether a text stands so in a name.
    fn is_like(self, name: &str, text: &str) -> bool
        ensures { result ≡ is_like self name.now text.now }
    {
        match self {
            Like::Beginning => begins(name, text),
            Like::Part => has_part(name, text),
        }
    }
}

/// Adds the name of the stage at a place, if there is one and the text stands so in its name.
fn push_like<R: Representation>(
    graph: &Graph<R>,
    place: u32,
    like: Like,
    text: &str,
    names: &mut NameList,
) -> Result<(), AllocError>
    ensures { OnOk result (names.new ≡ names.old ++ option_to_list (name_like like text.now (stage_at graph.now.places place))) }
{
    match graph.stage(place) {
        Some(stage) => {
            if like.is_like(stage.name.as_str(), text) {
                names.push(stage.name.again()?)?;
            }
            Ok(())
        }
        None => Ok(()),
    }
}

/// The names of a graph's stages in which a text stands so, by their places.
pub fn names_like<R: Representation>(
    alloc: Global,
    graph: &Graph<R>,
    like: Like,
    text: &str,
) -> Result<NameList, AllocError>
    ensures { IfOk result (λ names. names ≡ names_like like text.now graph.now.places) }
{
    let mut names = NameList::new(alloc);
    for place in 0..graph.len() as u32 {
        push_like(graph, place, like, text, &mut names)?;
    }
    Ok(names)
}

/// The name, if it is the only one.
#[tactic(auto, unfolding(crate::specs::Names::the_only))]
fn the_only(names: &[Name]) -> Result<Name, Mistake>
    ensures { IsSaid result (the_only names.now) }
{
    match names {
        [] => Err(Mistake::NoStage),
        [name] => Ok(name.again()?),
        _ => Err(Mistake::SeveralStages),
    }
}

/// The name of the only stage whose name begins with a text.
fn only_beginning<R: Representation>(
    alloc: Global,
    graph: &Graph<R>,
    text: &str,
) -> Result<Name, Mistake>
    ensures { IsSaid result (the_only (names_like Like.Beginning text.now graph.now.places)) }
{
    let names = names_like(alloc, graph, Like::Beginning, text)?;
    the_only(names.as_slice())
}

/// The name of the stage that a text names: its whole name, or a beginning of its name alone.
pub fn stage_in<R: Representation>(
    alloc: Global,
    graph: &Graph<R>,
    text: &str,
) -> Result<Name, Mistake>
    ensures { IsSaid result (stage_in graph.now.places text.now) }
{
    if text.is_empty() {
        return Err(Mistake::Missing);
    }
    if graph.id_of(text).is_some() {
        return Ok(Name::new(alloc, text)?);
    }
    only_beginning(alloc, graph, text)
}
