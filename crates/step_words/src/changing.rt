//! Changes and edits, as the words of a line say them.
ghost use Rattle.std.specs.Prelude.{Err, List, Result};
ghost use Rattle.stage_graph.specs.declared.edit.Edit.{Edit};
ghost use Rattle.change_words.specs.declared.fault.MakingFault.{MakingFault};
ghost use Rattle.change_words.specs.Making.{IsMade};
ghost use Rattle.step_words.specs.Changing.{change_in, change_read, edits_in, edits_made, or_not_made, with_stage};
ghost use Rattle.step_words.specs.Said.{IsSaid};

use crate::mistake::Mistake;
use crate::names::stage_in;
use change_words::{Change, MakingFault, ReadFault, edits_of};
use stage_graph::{Edits, Graph, Representation};
use std::alloc::Global;
use std::slice;

/// The change that a text is.
fn change_read(alloc: Global, text: &str) -> Result<Change, Mistake>
    ensures { IsSaid result (change_read text.now) }
{
    match Change::of(alloc, text) {
        Ok(change) => Ok(change),
        Err(ReadFault::Misread(_)) => Err(Mistake::NoChange),
        Err(ReadFault::Memory) => Err(Mistake::Memory),
    }
}

/// The change, of the stage that its name names.
fn with_stage<R: Representation>(
    alloc: Global,
    graph: &Graph<R>,
    change: Change,
) -> Result<Change, Mistake>
    ensures { IsSaid result (with_stage graph.now.places change) }
{
    let name = stage_in(alloc, graph, change.name.as_str())?;
    Ok(Change { name, ..change })
}

/// The change that a text is, of a stage of the graph.
pub fn change_in<R: Representation>(
    alloc: Global,
    graph: &Graph<R>,
    text: &str,
) -> Result<Change, Mistake>
    ensures { IsSaid result (change_in graph.now.places text.now) }
{
    if text.is_empty() {
        return Err(Mistake::Missing);
    }
    let change = change_read(alloc, text)?;
    with_stage(alloc, graph, change)
}

/// Why changes make no edits, unless memory ran out.
fn not_made(fault: MakingFault) -> Mistake
    ensures { (meant : Result (List Edit) MakingFault) → IsMade (Err fault) meant → IsSaid (Err result) (or_not_made meant) }
{
    match fault {
        MakingFault::Memory => Mistake::Memory,
        fault => Mistake::NotMade(fault),
    }
}

/// The edits that a change is of a graph.
fn edits_made<R: Representation>(
    alloc: Global,
    graph: &Graph<R>,
    changes: &[Change],
) -> Result<Edits, Mistake>
    ensures { IsSaid result (edits_made changes.now graph.now) }
{
    match edits_of(alloc, graph, changes) {
        Ok(edits) => Ok(edits),
        Err(fault) => Err(not_made(fault)),
    }
}

/// The edits that the change of a text is of a graph.
pub fn edits_in<R: Representation>(
    alloc: Global,
    graph: &Graph<R>,
    text: &str,
) -> Result<Edits, Mistake>
    ensures { IsSaid result (edits_in graph.now text.now) }
{
    let change = change_in(alloc, graph, text)?;
    edits_made(alloc, graph, slice::from_ref(&change))
}
