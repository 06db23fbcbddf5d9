//! Graphs, their orders, and why edits of them are refused.
use anyhow::Result;
use stage_graph::{Fault, Graph, Refusal, Refused, Representation, Stage};
use std::fmt::Write;
use version_store::{StateRepresentation, Version};

/// Tells places, with a space before each.
fn push_places(places: &[u32], text: &mut String) -> Result<()> {
    for place in places {
        write!(text, " {place}")?;
    }
    Ok(())
}

/// Tells the name of a stage and the places of its feeds.
fn push_stage(stage: &Stage, text: &mut String) -> Result<()> {
    write!(text, " {}", stage.name.as_str())?;
    push_places(stage.sources.as_slice(), text)?;
    push_places(stage.inner.as_slice(), text)?;
    text.push_str(";")?;
    Ok(())
}

/// Tells each place of a graph: the name of its stage and the places of its feeds, or a dash.
pub(crate) fn push_graph<R: Representation>(graph: &Graph<R>, text: &mut String) -> Result<()> {
    text.push_str("graph:")?;
    for place in 0..graph.len() as u32 {
        match graph.stage(place) {
            Some(stage) => push_stage(stage, text)?,
            None => text.push_str(" -;")?,
        }
    }
    text.push_str("\n")?;
    Ok(())
}

/// Tells the rank and the dependents of a place, if a stage stands there.
fn push_rank<R: StateRepresentation>(
    version: &Version<R>,
    place: u32,
    text: &mut String,
) -> Result<()> {
    if let (Ok(rank), Ok(dependents)) = (version.rank(place), version.dependents(place)) {
        write!(text, " {place} at {rank}")?;
        push_places(dependents, text)?;
        text.push_str(";")?;
    }
    Ok(())
}

/// Tells the order of a version's graph.
pub(crate) fn push_order<R: StateRepresentation>(
    version: &Version<R>,
    text: &mut String,
) -> Result<()> {
    text.push_str("order:")?;
    for place in 0..version.graph().len() as u32 {
        push_rank(version, place, text)?;
    }
    text.push_str("\n")?;
    Ok(())
}

/// Tells a refusal: its number and name, its detail, and the index of its edit.
fn push_refused(refused: &Refused, text: &mut String) -> Result<()> {
    let (refusal, at) = (refused.refusal, refused.at);
    write!(text, "refused {refusal}")?;
    if let Refusal::InUse(place) = refusal {
        write!(text, " {place}")?;
    }
    write!(text, " in {at}\n")?;
    Ok(())
}

/// Tells why edits are refused.
pub(crate) fn push_fault(fault: &Fault, text: &mut String) -> Result<()> {
    match fault {
        Fault::Refused(refused) => push_refused(refused, text)?,
        Fault::Cycle(path) => {
            text.push_str("refused 19 Cycle")?;
            push_places(path.as_slice(), text)?;
            text.push_str("\n")?;
        }
        Fault::Memory => text.push_str("refused 90 Memory\n")?,
    }
    Ok(())
}
