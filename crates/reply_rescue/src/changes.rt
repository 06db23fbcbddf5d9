//! The single changes of a stage that are tried, in order.
ghost use Rattle.std.specs.Prelude.{◌≡◌, ◌++◌, IfOk, OnOk};
ghost use Rattle.std.specs.Option.{option_to_list};
ghost use Rattle.reply_rescue.specs.Changes.{action_changes, at_ends, changes_with, longer_at, only_if, takes_away, without_at};

use crate::change::Change;
use crate::ends::{can_double, delay_at};
use stage_graph::{End, Stage};
use std::alloc::{AllocError, Global};

/// Adds a change at the end, if it is to be tried.
fn push_if(changes: &mut Vec<Change>, holds: bool, change: Change) -> Result<(), AllocError>
    ensures { OnOk result (changes.new.items ≡ changes.old.items ++ only_if holds change) }
{
    if holds {
        changes.push(change)?;
    }
    Ok(())
}

/// Adds a change at the end, if there is one.
fn push_some(changes: &mut Vec<Change>, change: &Option<Change>) -> Result<(), AllocError>
    ensures { OnOk result (changes.new.items ≡ changes.old.items ++ option_to_list change.now) }
{
    if let Some(change) = change {
        changes.push(*change)?;
    }
    Ok(())
}

/// Adds that the stage's action takes no time, if it takes any, and that it is not queued, if it is.
fn push_action_changes(changes: &mut Vec<Change>, stage: &Stage) -> Result<(), AllocError>
    ensures { OnOk result (changes.new.items ≡ changes.old.items ++ action_changes stage.now) }
{
    push_if(changes, stage.runs > 0, Change::NoTime)?;
    push_if(changes, stage.queued > 0, Change::NotQueued)
}

/// Whether a change takes the end of an index away.
fn takes_away(change: &Option<Change>, index: usize) -> bool
    ensures { result ≡ takes_away change.now index }
{
    match change {
        Some(Change::WithoutEnd { index: taken }) => *taken == index,
        _ => false,
    }
}

/// Adds that the end of an index is taken away, if it is a timeout and the change by which the stage's failure did not
/// arise does not do so.
fn push_without_end(
    changes: &mut Vec<Change>,
    failure: &Option<Change>,
    ends: &[End],
    index: usize,
) -> Result<(), AllocError>
    ensures { OnOk result (changes.new.items ≡ changes.old.items ++ without_at failure.now ends.now index) }
{
    let is_tried = delay_at(ends, index).is_some() && !takes_away(failure, index);
    push_if(changes, is_tried, Change::WithoutEnd { index })
}

/// The same for each end.
fn push_without_ends(
    changes: &mut Vec<Change>,
    failure: &Option<Change>,
    ends: &[End],
) -> Result<(), AllocError>
    ensures { OnOk result (changes.new.items ≡ changes.old.items ++ at_ends (without_at failure.now ends.now) ends.now) }
{
    for index in 0..ends.len() {
        push_without_end(changes, failure, ends, index)?;
    }
    Ok(())
}

/// Adds that the end of an index has twice the delay, if it is a timeout for which that is more.
fn push_longer_end(changes: &mut Vec<Change>, ends: &[End], index: usize) -> Result<(), AllocError>
    ensures { OnOk result (changes.new.items ≡ changes.old.items ++ longer_at ends.now index) }
{
    let is_tried = can_double(delay_at(ends, index));
    push_if(changes, is_tried, Change::TwiceTheDelay { index })
}

/// The same for each end.
fn push_longer_ends(changes: &mut Vec<Change>, ends: &[End]) -> Result<(), AllocError>
    ensures { OnOk result (changes.new.items ≡ changes.old.items ++ at_ends (longer_at ends.now) ends.now) }
{
    for index in 0..ends.len() {
        push_longer_end(changes, ends, index)?;
    }
    Ok(())
}

/// The changes of a stage that are tried, where that of its failure is known.
pub(crate) fn changes_with(
    alloc: Global,
    failure: &Option<Change>,
    stage: &Stage,
) -> Result<Vec<Change>, AllocError>
    ensures { IfOk result (λ changes. changes.items ≡ changes_with failure.now stage.now) }
{
    let ends = stage.ends.as_slice();
    let mut changes = Vec::new(alloc);
    push_action_changes(&mut changes, stage)?;
    push_some(&mut changes, failure)?;
    push_without_ends(&mut changes, failure, ends)?;
    push_longer_ends(&mut changes, ends)?;
    Ok(changes)
}
