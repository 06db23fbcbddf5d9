//! A change of a group, as changes of the stages of a trace.
ghost use Rattle.std.specs.Prelude.{◌≡◌, ◌++◌, IfOk, OnOk};
ghost use Rattle.std.specs.Option.{option_map, option_to_list};
ghost use Rattle.fleet_tries.specs.Changes.{at_end, change_at, changes_of, if_assigns, is_called, stage_change};

use crate::pieces::{Time, Work, piece_amount};
use change_words::Change;
use fleet_summary::Name;
use propagate::StateRepresentation;
use span_groups::{Counted, Grouping, counted_at};
use stage_graph::Stage;
use std::alloc::{AllocError, Global};
use version_store::Version;

/// What is assigned to the end of a span, if it is that.
fn at_end<T: Copy>(is_end: bool, assigned: Option<T>) -> Option<T>
    ensures { result ≡ at_end is_end assigned }
{
    if is_end { assigned } else { None }
}

/// What a change of a group is of the stage at a place, which counts to a span of the group.
fn stage_change<R: StateRepresentation>(
    version: &Version<R>,
    stages: &[Option<Counted>],
    change: &Change,
    place: u32,
    counted: Counted,
    stage: &Stage,
) -> Result<Change, AllocError>
    ensures { IfOk result (λ own. own ≡ stage_change version.now.graph stages.now change.now place counted stage.now) }
{
    let span = counted.stage.span;
    let is_end = counted.stage.is_end;
    let queued = Work {
        stages,
        span,
        time: Time::Queued,
    };
    let runs = Work {
        stages,
        span,
        time: Time::Runs,
    };
    Ok(Change {
        name: stage.name.again()?,
        queued: piece_amount(version, queued, place, change.queued),
        runs: piece_amount(version, runs, place, change.runs),
        outcome: at_end(is_end, change.outcome),
        moment: at_end(is_end, change.moment),
        limit: at_end(is_end, change.limit),
    })
}

/// The change, if it assigns something.
fn if_assigns(change: Change) -> Option<Change>
    ensures { result ≡ if_assigns change }
{
    if change.assigns() { Some(change) } else { None }
}

/// Whether a group, if it is one, has the name of a change.
fn is_called(group: Option<&Name>, change: &Change) -> bool
    ensures { result ≡ is_called (option_map (λ name. name.now) group.entry) change.now }
{
    match group {
        Some(name) => name.bytes() == change.name.as_str().as_bytes(),
        None => false,
    }
}

/// What a change of a group is of the stage at a place, if it is something.
fn change_at<R: StateRepresentation>(
    version: &Version<R>,
    grouping: &Grouping,
    change: &Change,
    place: u32,
) -> Result<Option<Change>, AllocError>
    ensures { IfOk result (λ own. own ≡ change_at version.now.graph grouping.now change.now place) }
{
    if !is_called(grouping.name_at(place), change) {
        return Ok(None);
    }
    let stages = grouping.stages.as_slice();
    match (counted_at(stages, place), version.graph().stage(place)) {
        (Some(counted), Some(stage)) => {
            let own = stage_change(version, stages, change, place, counted, stage)?;
            Ok(if_assigns(own))
        }
        _ => Ok(None),
    }
}

/// Adds a change, if there is one.
fn push_if(changes: &mut Vec<Change>, own: Option<Change>) -> Result<(), AllocError>
    ensures { OnOk result (changes.new.items ≡ changes.old.items ++ option_to_list own) }
{
    match own {
        Some(own) => {
            changes.push(own)?;
            Ok(())
        }
        None => Ok(()),
    }
}

/// What a change of a group is of the stages of a trace, by place: the times that it assigns are shared out to the work of each of the
/// group's spans, and what else it assigns is assigned to their ends. None where no group has its name.
pub fn changes_of<R: StateRepresentation>(
    alloc: Global,
    version: &Version<R>,
    grouping: &Grouping,
    change: &Change,
) -> Result<Vec<Change>, AllocError>
    ensures { IfOk result (λ changes. changes.items ≡ changes_of version.now.graph grouping.now change.now) }
{
    let mut changes = Vec::new(alloc);
    for place in 0..version.graph().len() as u32 {
        push_if(&mut changes, change_at(version, grouping, change, place)?)?;
    }
    Ok(changes)
}
