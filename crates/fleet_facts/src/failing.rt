//! What a reply failed by.
ghost use Rattle.std.specs.Prelude.{◌≡◌, IfOk};
ghost use Rattle.fleet_facts.specs.Failing.{exception_of, failure_at, group_name_at, origin_of};

use act_expr::{ExName, Outcome};
use fleet_summary::{Failure, Name};
use propagate::StateRepresentation;
use span_groups::Grouping;
use std::alloc::{AllocError, Global};
use version_store::{StageView, Version};

/// The exception of an outcome, if it is one.
fn exception_of(outcome: &Outcome) -> Option<ExName>
    ensures { result ≡ exception_of outcome.now }
{
    match outcome {
        Outcome::Value(_) => None,
        Outcome::Bare(name) | Outcome::Wrapped(name) => Some(*name),
    }
}

/// The stage in which the exception of a stage arose: the last of the stage's chain of blame.
fn origin_of<R: StateRepresentation>(
    alloc: Global,
    view: &StageView<'_, R>,
) -> Result<u32, AllocError>
    ensures { IfOk result (λ origin. origin ≡ origin_of view.now.version.now.graph view.now.place) }
{
    let blame = view.blame(alloc)?;
    match blame.as_slice().last() {
        Some(origin) => Ok(*origin),
        None => Ok(view.place),
    }
}

/// The name of the group to which the stage at a place counts, or its own where it counts to none.
fn group_name_at<R: StateRepresentation>(
    alloc: Global,
    version: &Version<R>,
    grouping: &Grouping,
    place: u32,
) -> Result<Name, AllocError>
    ensures { IfOk result (λ name. name ≡ group_name_at version.now.graph grouping.now place) }
{
    match grouping.name_at(place) {
        Some(name) => name.copy(alloc),
        None => Name::new(alloc, version.graph().name_of(place).as_bytes()),
    }
}

/// What a stage failed by, if it did: the exception, and the group in which that arose.
pub fn failure_at<R: StateRepresentation>(
    alloc: Global,
    view: &StageView<'_, R>,
    grouping: &Grouping,
) -> Result<Option<Failure>, AllocError>
    ensures { IfOk result (λ failure. failure ≡ failure_at view.now.version.now.graph grouping.now view.now.place) }
{
    let Some(outcome) = view.outcome() else {
        return Ok(None);
    };
    let Some(exception) = exception_of(&outcome) else {
        return Ok(None);
    };
    let origin = origin_of(alloc, view)?;
    Ok(Some(Failure {
        exception: Name::new(alloc, exception.text().as_bytes())?,
        group: group_name_at(alloc, view.version, grouping, origin)?,
    }))
}
