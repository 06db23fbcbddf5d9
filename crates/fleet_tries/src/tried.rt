//! What the reply of a trace comes to after a change of a group.
ghost use Rattle.std.specs.Prelude.{◌≡◌, IfOk};
ghost use Rattle.fleet_tries.specs.Tried.{AreFactsAfter, AreTriedFacts, IsAsBefore};

use crate::changes::changes_of;
use change_words::{Change, MakingFault};
use fleet_facts::failure_at;
use fleet_summary::{Failure, TraceFacts};
use level_pool::Runner;
use propagate::StateRepresentation;
use span_groups::Grouping;
use std::alloc::{AllocError, Global};
use tried_changes::tried_in_turn;
use version_store::{StageView, Version};

/// A failure once more, if there is one.
fn failure_copy(alloc: Global, failure: &Option<Failure>) -> Result<Option<Failure>, AllocError>
    ensures { IfOk result (λ copy. copy ≡ failure.now) }
{
    match failure {
        Some(failure) => Ok(Some(failure.copy(alloc)?)),
        None => Ok(None),
    }
}

/// What a reply came to, without what its groups did.
fn as_before(alloc: Global, facts: &TraceFacts) -> Result<TraceFacts, AllocError>
    ensures { IfOk result (IsAsBefore facts.now) }
{
    Ok(TraceFacts {
        time: facts.time,
        failure: failure_copy(alloc, &facts.failure)?,
        groups: Vec::new(alloc),
    })
}

/// What the reply comes to in a version, in which it stands; as it was where it never comes there.
fn facts_of_view<R: StateRepresentation>(
    alloc: Global,
    view: &StageView<'_, R>,
    grouping: &Grouping,
    facts: &TraceFacts,
) -> Result<TraceFacts, AllocError>
    ensures { IfOk result (AreFactsAfter view.now.version.now.graph grouping.now view.now.place facts.now) }
{
    match view.moment() {
        Some(time) => Ok(TraceFacts {
            time,
            failure: failure_at(alloc, view, grouping)?,
            groups: Vec::new(alloc),
        }),
        None => as_before(alloc, facts),
    }
}

/// What the reply comes to in a version; as it was where it never comes there.
fn facts_after<R: StateRepresentation>(
    alloc: Global,
    version: &Version<R>,
    reply: u32,
    grouping: &Grouping,
    facts: &TraceFacts,
) -> Result<TraceFacts, AllocError>
    ensures { IfOk result (AreFactsAfter version.now.graph grouping.now reply facts.now) }
{
    match version.stage(reply) {
        Some(view) => facts_of_view(alloc, &view, grouping, facts),
        None => as_before(alloc, facts),
    }
}

/// What the reply at a place of a trace comes to where a change of a group is made to each span of the group, as all of its changes
/// together: when it comes, and what it fails by. Where it never comes then it is taken to come as it did, as `facts` says. No group
/// is told of.
///
/// Errors: as of [`tried_in_turn`], of the changes that the change is of the trace's stages.
pub fn tried_facts<R: StateRepresentation, W: Runner>(
    alloc: Global,
    version: &Version<R>,
    reply: u32,
    grouping: &Grouping,
    facts: &TraceFacts,
    change: &Change,
    runner: &W,
) -> Result<TraceFacts, MakingFault>
    ensures { AreTriedFacts version.now.graph grouping.now reply facts.now change.now result }
{
    let changes = changes_of(alloc, version, grouping, change)?;
    match tried_in_turn(alloc, version, changes.as_slice(), runner)? {
        Some(after) => Ok(facts_after(alloc, &after, reply, grouping, facts)?),
        None => Ok(facts_after(alloc, version, reply, grouping, facts)?),
    }
}
