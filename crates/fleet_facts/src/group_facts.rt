//! What the groups of a trace had to do with its reply.
ghost use Rattle.std.specs.Prelude.{◌≡◌, IfOk, OnOk, length};
ghost use Rattle.time_sweep.specs.Starts.{IsStart};
ghost use Rattle.fleet_facts.specs.GroupFacts.{group_facts, time_then, AreFactsOfGroups, IsOfPath};

use crate::hurried::all_hurried;
use crate::on_path::share_of;
use fleet_summary::GroupFacts;
use propagate::StateRepresentation;
use span_groups::{Counted, Group, Grouping};
use stage_graph::Places;
use std::alloc::{AllocError, Global};
use time_sweep::{Changes, TrialStart};
use version_store::Version;

/// A reply, with what is the same for each group of its trace.
#[derive(Drop)]
pub(crate) struct Reply<'a> {
    /// What the trials of the groups start from.
    pub(crate) start: TrialStart<'a>,
    /// Why it came when it did.
    pub(crate) path: Places,
    /// The tick at which it came.
    pub(crate) time: u64,
}

/// The tick at which a reply comes where all work of a group takes no time; that at which it came, where it would never come then.
fn time_then<R: StateRepresentation>(
    alloc: Global,
    version: &Version<R>,
    reply: &Reply<'_>,
    stages: &[Option<Counted>],
    group: usize,
    room: &mut Changes,
) -> Result<u64, AllocError>
    requires start { IsStart version.now.graph reply.now.start }
    requires room { length room.old.at.items ≡ length reply.now.start.before.items }
    ensures time { IfOk result (λ time. time ≡ time_then version.now.graph stages.now group reply.now.start.target reply.now.time) }
    ensures room { OnOk result (length room.new.at.items ≡ length reply.now.start.before.items) }
{
    let hurried = all_hurried(alloc, version, stages, group)?;
    let done = reply
        .start
        .completion_with_all(alloc, version, hurried.as_slice(), room)?;
    match done {
        Some(done) => Ok(done.moment),
        None => Ok(reply.time),
    }
}

/// What the group of a number had to do with a reply.
fn group_facts<R: StateRepresentation>(
    alloc: Global,
    version: &Version<R>,
    reply: &Reply<'_>,
    stages: &[Option<Counted>],
    number: usize,
    group: &Group,
    room: &mut Changes,
) -> Result<GroupFacts, AllocError>
    requires start { IsStart version.now.graph reply.now.start }
    requires path { IsOfPath version.now.graph reply.now }
    requires room { length room.old.at.items ≡ length reply.now.start.before.items }
    ensures facts { IfOk result (λ facts. facts ≡ group_facts version.now.graph stages.now reply.now.start.target reply.now.time number group.now) }
    ensures room { OnOk result (length room.new.at.items ≡ length reply.now.start.before.items) }
{
    let share = share_of(version, stages, number, reply.path.as_slice());
    let time_then = time_then(alloc, version, reply, stages, number, room)?;
    Ok(GroupFacts {
        name: group.name.copy(alloc)?,
        spans: group.spans,
        is_on_path: share.is_on_path,
        ran: share.ran,
        queued: share.queued,
        time_then,
    })
}

/// What each group had to do with a reply.
pub(crate) fn all_group_facts<R: StateRepresentation>(
    alloc: Global,
    version: &Version<R>,
    reply: &Reply<'_>,
    grouping: &Grouping,
) -> Result<Vec<GroupFacts>, AllocError>
    requires start { IsStart version.now.graph reply.now.start }
    requires path { IsOfPath version.now.graph reply.now }
    ensures { IfOk result (λ facts. AreFactsOfGroups version.now.graph grouping.now reply.now.start.target reply.now.time facts.items) }
{
    let stages = grouping.stages.as_slice();
    let groups = grouping.groups.as_slice();
    let mut room = reply.start.room(alloc)?;
    let mut facts = Vec::with_capacity(alloc, groups.len())?;
    for number in 0..groups.len() {
        let group = &groups[number];
        let found = group_facts(alloc, version, reply, stages, number, group, &mut room)?;
        facts.push(found)?;
    }
    Ok(facts)
}
