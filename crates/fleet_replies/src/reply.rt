//! What a reply came to, and what it comes to by each change that is tried.
ghost use Rattle.std.specs.Prelude.{IfOk};
ghost use Rattle.fleet_replies.specs.Replies.{AreTried, IsReplyAt};

use change_words::{Change, MakingFault};
use fleet_facts::facts_of;
use fleet_summary::TraceFacts;
use fleet_tries::tried_facts;
use level_pool::Runner;
use propagate::StateRepresentation;
use span_groups::Grouping;
use std::alloc::{AllocError, Global};
use version_store::{QueryFault, Version};

/// What a reply came to.
#[derive(Drop)]
pub struct Found {
    pub facts: TraceFacts,
    /// The same after each change that was tried, in their order.
    pub tried: Vec<TraceFacts>,
}

/// A change that is not made of a trace.
#[derive(Drop)]
pub struct NotTried {
    /// Its number among those that are tried.
    pub number: usize,
    pub fault: MakingFault,
}

/// What there is of a reply.
#[derive(Drop)]
pub enum Reply {
    /// It came.
    Found(Found),
    /// It is pending, or nothing stands where it was to be.
    Missing,
    /// It came, and a change is not made.
    NotTried(NotTried),
}

/// What a reply comes to by each change, or the first change that is not made.
fn all_tried<R: StateRepresentation, W: Runner>(
    alloc: Global,
    version: &Version<R>,
    reply: u32,
    grouping: &Grouping,
    facts: &TraceFacts,
    changes: &[Change],
    runner: &W,
) -> Result<Result<Vec<TraceFacts>, NotTried>, AllocError>
    ensures { IfOk result (AreTried version.now.graph grouping.now reply facts.now changes.now) }
{
    let mut tried = Vec::new(alloc);
    for number in 0..changes.len() {
        let change = &changes[number];
        match tried_facts(alloc, version, reply, grouping, facts, change, runner) {
            Ok(after) => tried.push(after)?,
            Err(fault) => match fault {
                MakingFault::Memory => return Err(AllocError),
                fault => return Ok(Err(NotTried { number, fault })),
            },
        }
    }
    Ok(Ok(tried))
}

/// What the stage at a place came to as the reply of its recording, whose stages count to groups as `grouping` says; and what it comes
/// to by each of some changes of groups, each made by itself.
pub fn reply_at<R: StateRepresentation, W: Runner>(
    alloc: Global,
    version: &Version<R>,
    reply: u32,
    grouping: &Grouping,
    changes: &[Change],
    runner: &W,
) -> Result<Reply, AllocError>
    ensures { IfOk result (IsReplyAt version.now.graph grouping.now reply changes.now) }
{
    let facts = match facts_of(alloc, version, reply, grouping) {
        Ok(Some(facts)) => facts,
        Ok(None) | Err(QueryFault::NoStage) => return Ok(Reply::Missing),
        Err(QueryFault::Memory) => return Err(AllocError),
    };
    match all_tried(alloc, version, reply, grouping, &facts, changes, runner)? {
        Ok(tried) => Ok(Reply::Found(Found { facts, tried })),
        Err(not_tried) => Ok(Reply::NotTried(not_tried)),
    }
}
