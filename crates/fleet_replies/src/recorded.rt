//! What came of the reply of a recording.
ghost use Rattle.std.specs.Prelude.{IfOk};
ghost use Rattle.stage_graph.specs.Walk.{IsRanked};
ghost use Rattle.fleet_replies.specs.Recorded.{IsReplyIn, IsReplyOfRecording};

use crate::naming::{name_grouping, named_reply};
use crate::question::Question;
use crate::reply::{Reply, reply_at};
use level_pool::Runner;
use propagate::StateRepresentation;
use recording::{Fault as ReadingFault, Told, read_labelled};
use stage_graph::Graph;
use std::alloc::{AllocError, Global};
use version_store::Version;

/// What came of the reply of a recording.
#[derive(Drop)]
pub enum RecordedReply {
    /// A stage stands for the reply. With the unit of the ticks, empty where that is not told.
    Replied(Reply, String),
    /// No stage stands for the reply.
    NoStage,
    /// The recording is refused.
    Refused(ReadingFault),
}

/// What came of the reply of a graph, if a stage stands for it.
fn reply_in<R: StateRepresentation, W: Runner>(
    alloc: Global,
    question: &Question<'_>,
    graph: Graph<R>,
    runner: &W,
) -> Result<Option<Reply>, AllocError>
    requires { IsRanked graph.places }
    ensures { IfOk result (IsReplyIn question.now graph) }
{
    let version = Version::load(alloc, graph)?;
    let Some(reply) = named_reply(&version, question.reply) else {
        return Ok(None);
    };
    let grouping = name_grouping(alloc, question.by, &version)?;
    let found = reply_at(alloc, &version, reply, &grouping, question.changes, runner)?;
    Ok(Some(found))
}

/// What came of the reply of a recording.
pub(crate) fn reply_of_recording<R: StateRepresentation, W: Runner>(
    alloc: Global,
    question: &Question<'_>,
    recording: &[u8],
    runner: &W,
) -> Result<RecordedReply, AllocError>
    ensures { IfOk result (IsReplyOfRecording question.now recording.now) }
{
    let (graph, told): (Graph<R>, Told) = match read_labelled(alloc, recording) {
        Ok(read) => read,
        Err(ReadingFault::Memory) => return Err(AllocError),
        Err(fault) => return Ok(RecordedReply::Refused(fault)),
    };
    match reply_in(alloc, question, graph, runner)? {
        Some(reply) => Ok(RecordedReply::Replied(reply, told.unit)),
        None => Ok(RecordedReply::NoStage),
    }
}
