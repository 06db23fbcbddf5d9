//! What came of the reply of a trace.
ghost use Rattle.std.specs.Prelude.{IfOk};
ghost use Rattle.stage_graph.specs.Walk.{IsRanked};
ghost use Rattle.fleet_replies.specs.Traced.{IsGraphReply, IsReadReply, IsReplyOfTrace};

use crate::placed::{Placed, place_reply};
use crate::question::Question;
use crate::reply::{Reply, reply_at};
use change_words::Change;
use level_pool::Runner;
use propagate::StateRepresentation;
use recording::{Fault as ReadingFault, read_recording};
use stage_graph::Graph;
use std::alloc::{AllocError, Global};
use trace_import::{ImportFault, TraceRecording, trace_recording};
use trace_relations::RelationsFault;
use trace_spans::{Fault as TraceFault, Trace};
use version_store::Version;

/// What came of the reply of a trace.
#[derive(Drop)]
pub enum TraceReply {
    /// A stage stands for the reply in the trace's recording.
    Replied(Reply),
    /// No span of the trace answers.
    NoSpan,
    /// The trace makes no recording.
    NotImported(ImportFault),
    /// The recording that the trace makes is refused.
    Refused(ReadingFault),
}

/// Whether memory is out, so that no other trace can be imported either.
fn is_memory(fault: &ImportFault) -> bool {
    matches!(
        fault,
        ImportFault::Refused(TraceFault::Memory)
            | ImportFault::Unticked(RelationsFault::Memory)
            | ImportFault::Memory
    )
}

/// What came of the reply at a place of a graph.
fn reply_in<R: StateRepresentation, W: Runner>(
    alloc: Global,
    graph: Graph<R>,
    placed: &Placed,
    changes: &[Change],
    runner: &W,
) -> Result<Reply, AllocError>
    requires { IsRanked graph.places }
    ensures { IfOk result (IsGraphReply graph placed.now changes.now) }
{
    let version = Version::load(alloc, graph)?;
    reply_at(
        alloc,
        &version,
        placed.reply,
        &placed.grouping,
        changes,
        runner,
    )
}

/// What came of the reply at a place of the recording that a trace makes.
fn reply_read<R: StateRepresentation, W: Runner>(
    alloc: Global,
    made: &TraceRecording<'_>,
    placed: &Placed,
    changes: &[Change],
    runner: &W,
) -> Result<TraceReply, AllocError>
    ensures { IfOk result (IsReadReply made.now.text.items placed.now changes.now) }
{
    match read_recording::<R>(alloc, &made.text) {
        Ok(graph) => Ok(TraceReply::Replied(reply_in(alloc, graph, placed, changes, runner)?)),
        Err(ReadingFault::Memory) => Err(AllocError),
        Err(fault) => Ok(TraceReply::Refused(fault)),
    }
}

/// What came of the reply of a trace.
pub(crate) fn reply_of_trace<R: StateRepresentation, W: Runner>(
    alloc: Global,
    question: &Question<'_>,
    trace: &Trace,
    runner: &W,
) -> Result<TraceReply, AllocError>
    ensures { IfOk result (IsReplyOfTrace question.now trace.now) }
{
    let made = match trace_recording(alloc, question.mapping, trace) {
        Ok(made) => made,
        Err(fault) if is_memory(&fault) => return Err(AllocError),
        Err(fault) => return Ok(TraceReply::NotImported(fault)),
    };
    match place_reply(alloc, question.by, question.reply, &made.reading)? {
        Some(placed) => reply_read::<R, W>(alloc, &made, &placed, question.changes, runner),
        None => Ok(TraceReply::NoSpan),
    }
}
