//! What came of the replies of several traces.
ghost use Rattle.std.specs.Prelude.{IfOk};
ghost use Rattle.fleet_replies.specs.Traces.{AreReplies, IsReplyNumbered};

use crate::beside::found_beside;
use crate::question::Question;
use crate::traced::{TraceReply, reply_of_trace};
use level_pool::{OneThread, Workers};
use propagate::StateRepresentation;
use std::alloc::{AllocError, Global};
use std::thread::Threads;
use trace_spans::Trace;

/// What came of the reply of the trace of a number; of none where there are fewer.
fn reply_numbered<R: StateRepresentation, H: Threads + Sync>(
    alloc: Global,
    threads: &H,
    question: &Question<'_>,
    traces: &[Trace],
    number: u32,
) -> Result<TraceReply, AllocError>
    ensures { IsReplyNumbered question.now traces.now number result }
{
    match traces.get(number as usize) {
        Some(trace) => reply_of_trace::<R, OneThread<H>>(
            alloc,
            question,
            trace,
            &OneThread::new(threads),
        ),
        None => Ok(TraceReply::NoSpan),
    }
}

/// What came of the reply of each of some traces in their order, or that memory ran out for it. So many workers
/// find it beside each other; what they find is of each trace by itself, so it does not depend on how many they are.
pub fn replies_of_traces<R: StateRepresentation, H: Threads + Sync>(
    alloc: Global,
    threads: &H,
    workers: Workers,
    question: &Question<'_>,
    traces: &[Trace],
) -> Result<Vec<Result<TraceReply, AllocError>>, AllocError>
    ensures { IfOk result (λ replies. AreReplies question.now traces.now replies.items) }
{
    let Ok(count) = u32::try_from(traces.len()) else {
        return Err(AllocError);
    };
    found_beside(
        alloc,
        threads,
        workers,
        count,
        &|number: u32| -> Result<TraceReply, AllocError>
            ensures { IsReplyNumbered question.entry.now traces.entry.now number result }
        { reply_numbered::<R, H>(alloc, threads, question, traces, number) },
    )
}
