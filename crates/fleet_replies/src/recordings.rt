//! What came of the replies of several recordings.
ghost use Rattle.std.specs.Prelude.{IfOk};
ghost use Rattle.fleet_replies.specs.Recordings.{AreRecordedReplies, IsRecordedNumbered};

use crate::beside::found_beside;
use crate::question::Question;
use crate::recorded::{RecordedReply, reply_of_recording};
use level_pool::{OneThread, Workers};
use propagate::StateRepresentation;
use std::alloc::{AllocError, Global};
use std::thread::Threads;

/// What came of the reply of the recording of a number; of none where there are fewer.
fn recorded_numbered<R: StateRepresentation, H: Threads + Sync>(
    alloc: Global,
    threads: &H,
    question: &Question<'_>,
    recordings: &[&[u8]],
    number: u32,
) -> Result<RecordedReply, AllocError>
    ensures { IsRecordedNumbered question.now recordings.now number result }
{
    match recordings.get(number as usize) {
        Some(recording) => reply_of_recording::<R, OneThread<H>>(
            alloc,
            question,
            *recording,
            &OneThread::new(threads),
        ),
        None => Ok(RecordedReply::NoStage),
    }
}

/// What came of the reply of each of some recordings in their order, or that memory ran out for it. So many
/// workers find it beside each other; what they find is of each recording by itself, so it does not depend on how many they are.
pub fn replies_of_recordings<R: StateRepresentation, H: Threads + Sync>(
    alloc: Global,
    threads: &H,
    workers: Workers,
    question: &Question<'_>,
    recordings: &[&[u8]],
) -> Result<Vec<Result<RecordedReply, AllocError>>, AllocError>
    ensures { IfOk result (λ replies. AreRecordedReplies question.now recordings.now replies.items) }
{
    let Ok(count) = u32::try_from(recordings.len()) else {
        return Err(AllocError);
    };
    found_beside(
        alloc,
        threads,
        workers,
        count,
        &|number: u32| -> Result<RecordedReply, AllocError>
            ensures { IsRecordedNumbered question.entry.now recordings.entry.now number result }
        { recorded_numbered::<R, H>(alloc, threads, question, recordings, number) },
    )
}
