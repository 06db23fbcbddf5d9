//! Reports: of places where no stage stands, and onto writers that take little at a time, nothing, or fail.
use crate::versions::made;
use level_pool::OneThread;
use report_rows::{Arisen, ReportFault, What};
use report_text::report;
use std::alloc::Global;
use std::process::Abort;
use std::test::Fail;
use std::thread::Threads;
use test_kit::{FIRST_RUN, SlowWriter};
use text_io::CountedWriter;
use version_store::{StateRepresentation, Version};

/// `a` of the first run holds an exception itself.
const PIN_BARE: &str = r#"{"do":"pinResult","session":1,"stage":"a","result":{"bare":"X"}}"#;

/// The reports of the first run with `a` pinned.
const PINNED: [(What, &str); 10] = [
    (
        What::All,
        "version 1 parent 0 mode computed stages 2\na async rank 0 bare:X at 10\nb thenApply rank 1 wrapped:X at 10\n",
    ),
    (
        What::One(0),
        "a async rank 0 bare:X at 10\nsources -\ninner -\ndependents b\n\
        join throws java.util.concurrent.CompletionException cause X\n",
    ),
    (What::Blame(1), "blame b a\n"),
    (
        What::Changes,
        "changes of version 1 from 0 touched 2\na value:4 at 10 -> bare:X at 10\nb value:5 at 15 -> wrapped:X at 10\n",
    ),
    (
        What::Drift,
        "drift of version 1 from 0 moved 1\nb earlier 5\n",
    ),
    (
        What::Times,
        "times of version 1 stages 2\na start - queued 0 runs 10\nb start - queued 0 runs 5\n",
    ),
    (What::Change(1), "b value:5 at 15 -> wrapped:X at 10\n"),
    (What::Ends, "ends of version 1 ends 0\n"),
    (
        What::Failures(Arisen::Anywhere),
        "failures of version 1 failures 1\na X at 10 reaches b; handled by -\n",
    ),
    (
        What::Failures(Arisen::In(1)),
        "failures of version 1 failures 0\n",
    ),
];

/// Whether all of a text was taken where its writing ended well, and else a beginning of it.
fn is_taken(end: Result<(), ReportFault>, taken: &[u8], text: &[u8]) -> bool {
    match end {
        Ok(()) => taken == text,
        Err(ReportFault::Write) => taken.len() < text.len() && text.starts_with(taken),
        Err(_) => false,
    }
}

/// Whether a report onto a writer ends well with all of its text, or else after a beginning of it.
fn ends_well<R: StateRepresentation>(
    alloc: Global,
    version: &Version<R>,
    what: What,
    text: &str,
    writer: SlowWriter,
) -> bool {
    let mut sink = CountedWriter::new(writer);
    let end = report(alloc, version, what, &mut sink);
    let writer = sink.into_inner();
    is_taken(end, writer.taken(), text.as_bytes())
}

/// A report onto writers at which more and more writes succeed, each of at most so many bytes.
fn each_ends_well<R: StateRepresentation>(
    rt: &impl Abort,
    alloc: Global,
    version: &Version<R>,
    at_once: usize,
) {
    for (what, text) in PINNED {
        for writes_left in 0..130 {
            let writer = SlowWriter::new(alloc, at_once, writes_left);
            assert!(rt; ends_well(alloc, version, what, text, writer));
        }
    }
}

/// At each number of writes a beginning of a report is written, and all of it where they suffice.
fn of_pinned<R: StateRepresentation, H: Abort + Threads + Sync>(
    rt: &H,
    alloc: Global,
) -> Result<(), Fail> {
    let version: Version<R> = made(alloc, &OneThread::new(rt), FIRST_RUN, PIN_BARE)?;
    for at_once in [0, 1, 1000] {
        each_ends_well(rt, alloc, &version, at_once);
    }
    Ok(())
}

/// Whether nothing is written of a report, since no stage stands at its place.
fn tells_nothing<R: StateRepresentation>(alloc: Global, version: &Version<R>, what: What) -> bool {
    let mut sink = CountedWriter::new(Vec::new(alloc));
    let end = report(alloc, version, what, &mut sink);
    end == Err(ReportFault::NoStage) && sink.into_inner().is_empty()
}

/// The first run without `b` has no reports of the place where it stood, nor of one behind it.
fn of_no_stage<R: StateRepresentation, H: Abort + Threads + Sync>(
    rt: &H,
    alloc: Global,
) -> Result<(), Fail> {
    let remove = r#"{"do":"remove","session":1,"stage":"b"}"#;
    let version: Version<R> = made(alloc, &OneThread::new(rt), FIRST_RUN, remove)?;
    for what in [
        What::One(1),
        What::Blame(1),
        What::Change(1),
        What::Failures(Arisen::In(1)),
        What::One(2),
        What::Blame(2),
    ] {
        assert!(rt; tells_nothing(alloc, &version, what));
    }
    Ok(())
}

/// What holds of reports.
pub(crate) fn hold<R: StateRepresentation, H: Abort + Threads + Sync>(
    rt: &H,
    alloc: Global,
) -> Result<(), Fail> {
    of_no_stage::<R, H>(rt, alloc)?;
    of_pinned::<R, H>(rt, alloc)
}
