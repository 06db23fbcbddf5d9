//! Scripts on the first run by `serve`, with readers and writers that give or take little at a time, nothing, or fail.
use crate::pipes::{Pipe, PipeReader, PipeWriter};
use level_pool::OneThread;
use recording::read_recording;
use report_form::Format;
use serve_script::{ServeFault, serve};
use std::alloc::Global;
use std::process::Abort;
use std::sync::atomic::{AtomicU64, Ordering};
use std::test::Fail;
use std::thread::Threads;
use test_kit::{FIRST_RUN, SlowReader, SlowWriter};
use text_io::{CountedReader, CountedWriter};
use version_store::StateRepresentation;

/// A base that has moved, and a step back.
const MOVED_AND_UNDONE: &str = r#"{"do":"open","session":1,"version":0}
{"do":"head","session":1}
{"do":"head","session":1}
{"do":"setTakes","session":1,"base":0,"stage":"a","takes":20}
{"do":"setTakes","session":1,"base":0,"stage":"b","takes":1}
{"do":"undo","session":1}
{"do":"setTakes","session":1,"base":0,"stage":"b","takes":1}
{"do":"report","version":2,"what":"all"}
"#;

const MOVED_AND_UNDONE_ANSWERS: &str = "opened 1 at 0\n\
    head 0\n\
    head 0\n\
    committed 1\n\
    refused 53 Moved 1\n\
    undone 0\n\
    committed 2\n\
    version 2 parent 0 mode computed stages 2\n\
    a async rank 0 value:4 at 10\n\
    b thenApply rank 1 value:5 at 11\n";

/// `a` holds an exception itself.
const PIN_BARE: &str = r#"{"do":"open","session":1,"version":0}
{"do":"pinResult","session":1,"stage":"a","result":{"bare":"X"}}
{"do":"report","version":1,"what":"all"}
{"do":"report","version":1,"what":"blame","stage":"b"}
{"do":"report","version":1,"what":"changes"}
{"do":"report","version":1,"what":"drift"}
"#;

const PIN_BARE_ANSWERS: &str = "opened 1 at 0\n\
    committed 1\n\
    version 1 parent 0 mode computed stages 2\n\
    a async rank 0 bare:X at 10\n\
    b thenApply rank 1 wrapped:X at 10\n\
    blame b a\n\
    changes of version 1 from 0 touched 2\n\
    a value:4 at 10 -> bare:X at 10\n\
    b value:5 at 15 -> wrapped:X at 10\n\
    drift of version 1 from 0 moved 1\n\
    b earlier 5\n";

/// A reader of a script that gives so many bytes at a time and makes so many reads.
fn reader(script: &str, at_once: usize, reads_left: usize) -> SlowReader<'_> {
    SlowReader::new(script.as_bytes(), at_once, reads_left)
}

/// As many bytes, reads or writes as a script can need.
const MANY: usize = 1_000_000;

/// How a script ends between these devices, and how much was written by then: a beginning of its answers.
fn served<R: StateRepresentation, H: Abort + Threads + Sync>(
    rt: &H,
    alloc: Global,
    reader: SlowReader<'_>,
    writer: SlowWriter,
    answers: &str,
) -> Result<(Result<(), ServeFault>, usize), Fail> {
    let graph = read_recording::<R>(alloc, FIRST_RUN.as_bytes())?;
    let runner = OneThread::new(rt);
    let mut source = CountedReader::new(reader);
    let mut sink = CountedWriter::new(writer);
    let end = serve(alloc, &runner, &mut source, &mut sink, graph, Format::Text);
    let writer = sink.into_inner();
    assert!(rt; answers.as_bytes().starts_with(writer.taken()));
    Ok((end, writer.taken().len()))
}

/// A script whose reads give a byte each, up to one that fails: an answer is only written once its step was read.
fn slow_readers<R: StateRepresentation, H: Abort + Threads + Sync>(
    rt: &H,
    alloc: Global,
    script: &str,
    answers: &str,
) -> Result<(), Fail> {
    // one read for each byte, and one that gives none
    let reads = script.len() + 1;
    for allowed in 0..reads {
        let failing = reader(script, 1, allowed);
        let (end, _) = served::<R, H>(
            rt,
            alloc,
            failing,
            SlowWriter::new(alloc, MANY, MANY),
            answers,
        )?;
        assert!(rt; end == Err(ServeFault::Read));
    }
    let slow = reader(script, 1, reads);
    let end = served::<R, H>(rt, alloc, slow, SlowWriter::new(alloc, MANY, MANY), answers)?;
    assert!(rt; end == (Ok(()), answers.len()));
    Ok(())
}

/// A script whose writes take a byte each, up to one that fails, or nothing.
fn slow_writers<R: StateRepresentation, H: Abort + Threads + Sync>(
    rt: &H,
    alloc: Global,
    script: &str,
    answers: &str,
) -> Result<(), Fail> {
    for allowed in 0..answers.len() {
        let failing = SlowWriter::new(alloc, 1, allowed);
        let end = served::<R, H>(rt, alloc, reader(script, MANY, MANY), failing, answers)?;
        assert!(rt; end == (Err(ServeFault::Write), allowed));
    }
    let slow = SlowWriter::new(alloc, 1, answers.len());
    let end = served::<R, H>(rt, alloc, reader(script, MANY, MANY), slow, answers)?;
    assert!(rt; end == (Ok(()), answers.len()));
    let idle = SlowWriter::new(alloc, 0, MANY);
    let end = served::<R, H>(rt, alloc, reader(script, MANY, MANY), idle, answers)?;
    assert!(rt; end == (Err(ServeFault::Write), 0));
    Ok(())
}

/// How a script ends that is read from the pipe where its answers go.
fn piped<R: StateRepresentation, H: Threads + Sync>(
    rt: &H,
    alloc: Global,
    script: &str,
    pipe: &Pipe,
) -> Result<Result<(), ServeFault>, Fail> {
    let rest = script.as_bytes();
    let graph = read_recording::<R>(alloc, FIRST_RUN.as_bytes())?;
    let runner = OneThread::new(rt);
    let mut source = CountedReader::new(PipeReader { rest, pipe });
    let mut sink = CountedWriter::new(PipeWriter { pipe });
    let end = serve(alloc, &runner, &mut source, &mut sink, graph, Format::Text);
    Ok(end)
}

/// Each answer is flushed before more of the script is waited for, and the last one at the end.
fn flushed<R: StateRepresentation, H: Abort + Threads + Sync>(
    rt: &H,
    alloc: Global,
    script: &str,
) -> Result<(), Fail> {
    let pipe = Pipe {
        held_back: AtomicU64::new(0),
        early_reads: AtomicU64::new(0),
    };
    assert!(rt; piped::<R, H>(rt, alloc, script, &pipe)? == Ok(()));
    assert!(rt; pipe.early_reads.load(Ordering::SeqCst) == 0);
    assert!(rt; pipe.held_back.load(Ordering::SeqCst) == 0);
    Ok(())
}

/// What holds of scripts.
pub(crate) fn hold<R: StateRepresentation, H: Abort + Threads + Sync>(
    rt: &H,
    alloc: Global,
) -> Result<(), Fail> {
    for (script, answers) in [
        (PIN_BARE, PIN_BARE_ANSWERS),
        (MOVED_AND_UNDONE, MOVED_AND_UNDONE_ANSWERS),
    ] {
        slow_readers::<R, H>(rt, alloc, script, answers)?;
        slow_writers::<R, H>(rt, alloc, script, answers)?;
        flushed::<R, H>(rt, alloc, script)?;
    }
    Ok(())
}
