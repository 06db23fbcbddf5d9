//! Counted writers and readers over those that take or give little at a time, are interrupted, and fail.
use std::alloc::Global;
use std::io::{self, BufWriter};
use std::process::Abort;
use std::test::Fail;
use test_kit::{SlowReader, SlowWriter};
use text_io::{CountedReader, CountedWriter, Sink, Source};

fn slow_and_failing_writers(rt: &impl Abort, alloc: Global) {
    for (at_once, writes, is_taken, taken) in [
        (9, 1, true, "first"),
        (1, 5, true, "first"),
        (1, 2, false, "fi"),
        (2, 2, false, "firs"),
        (0, 9, false, ""),
        (9, 0, false, ""),
    ] {
        let mut sink = CountedWriter::new(SlowWriter::new(alloc, at_once, writes));
        assert!(rt; sink.write(b"first").is_ok() == is_taken);
        assert!(rt; sink.into_inner().taken() == taken.as_bytes());
    }
}

/// Only a flush passes on what is buffered; where the writer fails meanwhile, so does the flush.
fn flush_passes_on(rt: &impl Abort, alloc: Global) -> io::Result<()> {
    for (writes, is_passed_on, taken) in [(4, true, "kept"), (2, false, "ke")] {
        let writer = BufWriter::new(alloc, SlowWriter::new(alloc, 1, writes))?;
        let mut sink = CountedWriter::new(writer);
        assert!(rt; sink.write(b"kept").is_ok());
        assert!(rt; sink.flush().is_ok() == is_passed_on);
        assert!(rt; sink.into_inner().get_ref().taken() == taken.as_bytes());
    }
    Ok(())
}

fn slow_and_failing_readers(rt: &impl Abort) {
    let mut buffer = [0; 4];
    let mut slow = CountedReader::new(SlowReader::new(b"ab", 1, 2));
    assert!(rt; slow.read(&mut buffer).ok() == Some(1));
    assert!(rt; buffer[0] == b'a');
    assert!(rt; slow.read(&mut buffer).ok() == Some(1));
    assert!(rt; slow.read(&mut buffer).is_err());
    let mut source = CountedReader::new(b"abc".as_slice());
    assert!(rt; source.read(&mut buffer).ok() == Some(3));
    assert!(rt; source.read(&mut buffer).ok() == Some(0));
}

#[test]
fn bytes(rt: HostRuntime) -> Result<(), Fail> {
    slow_and_failing_writers(&rt, rt.alloc());
    flush_passes_on(&rt, rt.alloc())?;
    slow_and_failing_readers(&rt);
    Ok(())
}
