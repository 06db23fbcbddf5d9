//! Scripts at once, by `many`: what is printed for those whose clients share a desk, also where a read or a write fails.
ghost use Rattle.std.specs.Prelude.{◌≡◌, ◌≤◌, ◌<◌, ◌-◌, ◌^◌, All, IfOk, vec_len};
ghost use Rattle.text_io.specs.Counted.{read_failures};

use crate::turns::Turns;
use many_scripts::{ManyFault, many};
use recording::read_recording;
use report_form::Format;
use stage_graph::InShared;
use std::alloc::Global;
use std::io::Read;
use std::process::Abort;
use std::sync::Wait;
use std::sync::atomic::AtomicU64;
use std::test::Fail;
use std::thread::Threads;
use std::time::Clock;
use test_kit::{CHAIN, FIRST_RUN, SlowReader, SlowWriter};
use text_io::{CountedReader, CountedWriter};

/// As many bytes, reads or writes as a script can need.
const MANY: usize = 1_000_000;

/// How the scripts end with this writer, and the writer then.
fn played<H, R>(
    rt: H,
    alloc: Global,
    recording: &str,
    scripts: Vec<CountedReader<R>>,
    writer: SlowWriter,
    workers: usize,
) -> Result<(Result<(), ManyFault>, SlowWriter), Fail>
where
    H: Threads + Wait + Copy + Drop + Send + Sync,
    R: Read + Send + Drop,
    requires scripts { (1 ≤ vec_len scripts) × (vec_len scripts ≤ 64) }
    requires new { All (λ script. read_failures script ≡ 0) scripts.items }
    requires workers { (1 ≤ workers) × (workers ≤ 16) }
{
    let mut sink = CountedWriter::new(writer);
    let graph = read_recording::<InShared>(alloc, recording.as_bytes())?;
    let end = many(rt, alloc, scripts, &mut sink, graph, workers, Format::Text);
    Ok((end, sink.into_inner()))
}

/// A script that gives 20 bytes at a read, and fails at the read after so many.
fn script(text: &str, reads_left: usize) -> CountedReader<SlowReader<'_>>
    ensures { read_failures result ≡ 0 }
{
    CountedReader::new(SlowReader::new(text.as_bytes(), 20, reads_left))
}

/// One script.
fn alone(alloc: Global, text: &str) -> Result<Vec<CountedReader<SlowReader<'_>>>, Fail>
    ensures len { IfOk result (λ scripts. vec_len scripts ≡ 1) }
    ensures new { IfOk result (λ scripts. All (λ script. read_failures script ≡ 0) scripts.items) }
{
    Ok(vec![in alloc; script(text, MANY)]?)
}

/// The script has this output on the recording.
fn gives<H: Abort + Threads + Wait + Copy + Drop + Send + Sync>(
    rt: H,
    alloc: Global,
    recording: &str,
    text: &str,
    workers: usize,
    wanted: &str,
) -> Result<(), Fail>
    requires { (1 ≤ workers) × (workers ≤ 16) }
{
    let writer = SlowWriter::new(alloc, MANY, MANY);
    let (end, writer) = played(rt, alloc, recording, alone(alloc, text)?, writer, workers)?;
    assert!(rt; end == Ok(()));
    assert!(rt; writer.taken() == wanted.as_bytes());
    Ok(())
}

/// A report of a session asks for its head: an entry of its own.
fn reports_of_sessions<H: Abort + Threads + Wait + Copy + Drop + Send + Sync>(
    rt: H,
    alloc: Global,
) -> Result<(), Fail> {
    gives(
        rt,
        alloc,
        FIRST_RUN,
        r#"{"do":"open","session":1,"version":0}
{"do":"setTakes","session":1,"base":0,"stage":"a","takes":20}
{"do":"report","session":1,"what":"sweep","stage":"b"}
{"do":"report","session":9,"what":"times"}
{"do":"report","version":0,"what":"drift","against":1}
{"do":"report","version":0,"what":"drift","against":2}
"#,
        1,
        "script 1\n\
        opened 1 at 0\n\
        committed 1\n\
        sweep of b at 25 stages 2\n\
        a sooner 20 -> value:5 at 5\n\
        b sooner 5 -> value:5 at 20\n\
        refused 51 NoSession\n\
        drift of version 0 against 1 moved 2\n\
        a earlier 10\n\
        b earlier 10\n\
        refused 52 NoVersion\n\
        log 4\n",
    )
}

/// Lists of edits, by two workers. An edit that gives no base asks for the head first: an entry of its own.
fn edit_list<H: Abort + Threads + Wait + Copy + Drop + Send + Sync>(
    rt: H,
    alloc: Global,
) -> Result<(), Fail> {
    gives(
        rt,
        alloc,
        CHAIN,
        r#"{"do":"open","session":1,"version":0}
{"do":"rewire","session":1,"stage":"a","sources":["b"],"inner":[]}
{"do":"edits","session":1,"edits":[{"do":"rewire","stage":"a","sources":["b"],"inner":[]},{"do":"rewire","stage":"b","sources":["z"],"inner":[]}]}
{"do":"report","version":1,"what":"all"}
{"do":"report","version":1,"what":"changes"}
"#,
        2,
        "script 1\n\
        opened 1 at 0\n\
        refused 19 Cycle\n\
        committed 1\n\
        version 1 parent 0 mode computed stages 3\n\
        z completed rank 0 value:1 at 0\n\
        a thenApply rank 2 value:11 at 2\n\
        b thenApply rank 1 value:10 at 1\n\
        changes of version 1 from 0 touched 2\n\
        b value:20 at 2 -> value:10 at 1\n\
        a value:2 at 1 -> value:11 at 2\n\
        log 4\n",
    )
}

/// What is printed for two scripts, of which neither goes on to its second line until the other has been read.
fn two_at_once<H: Threads + Wait + Clock + Copy + Drop + Send + Sync>(
    rt: H,
    alloc: Global,
) -> Result<(Result<(), ManyFault>, SlowWriter), Fail> {
    let one = AtomicU64::new(0);
    let two = AtomicU64::new(0);
    let mut scripts = Vec::new(alloc);
    scripts.push(CountedReader::new(Turns {
        clock: rt,
        rest: b"{\"do\":\"open\",\"session\":1,\"version\":0}\n{\"do\":\"report\",\"version\":0,\"what\":\"drift\"}\n",
        reads: &one,
        other: &two,
    }))?;
    scripts.push(CountedReader::new(Turns {
        clock: rt,
        rest: b"{\"do\":\"open\",\"session\":2,\"version\":0}\n{\"do\":\"report\",\"version\":0,\"what\":\"drift\"}\n",
        reads: &two,
        other: &one,
    }))?;
    let writer = SlowWriter::new(alloc, MANY, MANY);
    played(rt, alloc, FIRST_RUN, scripts, writer, 1)
}

/// Two scripts, of which neither goes on to its second line until the other has been read.
fn scripts_at_once<H: Abort + Threads + Wait + Clock + Copy + Drop + Send + Sync>(
    rt: H,
    alloc: Global,
) -> Result<(), Fail> {
    let (end, writer) = two_at_once(rt, alloc)?;
    assert!(rt; end == Ok(()));
    let wanted = "script 1\n\
        opened 1 at 0\n\
        drift of version 0 from - moved 0\n\
        script 2\n\
        opened 2 at 0\n\
        drift of version 0 from - moved 0\n\
        log 2\n";
    assert!(rt; writer.taken() == wanted.as_bytes());
    Ok(())
}

const ONE_LINE: &str = "{\"do\":\"open\",\"session\":1,\"version\":0}\n";

/// Of three scripts the second can't be read to its end: nothing is written.
fn second_of_three_fails<H: Abort + Threads + Wait + Copy + Drop + Send + Sync>(
    rt: H,
    alloc: Global,
) -> Result<(), Fail> {
    for allowed in 0..3 {
        let scripts = vec![in alloc;
            script(ONE_LINE, MANY),
            script(ONE_LINE, allowed),
            script(ONE_LINE, MANY),
        ]?;
        let writer = SlowWriter::new(alloc, MANY, MANY);
        let (end, writer) = played(rt, alloc, FIRST_RUN, scripts, writer, 1)?;
        assert!(rt; end == Err(ManyFault::Read));
        assert!(rt; writer.taken().is_empty());
    }
    Ok(())
}

/// Whatever write fails, what was written is the beginning of the output.
fn failing_writers<H: Abort + Threads + Wait + Copy + Drop + Send + Sync>(
    rt: H,
    alloc: Global,
) -> Result<(), Fail> {
    let text = "script 1\nopened 1 at 0\nlog 1\n".as_bytes();
    for allowed in 0..=text.len() {
        let writer = SlowWriter::new(alloc, 1, allowed);
        let (end, writer) = played(rt, alloc, FIRST_RUN, alone(alloc, ONE_LINE)?, writer, 1)?;
        let wanted = if allowed < text.len() {
            Err(ManyFault::Write)
        } else {
            Ok(())
        };
        assert!(rt; end == wanted);
        assert!(rt; writer.taken() == &text[..allowed]);
    }
    Ok(())
}

/// What holds of scripts at once.
fn hold<H: Abort + Threads + Wait + Clock + Copy + Drop + Send + Sync>(
    rt: H,
    alloc: Global,
) -> Result<(), Fail> {
    reports_of_sessions(rt, alloc)?;
    edit_list(rt, alloc)?;
    scripts_at_once(rt, alloc)?;
    second_of_three_fails(rt, alloc)?;
    failing_writers(rt, alloc)
}

#[test]
fn at_once(rt: HostRuntime) -> Result<(), Fail> {
    hold(rt, rt.alloc())
}
