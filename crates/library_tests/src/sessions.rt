//! Sessions on a table of versions: the replies to what they ask.
ghost use Rattle.std.specs.Prelude.{◌≤◌, ◌^◌};

use crate::edits::edits_of;
use level_pool::OneThread;
use recording::read_recording;
use session_core::{Event, Refusal, Reply, Table, TableFault, run};
use share_tree::Held;
use stage_graph::Refused;
use std::alloc::Global;
use std::process::Abort;
use std::test::Fail;
use std::thread::Threads;
use test_kit::{COMPOSE_PICKS, FIRST_RUN};
use version_store::{StateRepresentation, Version};

/// A table of a recording, with room for so many versions.
pub(crate) fn table<R: StateRepresentation>(
    alloc: Global,
    recording: &str,
    most: u32,
) -> Result<Table<R>, Fail>
    requires { (1 ≤ most) × (most ≤ 2 ^ 16) }
{
    let graph = read_recording::<R>(alloc, recording.as_bytes())?;
    Ok(Table::new(alloc, Version::load(alloc, graph)?, most)?)
}

/// A session asks for the edits of a step on version 0.
fn commit(alloc: Global, session: u32, step: &str) -> Result<Event, Fail> {
    Ok(Event::Commit {
        session,
        base: 0,
        edit: Held::new(alloc, edits_of(alloc, step)?)?,
    })
}

/// The table of a recording after events, which have these replies.
fn replied<R: StateRepresentation, H: Abort + Threads + Sync>(
    rt: &H,
    alloc: Global,
    recording: &str,
    events: &[Event],
    wanted: &[Reply],
) -> Result<Table<R>, Fail> {
    let mut table: Table<R> = table(alloc, recording, 65_536)?;
    let mut replies = Vec::new(alloc);
    run(alloc, &mut table, events, &OneThread::new(rt), &mut replies)?;
    assert!(rt; replies.as_slice() == wanted);
    Ok(table)
}

/// The events of one session after another.
fn asked(alloc: Global) -> Result<[Event; 9], Fail> {
    let (session, version) = (2, 0);
    let remove = r#"{"do":"remove","session":2,"base":0,"stage":"i1"}"#;
    let commit = commit(alloc, session, remove)?;
    Ok([
        Event::Open { session, version },
        Event::Undo { session },
        Event::Close { session },
        Event::Undo { session },
        Event::Open { session, version },
        Event::Open { session, version },
        Event::Open {
            session: 0,
            version,
        },
        Event::Open {
            session: 3,
            version: 9,
        },
        commit,
    ])
}

/// What can't be done is refused; what edits are refused for is no entry of the history.
fn refusals<R: StateRepresentation, H: Abort + Threads + Sync>(
    rt: &H,
    alloc: Global,
) -> Result<(), Fail> {
    let in_use = Refused {
        refusal: stage_graph::Refusal::InUse(3),
        at: 0,
    };
    let wanted = [
        Reply::Opened(0),
        Reply::Refused(Refusal::AtBottom),
        Reply::Closed,
        Reply::Refused(Refusal::NoSession),
        Reply::Opened(0),
        Reply::Refused(Refusal::SessionOpen),
        Reply::Refused(Refusal::BadSession),
        Reply::Refused(Refusal::NoVersion),
        Reply::Refused(Refusal::Edits(in_use)),
    ];
    let table: Table<R> = replied(rt, alloc, COMPOSE_PICKS, &asked(alloc)?, &wanted)?;
    assert!(rt; table.history().len() == 8);
    Ok(())
}

/// The events of a session that commits, goes back and commits something else.
fn undone(alloc: Global) -> Result<[Event; 5], Fail> {
    let (session, version) = (1, 0);
    let takes_a = r#"{"do":"setTakes","session":1,"base":0,"stage":"a","takes":20}"#;
    let takes_b = r#"{"do":"setTakes","session":1,"base":0,"stage":"b","takes":1}"#;
    let first = commit(alloc, session, takes_a)?;
    let second = commit(alloc, session, takes_b)?;
    Ok([
        Event::Open { session, version },
        first,
        Event::Undo { session },
        second,
        Event::Head { session },
    ])
}

/// Whether a version is made of version 0 of the first run, and `b` takes 1 there.
fn is_of_first<R: StateRepresentation>(version: &Version<R>) -> bool {
    version.parent() == Some(0)
        && version.moment(0) == Ok(Some(10))
        && version.moment(1) == Ok(Some(11))
}

/// A session goes on from where it stands after an undo.
fn goes_on<R: StateRepresentation, H: Abort + Threads + Sync>(
    rt: &H,
    alloc: Global,
) -> Result<(), Fail> {
    let wanted = [
        Reply::Opened(0),
        Reply::Committed(1),
        Reply::Undone(0),
        Reply::Committed(2),
        Reply::At(2),
    ];
    let table: Table<R> = replied(rt, alloc, FIRST_RUN, &undone(alloc)?, &wanted)?;
    assert!(rt; is_of_first(table.version(2)?));
    Ok(())
}

/// The number of a call's refusal, and 0 where there is none.
pub(crate) fn number_of<T: Drop>(answer: Result<T, TableFault>) -> u32 {
    match answer {
        Ok(_) => 0,
        Err(fault) => fault.number(),
    }
}

/// 1,024 sessions can be open, and one more once one is closed.
fn opens_1024<R: StateRepresentation>(rt: &impl Abort, table: &mut Table<R>) {
    for session in 1..1025 {
        assert!(rt; number_of(table.open(0, session, 0)) == 0);
    }
    assert!(rt; number_of(table.open(0, 1025, 0)) == 58);
    assert!(rt; number_of(table.close(0, 1)) == 0);
    assert!(rt; number_of(table.open(0, 1025, 0)) == 0);
    assert!(rt; number_of(table.head(0, 1)) == 51);
}

/// What holds of sessions.
pub(crate) fn hold<R: StateRepresentation, H: Abort + Threads + Sync>(
    rt: &H,
    alloc: Global,
) -> Result<(), Fail> {
    refusals::<R, H>(rt, alloc)?;
    goes_on::<R, H>(rt, alloc)?;
    opens_1024(rt, &mut table::<R>(alloc, FIRST_RUN, 65_536)?);
    Ok(())
}
