//! Drafts that are handed to a table: committed in one call, in its parts, or refused.
ghost use Rattle.std.specs.Prelude.{IfOk};
ghost use Rattle.session_core.specs.Adding.{IsOfState};

use crate::edits::edits_of;
use crate::sessions::{number_of, table};
use level_pool::OneThread;
use session_core::{Refusal, Reply, Table, draft_of};
use share_tree::{Again, Held};
use std::alloc::Global;
use std::process::Abort;
use std::test::Fail;
use std::thread::Threads;
use test_kit::FIRST_RUN;
use version_store::{Draft, StateRepresentation, Version};

/// A table of a recording, at whose version 0 session 1 stands.
fn begun<R: StateRepresentation>(alloc: Global, recording: &str) -> Result<Table<R>, Fail> {
    let mut table: Table<R> = table(alloc, recording, 65_536)?;
    table.open(7, 1, 0)?;
    Ok(table)
}

/// A draft of a step on version 0 of a table.
fn drafted<R: StateRepresentation, H: Abort + Threads + Sync>(
    rt: &H,
    alloc: Global,
    table: &Table<R>,
    step: &str,
) -> Result<Draft<R>, Fail>
    ensures { IfOk result (λ draft. IsOfState table.now.state 1 draft) }
{
    let edits = Held::new(alloc, edits_of(alloc, step)?)?;
    let draft = draft_of(alloc, table.version(0)?, &edits, &OneThread::new(rt))?;
    Ok(draft)
}

/// Whether the second of two entries of a table's history is of client 7, and has this reply.
fn replied_second<R: StateRepresentation>(table: &Table<R>, reply: Reply) -> bool {
    let [_, entry] = table.history() else {
        return false;
    };
    (entry.who, entry.reply) == (7, reply)
}

/// A draft of a stage more, made by another table.
fn foreign<R: StateRepresentation, H: Abort + Threads + Sync>(
    rt: &H,
    alloc: Global,
) -> Result<Draft<R>, Fail> {
    let add = r#"{"do":"add","session":1,"new":{"name":"m","op":"manual"}}"#;
    let other: Table<R> = begun(alloc, r#"{"stages":[]}"#)?;
    drafted(rt, alloc, &other, add)
}

/// Whether a table refuses a draft of another one, and the refusal is the second entry.
fn refuses<R: StateRepresentation>(table: &mut Table<R>, draft: &Draft<R>) -> bool {
    number_of(table.commit(7, 1, draft)) == 56
        && replied_second(table, Reply::Refused(Refusal::Foreign(0)))
}

/// A draft of another table's version is refused.
fn refuses_foreign<R: StateRepresentation, H: Abort + Threads + Sync>(
    rt: &H,
    alloc: Global,
) -> Result<(), Fail> {
    let draft: Draft<R> = foreign(rt, alloc)?;
    let mut table: Table<R> = begun(alloc, FIRST_RUN)?;
    assert!(rt; refuses(&mut table, &draft));
    Ok(())
}

/// `a` of the first run holds an exception itself.
const PIN_BARE: &str = r#"{"do":"pinResult","session":1,"stage":"a","result":{"bare":"X"}}"#;

/// Whether a version is version 1, made by `PIN_BARE` of version 0.
fn is_pinned<R: StateRepresentation>(version: &Version<R>) -> bool {
    (version.number(), version.parent()) == (1, Some(0)) && version.moment(1) == Ok(Some(10))
}

/// Whether two versions have the same number and graph.
fn are_same<R: StateRepresentation>(one: &Version<R>, other: &Version<R>) -> bool {
    one.number() == other.number() && one.graph().same(other.graph())
}

/// Whether two tables have the same two entries.
fn have_same_entries<R: StateRepresentation>(one: &Table<R>, other: &Table<R>) -> bool {
    let ([_, entry], [_, booked]) = (one.history(), other.history()) else {
        return false;
    };
    entry.same(booked)
}

/// The version that a draft becomes, where its commit is prepared and finished by itself.
fn made_by_parts<R: StateRepresentation>(
    rt: &impl Abort,
    table: &mut Table<R>,
    draft: &Draft<R>,
) -> Result<Version<R>, Fail>
    requires { IsOfState table.old.state 1 draft.now }
{
    let ready = table.prepare(7, 1, draft)?;
    let version = ready.version().again()?;
    let number = table.finish(ready);
    assert!(rt; number == version.number());
    Ok(version)
}

/// A draft becomes the same version where it is committed in one call.
fn made_at_once<R: StateRepresentation>(
    rt: &impl Abort,
    table: &mut Table<R>,
    draft: &Draft<R>,
    made: &Version<R>,
) -> Result<(), Fail> {
    let version = table.commit(7, 1, draft)?;
    assert!(rt; is_pinned(&version) && are_same(&version, made));
    Ok(())
}

/// Of two tables that begin alike, one commits a draft in one call and one in its parts.
fn commit_alike<R: StateRepresentation, H: Abort + Threads + Sync>(
    rt: &H,
    alloc: Global,
    whole: &mut Table<R>,
    parts: &mut Table<R>,
) -> Result<(), Fail> {
    let draft = drafted(rt, alloc, parts, PIN_BARE)?;
    let made = made_by_parts(rt, parts, &draft)?;
    made_at_once(rt, whole, &draft, &made)
}

/// Whether session 1 stands at the same version in both tables.
fn stand_alike<R: StateRepresentation>(
    one: &mut Table<R>,
    other: &mut Table<R>,
) -> Result<bool, Fail> {
    let head = one.head(7, 1)?;
    Ok(are_same(&head, &other.head(7, 1)?))
}

/// The tables commit alike, their second entry is the commit, and session 1 stands at the version that it made.
fn go_on_alike<R: StateRepresentation, H: Abort + Threads + Sync>(
    rt: &H,
    alloc: Global,
    whole: &mut Table<R>,
    parts: &mut Table<R>,
) -> Result<(), Fail> {
    commit_alike(rt, alloc, whole, parts)?;
    assert!(rt; replied_second(whole, Reply::Committed(1)));
    assert!(rt; have_same_entries(whole, parts));
    assert!(rt; stand_alike(whole, parts)?);
    Ok(())
}

/// A commit in its parts does what a commit in one call does.
fn commits<R: StateRepresentation, H: Abort + Threads + Sync>(
    rt: &H,
    alloc: Global,
) -> Result<(), Fail> {
    let mut whole: Table<R> = begun(alloc, FIRST_RUN)?;
    let mut parts: Table<R> = begun(alloc, FIRST_RUN)?;
    go_on_alike(rt, alloc, &mut whole, &mut parts)
}

/// What holds of drafts that are handed to a table.
pub(crate) fn hold<R: StateRepresentation, H: Abort + Threads + Sync>(
    rt: &H,
    alloc: Global,
) -> Result<(), Fail> {
    refuses_foreign::<R, H>(rt, alloc)?;
    commits::<R, H>(rt, alloc)
}
