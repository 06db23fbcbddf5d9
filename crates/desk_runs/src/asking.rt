//! What clients ask of their desk.
use crate::signals::Signals;
use crate::stages::{ONE_STAGE, opened};
use crate::steps::{Answer, Request, Step};
use desk::{Client, Desk, EditFault, Known, Naming};
use level_pool::Runner;
use session_core::{Event, Reply};
use share_tree::Held;
use stage_graph::Edits;
use std::alloc::Global;
use std::sync::Wait;
use std::time::{Clock, Instant};
use version_store::{StateRepresentation, Version};

/// What a client asks its desk with.
#[derive(Drop)]
pub(crate) struct Access<'a, N: Naming, K: StateRepresentation, H: Wait + Drop, W> {
    pub(crate) rt: &'a H,
    pub(crate) alloc: Global,
    pub(crate) desk: &'a Desk<N, K, H>,
    pub(crate) signals: &'a Signals,
    pub(crate) runner: &'a W,
}

/// The number of a version that is dropped.
fn number_of<N: Naming, K: StateRepresentation>(known: Known<N, K>) -> u32 {
    known.number()
}

fn open<N: Naming, K: StateRepresentation, H: Wait + Drop, W>(
    access: &Access<'_, N, K, H, W>,
    client: &mut Client<N, K>,
    session: u32,
    version: u32,
) -> Answer {
    match access.desk.open(access.rt, client, session, version) {
        Ok(()) => Answer::of_table(Reply::Opened(version)),
        Err(fault) => Answer::of_fault(fault),
    }
}

fn head<N: Naming, K: StateRepresentation, H: Wait + Drop, W>(
    access: &Access<'_, N, K, H, W>,
    client: &mut Client<N, K>,
    session: u32,
) -> Answer {
    match access.desk.snapshot(access.rt, client, session) {
        Ok(version) => Answer::of_table(Reply::At(number_of(version))),
        Err(fault) => Answer::of_fault(fault),
    }
}

fn undo<N: Naming, K: StateRepresentation, H: Wait + Drop, W>(
    access: &Access<'_, N, K, H, W>,
    client: &mut Client<N, K>,
    session: u32,
) -> Answer {
    match access.desk.undo(access.rt, client, session) {
        Ok(number) => Answer::of_table(Reply::Undone(number)),
        Err(fault) => Answer::of_fault(fault),
    }
}

fn close<N: Naming, K: StateRepresentation, H: Wait + Drop, W>(
    access: &Access<'_, N, K, H, W>,
    client: &mut Client<N, K>,
    session: u32,
) -> Answer {
    match access.desk.close_session(access.rt, client, session) {
        Ok(()) => Answer::of_table(Reply::Closed),
        Err(fault) => Answer::of_fault(fault),
    }
}

/// The answer to a commit, which drops the new version.
fn committed<N: Naming, K: StateRepresentation>(made: Result<Known<N, K>, EditFault>) -> Answer {
    match made {
        Ok(known) => Answer::of_table(Reply::Committed(number_of(known))),
        Err(fault) => Answer::of_edit(fault),
    }
}

/// A commit of a version that is known, and is dropped.
fn commit_known<N: Naming, K: StateRepresentation, H: Wait + Drop, W: Runner>(
    access: &Access<'_, N, K, H, W>,
    client: &mut Client<N, K>,
    session: u32,
    base: Known<N, K>,
    edits: &Held<Edits>,
) -> Answer {
    committed(
        access.desk.edit_known(
            access.rt,
            access.alloc,
            client,
            session,
            &base,
            edits,
            access.runner,
        ),
    )
}

/// A commit of the version with this number.
fn commit<N: Naming, K: StateRepresentation, H: Wait + Drop, W: Runner>(
    access: &Access<'_, N, K, H, W>,
    client: &mut Client<N, K>,
    session: u32,
    base: u32,
    edits: &Held<Edits>,
) -> Answer {
    match client.version(base) {
        Ok(known) => commit_known(access, client, session, known, edits),
        Err(fault) => Answer::of_read(Err(fault)),
    }
}

/// A commit of a version that may be of another desk, and is dropped.
fn commit_other<N: Naming, K: StateRepresentation, H: Wait + Drop, W: Runner>(
    access: &Access<'_, N, K, H, W>,
    client: &mut Client<N, K>,
    session: u32,
    other: Version<K>,
    edits: &Held<Edits>,
) -> Answer {
    committed(
        access.desk.edit(
            access.rt,
            access.alloc,
            client,
            session,
            &other,
            edits,
            access.runner,
        ),
    )
}

/// A commit of another recording's version 0.
fn edit_other<N: Naming, K: StateRepresentation, H: Wait + Drop, W: Runner>(
    access: &Access<'_, N, K, H, W>,
    client: &mut Client<N, K>,
    session: u32,
    edits: &Held<Edits>,
) -> Answer {
    match opened(access.alloc, ONE_STAGE) {
        Ok(other) => commit_other(access, client, session, other, edits),
        Err(_) => Answer::memory(),
    }
}

/// A read of the version with this number.
fn read<N: Naming, K: StateRepresentation>(client: &mut Client<N, K>, number: u32) -> Answer {
    match client.version(number) {
        Ok(found) => Answer::of_read(Ok(number_of(found))),
        Err(fault) => Answer::of_read(Err(fault)),
    }
}

/// The answer to an event.
fn ask<N: Naming, K: StateRepresentation, H: Wait + Drop, W: Runner>(
    access: &Access<'_, N, K, H, W>,
    client: &mut Client<N, K>,
    event: &Event,
) -> Answer {
    match event {
        Event::Open { session, version } => open(access, client, *session, *version),
        Event::Head { session } => head(access, client, *session),
        Event::Undo { session } => undo(access, client, *session),
        Event::Close { session } => close(access, client, *session),
        Event::Commit {
            session,
            base,
            edit,
        } => commit(access, client, *session, *base, edit),
    }
}

/// The answer to a request.
fn answer_to<N: Naming, K: StateRepresentation, H: Wait + Drop, W: Runner>(
    access: &Access<'_, N, K, H, W>,
    client: &mut Client<N, K>,
    request: &Request,
) -> Answer {
    match request {
        Request::Ask(event) => ask(access, client, event),
        Request::Read(number) => read(client, *number),
        Request::EditOther { session, edits } => edit_other(access, client, *session, edits),
    }
}

/// Whether a version that is dropped has this number, and was made of this one.
fn is_made_of<N: Naming, K: StateRepresentation>(
    found: Known<N, K>,
    number: u32,
    base: u32,
) -> bool {
    found.number() == number && found.parent() == Some(base)
}

/// Whether a client finds a version, which was made of this one.
fn finds<N: Naming, K: StateRepresentation>(
    client: &mut Client<N, K>,
    number: u32,
    base: u32,
) -> bool {
    match client.version(number) {
        Ok(found) => is_made_of(found, number, base),
        Err(_) => false,
    }
}

/// Whether a reply holds: memory did not run out, and a new version is found at once.
fn holds<N: Naming, K: StateRepresentation>(
    client: &mut Client<N, K>,
    base: u32,
    reply: Reply,
) -> bool {
    match reply {
        Reply::Committed(number) => finds(client, number, base),
        Reply::Memory => false,
        _ => true,
    }
}

/// The moment by the clock.
fn now(clock: &impl Clock) -> Option<Instant> {
    Instant::now(clock).ok()
}

/// The nanoseconds since a moment.
fn nanos_since(clock: &impl Clock, start: Option<Instant>) -> u64 {
    match start.and_then(|start| start.elapsed(clock).ok()) {
        Some(took) => (took.as_nanos() % 18_446_744_073_709_551_616) as u64,
        None => 0,
    }
}

/// A client takes a step. Answers the version at hand after it.
fn take<N: Naming, K: StateRepresentation, H: Wait + Clock + Drop, W: Runner>(
    access: &Access<'_, N, K, H, W>,
    client: &mut Client<N, K>,
    step: &mut Step,
    hand: u32,
) -> u32 {
    let comes = access.signals.come(access.rt, step.after);
    step.set_base(hand);
    let start = now(access.rt);
    let mut answer = answer_to(access, client, &step.request);
    answer.nanos = nanos_since(access.rt, start);
    answer.holds = comes && holds(client, hand, answer.reply);
    answer.seen = client.seen();
    step.hear(answer, access.signals, hand)
}

/// A client takes its steps. First version 0 is at hand.
pub(crate) fn play<N: Naming, K: StateRepresentation, H: Wait + Clock + Drop, W: Runner>(
    access: &Access<'_, N, K, H, W>,
    client: &mut Client<N, K>,
    steps: &mut [Step],
) {
    let mut hand = 0;
    for step in steps.iter_mut() {
        hand = take(access, client, step, hand);
    }
}
