//! Calls of a desk's clients, and their answers.
use crate::refusals::Window;
use crate::scene::Scene;
use crate::tables::push_reply;
use crate::texts::push_version;
use crate::told::Told;
use desk::{Client, Desk, EditFault, Known, Naming, ReadFault};
use level_pool::Runner;
use session_core::{Refusal, Reply, TableFault};
use share_tree::Held;
use stage_graph::Edits;
use std::alloc::Global;
use std::sync::Wait;
use version_store::{StateRepresentation, Version};

/// A call that a client is to make. It borrows what it is about.
#[derive(Drop)]
pub(crate) enum Call<'a, N: Naming, R: StateRepresentation> {
    Open {
        session: u32,
        version: u32,
    },
    Undo(u32),
    CloseSession(u32),
    Snapshot(u32),
    /// A commit on a version of the desk.
    EditKnown {
        session: u32,
        base: &'a Known<N, R>,
        edits: &'a Held<Edits>,
    },
    /// A commit on a version that may be of another desk.
    Edit {
        session: u32,
        version: &'a Version<R>,
        edits: &'a Held<Edits>,
    },
    Recognize(&'a Version<R>),
    /// A read of the version with this number.
    Version(u32),
}

/// Tells a version that was found.
pub(crate) fn push_known<N: Naming, R: StateRepresentation>(
    alloc: Global,
    text: &mut Told,
    known: Known<N, R>,
) {
    push_version(alloc, text, &known);
}

/// Tells the version, or the reply in its place, unless memory ran out.
fn push_found<N: Naming, R: StateRepresentation>(
    alloc: Global,
    text: &mut Told,
    answer: Result<Known<N, R>, Reply>,
) -> bool {
    match answer {
        Ok(known) => push_known(alloc, text, known),
        Err(reply) => return push_reply(text, reply),
    }
    false
}

/// The version, or the reply by which the table's fault is told.
fn of_table<V>(answer: Result<V, TableFault>) -> Result<V, Reply> {
    match answer {
        Ok(value) => Ok(value),
        Err(fault) => Err(fault.reply()),
    }
}

/// The version, or the reply by which the fault of an edit is told. Of the two refusals only the table's is in the history.
fn of_edit<V>(answer: Result<V, EditFault>) -> Result<V, Reply> {
    match answer {
        Ok(value) => Ok(value),
        Err(EditFault::NoVersion) => Err(Reply::Refused(Refusal::NoVersion)),
        Err(EditFault::Foreign(number)) => Err(Reply::Refused(Refusal::Foreign(number))),
        Err(EditFault::Edits(refusal)) => Err(Reply::Refused(refusal)),
        Err(EditFault::Table(refusal)) => Err(Reply::Refused(refusal)),
        Err(EditFault::Memory) => Err(Reply::Memory),
    }
}

/// The version, or the reply by which the fault of a read is told.
fn of_read<V>(answer: Result<V, ReadFault>) -> Result<V, Reply> {
    match answer {
        Ok(value) => Ok(value),
        Err(ReadFault::NoVersion) => Err(Reply::Refused(Refusal::NoVersion)),
        Err(ReadFault::Memory) => Err(Reply::Memory),
    }
}

/// What clients make the calls of a case with.
#[derive(Drop)]
pub(crate) struct Trial<'a, H, W> {
    pub(crate) rt: &'a H,
    pub(crate) alloc: Global,
    pub(crate) runner: &'a W,
    pub(crate) scene: Scene<'a>,
}

impl<H: Wait, W: Runner> Trial<'_, H, W> {
    /// The reply to a session's start.
    fn opened<N: Naming, R: StateRepresentation>(
        &self,
        desk: &Desk<N, R, &H>,
        client: &mut Client<N, R>,
        session: u32,
        version: u32,
    ) -> Reply {
        match desk.open(self.rt, client, session, version) {
            Ok(()) => Reply::Opened(version),
            Err(fault) => fault.reply(),
        }
    }

    /// The reply to an undo.
    fn undone<N: Naming, R: StateRepresentation>(
        &self,
        desk: &Desk<N, R, &H>,
        client: &mut Client<N, R>,
        session: u32,
    ) -> Reply {
        match desk.undo(self.rt, client, session) {
            Ok(number) => Reply::Undone(number),
            Err(fault) => fault.reply(),
        }
    }

    /// The reply to a session's end.
    fn closed<N: Naming, R: StateRepresentation>(
        &self,
        desk: &Desk<N, R, &H>,
        client: &mut Client<N, R>,
        session: u32,
    ) -> Reply {
        match desk.close_session(self.rt, client, session) {
            Ok(()) => Reply::Closed,
            Err(fault) => fault.reply(),
        }
    }

    /// A client makes a call: the version that it is answered, or the reply in its place.
    fn answer<N: Naming, R: StateRepresentation>(
        &self,
        desk: &Desk<N, R, &H>,
        client: &mut Client<N, R>,
        call: &Call<'_, N, R>,
    ) -> Result<Known<N, R>, Reply> {
        let (rt, alloc, runner) = (self.rt, self.alloc, self.runner);
        match call {
            Call::Open { session, version } => Err(self.opened(desk, client, *session, *version)),
            Call::Undo(session) => Err(self.undone(desk, client, *session)),
            Call::CloseSession(session) => Err(self.closed(desk, client, *session)),
            Call::Snapshot(session) => of_table(desk.snapshot(rt, client, *session)),
            Call::EditKnown {
                session,
                base,
                edits,
            } => of_edit(desk.edit_known(rt, alloc, client, *session, base, edits, runner)),
            Call::Edit {
                session,
                version,
                edits,
            } => of_edit(desk.edit(rt, alloc, client, *session, version, edits, runner)),
            Call::Recognize(version) => of_edit(client.recognize(version)),
            Call::Version(number) => of_read(client.version(*number)),
        }
    }

    /// A client makes a call in the window, and its answer is told, unless memory ran out.
    pub(crate) fn push_answer<N: Naming, R: StateRepresentation>(
        &self,
        desk: &Desk<N, R, &H>,
        client: &mut Client<N, R>,
        call: &Call<'_, N, R>,
        window: &mut Window,
        text: &mut Told,
    ) -> bool {
        window.begin();
        let answer = self.answer(desk, client, call);
        window.end();
        push_found(self.alloc, text, answer)
    }
}
