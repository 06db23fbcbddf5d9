//! Events, sent to the desk, and the replies to them.
ghost use Rattle.std.specs.Prelude.{IfOk};
ghost use Rattle.session_core.specs.declared.event.Event.TheVariants.{Open, Head, Undo, Close};
ghost use Rattle.desk.specs.Clients.{SeesOn};
ghost use Rattle.many_scripts.specs.Playing.{Books, Commits, IsAskedAlone};

use crate::access::Access;
use desk::{Client, EditFault, Known, Naming};
use level_pool::Runner;
use session_core::{Event, Reply, TableFault};
use share_tree::Held;
use stage_graph::Edits;
use std::alloc::AllocError;
use std::sync::Wait;
use version_store::StateRepresentation;

/// The reply to an event that is no commit.
pub(crate) fn book<N: Naming, K: StateRepresentation, H: Wait + Drop, W>(
    access: &Access<'_, N, K, H, W>,
    client: &mut Client<N, K>,
    event: &Event,
) -> Result<Reply, AllocError>
    requires { IsAskedAlone event.now }
    ensures books { IfOk result (λ reply. Books client.old event.now reply client.new) }
    ensures later { SeesOn client.old client.new }
{
    match event {
        Event::Open { session, version } => open(access, client, *session, *version),
        Event::Head { session } => head(access, client, *session),
        Event::Undo { session } => undo(access, client, *session),
        Event::Close { session } => close(access, client, *session),
        Event::Commit { .. } => unreachable!(),
    }
}

fn open<N: Naming, K: StateRepresentation, H: Wait + Drop, W>(
    access: &Access<'_, N, K, H, W>,
    client: &mut Client<N, K>,
    session: u32,
    version: u32,
) -> Result<Reply, AllocError>
    ensures books { IfOk result (λ reply. Books client.old (Open session version) reply client.new) }
    ensures later { SeesOn client.old client.new }
{
    match access.desk.open(access.rt, client, session, version) {
        Ok(()) => Ok(Reply::Opened(version)),
        Err(TableFault::Refused(refusal)) => Ok(Reply::Refused(refusal)),
        Err(TableFault::Memory) => Err(AllocError),
    }
}

fn head<N: Naming, K: StateRepresentation, H: Wait + Drop, W>(
    access: &Access<'_, N, K, H, W>,
    client: &mut Client<N, K>,
    session: u32,
) -> Result<Reply, AllocError>
    ensures books { IfOk result (λ reply. Books client.old (Head session) reply client.new) }
    ensures later { SeesOn client.old client.new }
{
    match access.desk.snapshot(access.rt, client, session) {
        Ok(version) => Ok(Reply::At(version.number())),
        Err(TableFault::Refused(refusal)) => Ok(Reply::Refused(refusal)),
        Err(TableFault::Memory) => Err(AllocError),
    }
}

fn undo<N: Naming, K: StateRepresentation, H: Wait + Drop, W>(
    access: &Access<'_, N, K, H, W>,
    client: &mut Client<N, K>,
    session: u32,
) -> Result<Reply, AllocError>
    ensures books { IfOk result (λ reply. Books client.old (Undo session) reply client.new) }
    ensures later { SeesOn client.old client.new }
{
    match access.desk.undo(access.rt, client, session) {
        Ok(number) => Ok(Reply::Undone(number)),
        Err(TableFault::Refused(refusal)) => Ok(Reply::Refused(refusal)),
        Err(TableFault::Memory) => Err(AllocError),
    }
}

fn close<N: Naming, K: StateRepresentation, H: Wait + Drop, W>(
    access: &Access<'_, N, K, H, W>,
    client: &mut Client<N, K>,
    session: u32,
) -> Result<Reply, AllocError>
    ensures books { IfOk result (λ reply. Books client.old (Close session) reply client.new) }
    ensures later { SeesOn client.old client.new }
{
    match access.desk.close_session(access.rt, client, session) {
        Ok(()) => Ok(Reply::Closed),
        Err(TableFault::Refused(refusal)) => Ok(Reply::Refused(refusal)),
        Err(TableFault::Memory) => Err(AllocError),
    }
}

/// The reply to edits of a version: that of their commit, or their refusal.
pub(crate) fn commit<N: Naming, K: StateRepresentation, H: Wait + Drop, W: Runner>(
    access: &Access<'_, N, K, H, W>,
    client: &mut Client<N, K>,
    session: u32,
    base: &Known<N, K>,
    edits: &Held<Edits>,
) -> Result<Reply, AllocError>
    ensures commits { IfOk result (λ reply. Commits client.old session base.now edits.now reply client.new) }
    ensures later { SeesOn client.old client.new }
{
    match access.desk.edit_known(
        access.rt,
        access.alloc,
        client,
        session,
        base,
        edits,
        access.runner,
    ) {
        Ok(version) => Ok(Reply::Committed(version.number())),
        Err(EditFault::Table(refusal)) => Ok(Reply::Refused(refusal)),
        Err(EditFault::Edits(refusal)) => Ok(Reply::Refused(refusal)),
        Err(EditFault::NoVersion) | Err(EditFault::Foreign(_)) => unreachable!(),
        Err(EditFault::Memory) => Err(AllocError),
    }
}
