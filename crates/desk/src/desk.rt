//! A table that several clients share.
ghost use Rattle.std.specs.Prelude.{◌≡◌, ◌<◌, OnOk, IfOk, IfErr, vec_len};
ghost use Rattle.session_core.specs.Applied.{IsDrafted};
ghost use Rattle.session_core.specs.Log.{opening_of};
ghost use Rattle.session_core.specs.TableView.{reply_of};
ghost use Rattle.session_core.specs.declared.event.Event.TheVariants.{Open, Head, Undo, Close};
ghost use Rattle.session_core.specs.declared.event.Reply.TheVariants.{Opened, At, Undone, Closed};
ghost use Rattle.desk.specs.Clients.{KeepsCall, SeesOn, HasSeenIn, IsSeen};
ghost use Rattle.desk.specs.Edits.{Edits as EditAnswers, IsOfKnown};
ghost use Rattle.desk.specs.Closing.{IsClosed, IsTorn};

use crate::client::Client;
use crate::close::{Log, may_end};
use crate::fault::{CloseFault, EditFault};
use crate::front::Archive;
use crate::known::Known;
use crate::name::Naming;
use crate::shared::Shared;
use level_pool::Runner;
use session_core::{TableFault, draft_of};
use share_tree::{Again, Held};
use stage_graph::Edits;
use std::alloc::Global;
use std::sync::{Mutex, Wait};
use version_store::{Draft, StateRepresentation, Version};

/// A table that the clients of several threads share.
#[derive(Drop)]
pub struct Desk<N: Naming, R: StateRepresentation, W: Wait + Drop> {
    archive: Archive<N, R>,
    shared: Mutex<Shared<N, R, W>>,
    started: usize,
    ghost all: { started ≡ N.clients },
}

impl<N: Naming, R: StateRepresentation, W: Wait + Drop> Desk<N, R, W> {
    ghost use Rattle.desk.specs.declared.fault.CloseFault.TheVariants.{Missing, Torn};

    pub(crate) fn new(
        archive: Archive<N, R>,
        shared: Shared<N, R, W>,
        started: usize,
    ) -> Desk<N, R, W>
        requires { started ≡ N.clients }
    {
        Desk {
            archive,
            shared: Mutex::new(shared),
            started,
        }
    }

    /// Starts a session at a version.
    pub fn open<X: Wait>(
        &self,
        rt: &X,
        client: &mut Client<N, R>,
        session: u32,
        version: u32,
    ) -> Result<(), TableFault>
        ensures kept { KeepsCall client.old (Open session version) (reply_of (λ _. Opened version) result) client.new }
        ensures later { SeesOn client.old client.new }
        ensures named { HasSeenIn client.new (reply_of (λ _. Opened version) result) }
    {
        client.make_room()?;
        self.shared.lock(rt).open(client, session, version)
    }

    /// The version that the session stands at.
    pub fn snapshot<X: Wait>(
        &self,
        rt: &X,
        client: &mut Client<N, R>,
        session: u32,
    ) -> Result<Known<N, R>, TableFault>
        ensures kept { KeepsCall client.old (Head session) (reply_of (λ version. At version.number) result) client.new }
        ensures later { SeesOn client.old client.new }
        ensures named { HasSeenIn client.new (reply_of (λ version. At version.number) result) }
        ensures gives { IfOk result (λ version. IsSeen client.new version) }
    {
        client.make_room()?;
        self.shared.lock(rt).head(client, session)
    }

    /// Takes the session back to the version before, whose number is returned.
    pub fn undo<X: Wait>(
        &self,
        rt: &X,
        client: &mut Client<N, R>,
        session: u32,
    ) -> Result<u32, TableFault>
        ensures kept { KeepsCall client.old (Undo session) (reply_of Undone result) client.new }
        ensures later { SeesOn client.old client.new }
        ensures named { HasSeenIn client.new (reply_of Undone result) }
    {
        client.make_room()?;
        self.shared.lock(rt).undo(client, session)
    }

    /// Ends the session.
    pub fn close_session<X: Wait>(
        &self,
        rt: &X,
        client: &mut Client<N, R>,
        session: u32,
    ) -> Result<(), TableFault>
        ensures kept { KeepsCall client.old (Close session) (reply_of (λ _. Closed) result) client.new }
        ensures later { SeesOn client.old client.new }
        ensures named { HasSeenIn client.new (reply_of (λ _. Closed) result) }
    {
        client.make_room()?;
        self.shared.lock(rt).close(client, session)
    }

    /// Edits a version of the desk, and commits the result. The edits are drafted without the lock, and no graphs are
    /// compared.
    pub fn edit_known<X: Wait, Y: Runner>(
        &self,
        rt: &X,
        alloc: Global,
        client: &mut Client<N, R>,
        session: u32,
        base: &Known<N, R>,
        edits: &Held<Edits>,
        runner: &Y,
    ) -> Result<Known<N, R>, EditFault>
        ensures edits { EditAnswers client.old session base.now edits.now result client.new }
        ensures known { IfErr result IsOfKnown }
        ensures later { SeesOn client.old client.new }
    {
        let draft = match draft_of(alloc, base, edits, runner) {
            Ok(draft) => draft,
            Err(TableFault::Refused(refusal)) => return Err(EditFault::Edits(refusal)),
            Err(TableFault::Memory) => return Err(EditFault::Memory),
        };
        self.commit_draft(rt, client, session, base, &draft, edits.again()?)
    }

    /// Commits the result of editing a version of the desk, under the lock.
    fn commit_draft<X: Wait>(
        &self,
        rt: &X,
        client: &mut Client<N, R>,
        session: u32,
        base: &Known<N, R>,
        draft: &Draft<R>,
        edits: Held<Edits>,
    ) -> Result<Known<N, R>, EditFault>
        requires { IsDrafted base.now edits draft.now }
        ensures edits { EditAnswers client.old session base.now edits result client.new }
        ensures known { IfErr result IsOfKnown }
        ensures later { SeesOn client.old client.new }
    {
        client.meet(base);
        client.make_room()?;
        match self
            .shared
            .lock(rt)
            .commit(rt, &self.archive, client, session, draft, edits)
        {
            Ok(version) => Ok(version),
            Err(TableFault::Refused(refusal)) => Err(EditFault::Table(refusal)),
            Err(TableFault::Memory) => Err(EditFault::Memory),
        }
    }

    /// Edits a version that may be of another desk: refused by 52 where no version of its number has been seen, and by
    /// 56 where the one that has been seen has another graph. The comparison takes time linear in the graph's places, which
    /// [`Desk::edit_known`] saves.
    pub fn edit<X: Wait, Y: Runner>(
        &self,
        rt: &X,
        alloc: Global,
        client: &mut Client<N, R>,
        session: u32,
        version: &Version<R>,
        edits: &Held<Edits>,
        runner: &Y,
    ) -> Result<Known<N, R>, EditFault>
        ensures edits { EditAnswers client.old session version.now edits.now result client.new }
        ensures later { SeesOn client.old client.new }
    {
        let base = client.recognize(version)?;
        self.edit_known(rt, alloc, client, session, &base, edits, runner)
    }

    /// Ends the desk, once each client that was started has been given back.
    pub fn close(
        self,
        clients: Vec<Client<N, R>>,
    ) -> Result<Log<R>, (CloseFault, Desk<N, R, W>, Vec<Client<N, R>>)>
        requires { N.clients ≡ N.parts }
        ensures closed { IfOk result (λ log. IsClosed log clients.items) }
        ensures opening { IfOk result (λ log. opening_of log.state ≡ N.opening) }
        ensures missing { IfErr result (λ back. back.0 ≡ Missing → vec_len clients < N.parts) }
        ensures torn { IfErr result (λ back. back.0 ≡ Torn → IsTorn N.opening N.parts clients.items) }
        ensures back { IfErr result (λ back. back.2.items ≡ clients.items) }
    {
        let Desk {
            archive,
            shared,
            started,
        } = self;
        let mut shared = shared.into_inner();
        let mut clients = clients;
        if clients.len() < started {
            return Err((
                CloseFault::Missing,
                Desk::new(archive, shared, started),
                clients,
            ));
        }
        if !may_end(&mut shared, clients.as_mut_slice(), started) {
            return Err((
                CloseFault::Torn,
                Desk::new(archive, shared, started),
                clients,
            ));
        }
        let Shared {
            table,
            front: _,
            entries: _,
            rest: _,
            shelf: _,
            last: _,
            published,
        } = shared;
        drop(published);
        Ok(Log::of(table))
    }
}
