//! What the lock guards.
ghost use Rattle.std.specs.Prelude.{◌≡◌, ◌+◌, ◌<◌, length, IfOk, IfErr, OnOk};
ghost use Rattle.std.specs.List.{sum_by};
ghost use mathlib.Core.List.{IsPrefix};
ghost use Rattle.version_store.specs.Plain.{numbered};
ghost use Rattle.session_core.specs.Ready.{IsReady};
ghost use Rattle.session_core.specs.TableView.{Answers, reply_of, commit_of};
ghost use Rattle.session_core.specs.declared.event.Event.TheVariants.{Open, Head, Commit, Undo, Close};
ghost use Rattle.session_core.specs.declared.event.Reply.TheVariants.{Opened, At, Committed, Undone, Closed};
ghost use Rattle.session_core.specs.declared.refusal.TableFault.TheVariants.{Memory};
ghost use Rattle.desk.specs.Clients.{Keeps, KeepsCall, SeesOn, HasSeenIn, IsSeen};
ghost use Rattle.desk.specs.Committing.{IsSeenOrigin, RefusesToCommit};

use crate::client::Client;
use crate::front::{Archive, Front};
use crate::known::Known;
use crate::name::Naming;
use crate::publishing::{Publication, place};
use crate::shelf::{Count, Shelf, Shelved, show};
use left_right::WriteHandle;
use session_core::{Entry, Event, Ready, Reply, Table, TableFault};
use share_tree::Held;
use stage_graph::Edits;
use std::marker::Model;
use std::sync::ledger::{Book, Share};
use std::sync::{Arc, Wait};
use version_store::{Draft, StateRepresentation};

/// The table, with the front of its versions, what is published of them, what shows that the last of these lies on the
/// shelf, the book that counts the table's entries, and a share with no part.
#[derive(Drop)]
pub(crate) struct Shared<N: Naming, R: StateRepresentation, W: Wait + Drop> {
    pub(crate) table: Table<R>,
    pub(crate) front: Front<N, R>,
    pub(crate) entries: Book<N>,
    pub(crate) rest: Share<N>,
    pub(crate) shelf: Arc<Shelf<N, R>>,
    pub(crate) last: Shelved<N, R>,
    pub(crate) published: WriteHandle<Count, u64, W>,
}

impl<N: Naming, R: StateRepresentation, W: Wait + Drop> Model for Shared<N, R, W> {
    ghost use Rattle.std.specs.Prelude.{◌≡◌};
    ghost use Rattle.std.specs.Arc.{arc_value};
    ghost use Rattle.std.specs.Coded.{codes};
    ghost use Rattle.act_expr.specs.ExpressionCode.{coded_expression};
    ghost use Rattle.left_right.specs.Handles.{published as shown};
    ghost use Rattle.session_core.specs.TableView.{TableView};
    ghost use Rattle.desk.specs.Locked.{IsLocked};
    ghost use Rattle.desk.specs.Shelving.{IsLastShelved};

    ghost Value = { TableView };

    ghost coded = { Prim.hlevel (codes, coded_expression) };

    ghost view = { λ s. s.table };

    ghost invariant = { λ s. IsLocked N.opening s.table s.front (shown s.published).0 s.entries.total × (s.rest.parts ≡ 0) × (s.rest.amount ≡ 0) × IsLastShelved (arc_value s.shelf) s.last s.front };
}

/// The client keeps the call, counts it, and learns the versions of the front.
fn keep<N: Naming, R: StateRepresentation>(
    entries: &mut Book<N>,
    front: &Front<N, R>,
    client: &mut Client<N, R>,
    event: Event,
    reply: Reply,
)
    requires { 0 < client.old.room }
    ensures entries { entries.new.total ≡ entries.old.total + 1 }
    ensures client { Keeps client.old event reply client.new }
    ensures later { SeesOn client.old client.new }
    ensures learns { IsPrefix front.now client.new.seen }
{
    entries.add(&mut client.share, 1);
    let who = client.number;
    client.calls.push_reserved(Entry { who, event, reply });
    client.front = client.front.longer(front);
}

impl<N: Naming, R: StateRepresentation, W: Wait + Drop> Shared<N, R, W> {
    pub(crate) fn open(
        &mut self,
        client: &mut Client<N, R>,
        session: u32,
        version: u32,
    ) -> Result<(), TableFault>
        requires room { 0 < client.old.room }
        ensures table { Answers self.old client.old.number (Open session version) (reply_of (λ _. Opened version) result) self.new }
        ensures kept { KeepsCall client.old (Open session version) (reply_of (λ _. Opened version) result) client.new }
        ensures later { SeesOn client.old client.new }
        ensures named { HasSeenIn client.new (reply_of (λ _. Opened version) result) }
    {
        // The history comes with what the proof needs of the table: it is a legal log, and its sessions stand at versions.
        let _ = self.table.history();
        let answer = self.table.open(client.number, session, version);
        let reply = match answer {
            Ok(()) => Reply::Opened(version),
            Err(TableFault::Refused(refusal)) => Reply::Refused(refusal),
            Err(TableFault::Memory) => return answer,
        };
        let event = Event::Open { session, version };
        keep(&mut self.entries, &self.front, client, event, reply);
        answer
    }

    pub(crate) fn head(
        &mut self,
        client: &mut Client<N, R>,
        session: u32,
    ) -> Result<Known<N, R>, TableFault>
        requires room { 0 < client.old.room }
        ensures table { Answers self.old client.old.number (Head session) (reply_of (λ version. At version.number) result) self.new }
        ensures kept { KeepsCall client.old (Head session) (reply_of (λ version. At version.number) result) client.new }
        ensures later { SeesOn client.old client.new }
        ensures named { HasSeenIn client.new (reply_of (λ version. At version.number) result) }
        ensures gives { IfOk result (λ version. IsSeen client.new version) }
    {
        // The history comes with what the proof needs of the table: it is a legal log, and its sessions stand at versions.
        let _ = self.table.history();
        let event = Event::Head { session };
        match self.table.head(client.number, session) {
            Ok(version) => {
                let reply = Reply::At(version.number());
                keep(&mut self.entries, &self.front, client, event, reply);
                Ok(Known::new(version, &self.front))
            }
            Err(TableFault::Refused(refusal)) => {
                let reply = Reply::Refused(refusal);
                keep(&mut self.entries, &self.front, client, event, reply);
                Err(TableFault::Refused(refusal))
            }
            Err(TableFault::Memory) => Err(TableFault::Memory),
        }
    }

    pub(crate) fn undo(
        &mut self,
        client: &mut Client<N, R>,
        session: u32,
    ) -> Result<u32, TableFault>
        requires room { 0 < client.old.room }
        ensures table { Answers self.old client.old.number (Undo session) (reply_of Undone result) self.new }
        ensures kept { KeepsCall client.old (Undo session) (reply_of Undone result) client.new }
        ensures later { SeesOn client.old client.new }
        ensures named { HasSeenIn client.new (reply_of Undone result) }
    {
        // The history comes with what the proof needs of the table: it is a legal log, and its sessions stand at versions.
        let _ = self.table.history();
        let answer = self.table.undo(client.number, session);
        let reply = match answer {
            Ok(number) => Reply::Undone(number),
            Err(TableFault::Refused(refusal)) => Reply::Refused(refusal),
            Err(TableFault::Memory) => return answer,
        };
        let event = Event::Undo { session };
        keep(&mut self.entries, &self.front, client, event, reply);
        answer
    }

    pub(crate) fn close(
        &mut self,
        client: &mut Client<N, R>,
        session: u32,
    ) -> Result<(), TableFault>
        requires room { 0 < client.old.room }
        ensures table { Answers self.old client.old.number (Close session) (reply_of (λ _. Closed) result) self.new }
        ensures kept { KeepsCall client.old (Close session) (reply_of (λ _. Closed) result) client.new }
        ensures later { SeesOn client.old client.new }
        ensures named { HasSeenIn client.new (reply_of (λ _. Closed) result) }
    {
        // The history comes with what the proof needs of the table: it is a legal log, and its sessions stand at versions.
        let _ = self.table.history();
        let answer = self.table.close(client.number, session);
        let reply = match answer {
            Ok(()) => Reply::Closed,
            Err(TableFault::Refused(refusal)) => Reply::Refused(refusal),
            Err(TableFault::Memory) => return answer,
        };
        let event = Event::Close { session };
        keep(&mut self.entries, &self.front, client, event, reply);
        answer
    }

    /// Commits the draft, and publishes the version between the table's `prepare` and `finish`.
    pub(crate) fn commit<X: Wait>(
        &mut self,
        rt: &X,
        archive: &Archive<N, R>,
        client: &mut Client<N, R>,
        session: u32,
        draft: &Draft<R>,
        edit: Held<Edits>,
    ) -> Result<Known<N, R>, TableFault>
        requires room { 0 < client.old.room }
        requires base { IsSeenOrigin client.old draft.now.origin }
        requires edits { edit ≡ draft.now.origin.edits }
        ensures table { Answers self.old client.old.number (commit_of session draft.now) (reply_of (λ version. Committed version.number) result) self.new }
        ensures kept { KeepsCall client.old (commit_of session draft.now) (reply_of (λ version. Committed version.number) result) client.new }
        ensures later { SeesOn client.old client.new }
        ensures named { HasSeenIn client.new (reply_of (λ version. Committed version.number) result) }
        ensures made { IfOk result (λ version. IsSeen client.new version × (version ≡ numbered draft.now version.number)) }
        ensures refused { IfErr result (RefusesToCommit draft.now.origin.number) }
    {
        client.front = client.front.longer(&self.front);
        // The history comes with what the proof needs of the table: it is a legal log, and its sessions stand at versions.
        let _ = self.table.history();
        let event = Event::Commit {
            session,
            base: draft.base(),
            edit,
        };
        match self.table.prepare(client.number, session, draft) {
            Ok(ready) => self.publish(rt, archive, client, ready, event),
            Err(TableFault::Refused(refusal)) => {
                let reply = Reply::Refused(refusal);
                keep(&mut self.entries, &self.front, client, event, reply);
                Err(TableFault::Refused(refusal))
            }
            Err(TableFault::Memory) => Err(TableFault::Memory),
        }
    }

    /// Publishes the version of a commit that is prepared, and finishes the commit. What can fail comes first; from what
    /// readers see on nothing can.
    fn publish<X: Wait>(
        &mut self,
        rt: &X,
        archive: &Archive<N, R>,
        client: &mut Client<N, R>,
        ready: Ready<R>,
        event: Event,
    ) -> Result<Known<N, R>, TableFault>
        requires room { 0 < client.old.room }
        requires ready { IsReady self.old ready }
        requires who { ready.who ≡ client.old.number }
        requires event { event ≡ Commit ready.session ready.base ready.edits }
        ensures table { Answers self.old client.old.number event (reply_of (λ version. Committed version.number) result) self.new }
        ensures kept { KeepsCall client.old event (reply_of (λ version. Committed version.number) result) client.new }
        ensures later { SeesOn client.old client.new }
        ensures named { HasSeenIn client.new (reply_of (λ version. Committed version.number) result) }
        ensures made { IfOk result (λ version. IsSeen client.new version × (version ≡ ready.version)) }
        ensures fault { IfErr result (λ fault. fault ≡ Memory) }
    {
        let Publication {
            front,
            last,
            version,
        } = place(
            rt,
            archive,
            &self.shelf,
            &mut self.published,
            &self.front,
            ready.version(),
        )?;
        show(&mut self.published, front.len());
        self.last = last;
        self.front = front;
        let number = self.table.finish(ready);
        let reply = Reply::Committed(number);
        keep(&mut self.entries, &self.front, client, event, reply);
        Ok(Known::new(version, &self.front))
    }
}

/// The clients' calls are as many as the book has counted, where no client is missing.
pub(crate) fn tally<N: Naming, R: StateRepresentation>(
    entries: &mut Book<N>,
    clients: &mut [Client<N, R>],
    seen: &mut Share<N>,
)
    requires all { seen.old.parts + length clients.old ≡ N.parts }
    requires backed { seen.old.parts ≡ 0 → seen.old.amount ≡ 0 }
    ensures counted { seen.old.amount + sum_by (λ c. length c.calls) clients.old ≡ entries.old.total }
    ensures entries { entries.new.total ≡ entries.old.total }
    ensures clients { clients.new ≡ clients.old }
    ensures seen { (seen.new.parts ≡ seen.old.parts) × (seen.new.amount ≡ seen.old.amount) }
{
    if clients.is_empty() {
        entries.audit(seen);
        return;
    }
    let (first, others) = clients.split_at_mut(1);
    let client = &mut first[0];
    let count = client.calls.len() as u64;
    client.share.give(seen, 1, count);
    tally(entries, others, seen);
    seen.give(&mut client.share, 1, count);
}
