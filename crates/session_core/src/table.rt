//! The table: versions, sessions and the history, one call for each event.
ghost use Rattle.std.specs.Prelude.{◌≡◌, ◌≤◌, ◌^◌, ◌-◌, length, [], IfOk, IfSome, slice_get, MatchResult, None, Some};
ghost use Rattle.stage_graph.specs.Sound.{IsSound};
ghost use Rattle.stage_graph.specs.Walk.{IsRanked};
ghost use Rattle.version_store.specs.Plain.{opening_version};
ghost use Rattle.session_core.specs.Adding.{IsOfState};
ghost use Rattle.session_core.specs.Kept.{StandAtVersions};
ghost use Rattle.session_core.specs.Machine.{opening};
ghost use Rattle.session_core.specs.Log.{IsLegal};
ghost use Rattle.session_core.specs.Ready.{IsReady, Prepares};
ghost use Rattle.session_core.specs.declared.refusal.Refusal.TheVariants.{NoVersion};
ghost use Rattle.session_core.specs.TableView.{Answers, AnswersDraft, Books, IsVersionOf, commit_of, reply_of};
ghost use Rattle.session_core.specs.declared.event.Event.TheVariants.{Open, Head, Commit, Undo, Close};
ghost use Rattle.session_core.specs.declared.event.Reply.TheVariants.{Opened, At, Committed, Undone, Closed};

use crate::event::{Entry, Event, Reply};
use crate::machine::Machine;
use crate::ready::Ready;
use crate::refusal::{Refusal, TableFault};
use share_tree::Again;
use std::alloc::{AllocError, Global};
use std::marker::Model;
use version_store::{Draft, StateRepresentation, Version};

/// The versions, the open sessions, and the history of all that was asked.
#[derive(Drop)]
pub struct Table<R: StateRepresentation> {
    machine: Machine<R>,
    history: Vec<Entry>,
}

impl<R: StateRepresentation> Model for Table<R> {
    ghost use Rattle.std.specs.Prelude.{◌-◌, min, vec_len};
    ghost use Rattle.std.specs.Vec.{vec_capacity};
    ghost use Rattle.std.specs.Coded.{codes};
    ghost use Rattle.act_expr.specs.ExpressionCode.{coded_expression};
    ghost use Rattle.session_core.specs.Kept.{IsKept};
    ghost use Rattle.session_core.specs.TableView.{TableView};

    ghost Value = { TableView };

    ghost coded = { Prim.hlevel (codes, coded_expression) };

    ghost view = { λ table. record {
      state = table.machine.state;
      history = table.history.items;
      room = min table.machine.room (vec_capacity table.history - vec_len table.history);
    } };

    ghost invariant = { λ table. IsKept table.machine.state table.history.items };
}

impl<R: StateRepresentation> Table<R> {
    /// The table of version 0, with no session, for at most this many versions.
    pub fn new(alloc: Global, first: Version<R>, most: u32) -> Result<Table<R>, AllocError>
        requires first { first ≡ opening_version first.graph }
        requires most { (1 ≤ most) × (most ≤ 2 ^ 16) }
        ensures state { IfOk result (λ table. table.state ≡ opening first most) }
        ensures history { IfOk result (λ table. table.history ≡ []) }
    {
        Ok(Table {
            machine: Machine::new(alloc, first, most)?,
            history: Vec::new(alloc),
        })
    }

    /// Starts a session at a version. Refused by 57 outside of 1 to 65,535, by 50 where it is open, by 58 where 1,024
    /// sessions are open, and by 52 where there is no such version.
    pub fn open(&mut self, who: u32, session: u32, version: u32) -> Result<(), TableFault>
        ensures answers { Answers self.old who (Open session version) (reply_of (λ _. Opened version) result) self.new }
        ensures versions { self.new.state.versions ≡ self.old.state.versions }
    {
        self.history.reserve(1)?;
        let answer = self.machine.open(session, version)?;
        let event = Event::Open { session, version };
        let reply = match answer {
            Ok(()) => Reply::Opened(version),
            Err(refusal) => Reply::Refused(refusal),
        };
        self.history.push_reserved(Entry { who, event, reply });
        Ok(answer?)
    }

    /// The version that the session stands at. Refused by 51 where it is not open.
    pub fn head(&mut self, who: u32, session: u32) -> Result<Version<R>, TableFault>
        ensures answers { Answers self.old who (Head session) (reply_of (λ version. At version.number) result) self.new }
        ensures gives { IfOk result (λ version. IsVersionOf self.new.state version) }
        ensures versions { self.new.state.versions ≡ self.old.state.versions }
    {
        self.history.reserve(1)?;
        let event = Event::Head { session };
        match self.machine.head(session) {
            Ok(version) => {
                let version = version.again()?;
                let reply = Reply::At(version.number());
                self.history.push_reserved(Entry { who, event, reply });
                Ok(version)
            }
            Err(refusal) => {
                let reply = Reply::Refused(refusal);
                self.history.push_reserved(Entry { who, event, reply });
                Err(TableFault::Refused(refusal))
            }
        }
    }

    /// Takes the session back to the version before, whose number is returned. Refused by 51 where it is not open,
    /// and by 54 at the version at which it was opened.
    pub fn undo(&mut self, who: u32, session: u32) -> Result<u32, TableFault>
        ensures answers { Answers self.old who (Undo session) (reply_of Undone result) self.new }
        ensures versions { self.new.state.versions ≡ self.old.state.versions }
    {
        self.history.reserve(1)?;
        let answer = self.machine.undo(session);
        let event = Event::Undo { session };
        let reply = match answer {
            Ok(number) => Reply::Undone(number),
            Err(refusal) => Reply::Refused(refusal),
        };
        self.history.push_reserved(Entry { who, event, reply });
        Ok(answer?)
    }

    /// Ends the session, whose number may be opened again. Refused by 51 where it is not open.
    pub fn close(&mut self, who: u32, session: u32) -> Result<(), TableFault>
        ensures answers { Answers self.old who (Close session) (reply_of (λ _. Closed) result) self.new }
        ensures versions { self.new.state.versions ≡ self.old.state.versions }
    {
        self.history.reserve(1)?;
        let answer = self.machine.close(session);
        let event = Event::Close { session };
        let reply = match answer {
            Ok(()) => Reply::Closed,
            Err(refusal) => Reply::Refused(refusal),
        };
        self.history.push_reserved(Entry { who, event, reply });
        Ok(answer?)
    }

    /// Prepares a commit: everything but the change itself. A refusal is recorded: 51 where the session is not open, 52
    /// where there is no such base, 53 where the base is not the session's head, 55 where the table is full.
    pub fn prepare(
        &mut self,
        who: u32,
        session: u32,
        draft: &Draft<R>,
    ) -> Result<Ready<R>, TableFault>
        requires { IsOfState self.old.state session draft.now }
        ensures { Prepares self.old who session draft.now result self.new }
    {
        self.history.reserve(1)?;
        let base = draft.base();
        let edit = draft.edit().again()?;
        if let Err(refusal) = self.machine.may_commit(session, draft) {
            let event = Event::Commit {
                session,
                base,
                edit,
            };
            let reply = Reply::Refused(refusal);
            self.history.push_reserved(Entry { who, event, reply });
            return Err(TableFault::Refused(refusal));
        }
        self.machine.reserve()?;
        let version = draft.numbered(self.machine.next())?;
        Ok(Ready {
            who,
            session,
            base,
            edit,
            version,
        })
    }

    /// Commits what was prepared, and returns the version's number. Allocates nothing.
    pub fn finish(&mut self, ready: Ready<R>) -> u32
        requires { IsReady self.old ready }
        ensures booked { Books self.old ready.who (Commit ready.session ready.base ready.edits) (Committed result) self.new }
        ensures number { result ≡ ready.version.number }
        ensures gives { IsVersionOf self.new.state ready.version }
    {
        let Ready {
            who,
            session,
            base,
            edit,
            version,
        } = ready;
        let number = version.number();
        self.machine.add(session, version);
        let event = Event::Commit {
            session,
            base,
            edit,
        };
        let reply = Reply::Committed(number);
        self.history.push_reserved(Entry { who, event, reply });
        number
    }

    /// Commits the draft: a new version, on top of the session's list. Refused as by `prepare`, and by 56 where the
    /// session is open and the version of the base's number has another graph than the draft's base.
    pub fn commit(
        &mut self,
        who: u32,
        session: u32,
        draft: &Draft<R>,
    ) -> Result<Version<R>, TableFault>
        ensures answers { AnswersDraft self.old who session draft.now (reply_of (λ version. Committed version.number) result) self.new }
        ensures gives { IfOk result (λ version. IsVersionOf self.new.state version) }
    {
        if self.machine.is_foreign(session, draft) {
            self.history.reserve(1)?;
            let base = draft.base();
            let refusal = Refusal::Foreign(base);
            let event = Event::Commit {
                session,
                base,
                edit: draft.edit().again()?,
            };
            let reply = Reply::Refused(refusal);
            self.history.push_reserved(Entry { who, event, reply });
            return Err(TableFault::Refused(refusal));
        }
        let ready = self.prepare(who, session, draft)?;
        let version = ready.version().again()?;
        self.finish(ready);
        Ok(version)
    }

    /// Commits a draft of this table's own version of that number: `commit` without comparing the base's graph, which
    /// takes time in proportion to its places.
    pub(crate) fn commit_own(
        &mut self,
        who: u32,
        session: u32,
        draft: &Draft<R>,
    ) -> Result<u32, TableFault>
        requires { IsOfState self.old.state session draft.now }
        ensures { Answers self.old who (commit_of session draft.now) (reply_of Committed result) self.new }
    {
        let ready = self.prepare(who, session, draft)?;
        Ok(self.finish(ready))
    }

    /// The version with this number. Refused by 52 where there is none; it is no event.
    pub fn version(&self, number: u32) -> Result<&Version<R>, Refusal>
        ensures { MatchResult result
            (λ version. (version.now.number ≡ number) × (slice_get self.now.state.versions number ≡ Some version.now))
            (λ refusal. (refusal ≡ NoVersion) × (slice_get self.now.state.versions number ≡ None)) }
    {
        match self.machine.version(number) {
            Some(version) => Ok(version),
            None => Err(Refusal::NoVersion),
        }
    }

    /// The version that was made last: the one of the greatest number.
    pub fn last(&self) -> &Version<R>
        ensures { slice_get self.now.state.versions (length self.now.state.versions - 1) ≡ Some result.now }
    {
        match self.machine.last() {
            Some(version) => version,
            None => unreachable!(),
        }
    }

    /// The graph of version 0 is sound and has no cycle, as every version's is.
    pub(crate) fn beginning(&self)
        ensures { IfSome (slice_get self.now.state.versions 0) (λ version. IsSound version.graph × IsRanked version.graph.places) }
    {
        let Ok(first) = self.version(0) else {
            return;
        };
        // With its length a graph says that it is sound, as every graph is.
        let _ = first.graph().len();
    }

    /// What was asked and answered, in order.
    pub fn history(&self) -> &[Entry]
        ensures history { result.now ≡ self.now.history }
        ensures legal { IsLegal self.now.history self.now.state }
        ensures standing { StandAtVersions self.now.state }
    {
        self.machine.standing();
        self.history.as_slice()
    }
}
