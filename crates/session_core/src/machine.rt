//! What the table does for each event, without its history.
ghost use Rattle.std.specs.Prelude.{◌≡◌, ◌<◌, ◌≤◌, ◌^◌, ◌-◌, ◌↔◌, length, Some, None, IsSome, IsTrue, false, slice_get, option_copied, OnOk, IfOk, IfSome, OnErr, MatchResult, [], ◌∷◌};
ghost use Rattle.std.specs.Ordering.{nat_cmp};
ghost use Rattle.std.specs.BTreeMap.{get, insert_entry};
ghost use Rattle.version_store.specs.Plain.{opening_version};
ghost use Rattle.session_core.specs.Adding.{IsAtBase, IsOfState, MayAdd};
ghost use Rattle.session_core.specs.Kept.{StandAtVersions};
ghost use Rattle.session_core.specs.Machine.{Numbers, opening, book, numbers_at, added};
ghost use Rattle.session_core.specs.TableView.{IsForeignDraft, IsVersionOf, commit_of};
ghost use Rattle.session_core.specs.declared.event.Event.TheVariants.{Open, Head, Undo, Close};
ghost use Rattle.session_core.specs.declared.event.Reply.TheVariants.{Opened, At, Undone, Closed, Refused};

use crate::refusal::Refusal;
use std::alloc::{AllocError, Global};
use std::collections::BTreeMap;
use std::marker::Model;
use version_store::{Draft, StateRepresentation, Version};

/// Where a session stands: at its head, and no undo goes below its bottom.
///
/// Its list of numbers is the climb from the head down to the bottom by parents.
#[derive(Clone, Copy, PartialEq, Eq, Debug)]
pub(crate) struct Span {
    pub(crate) bottom: u32,
    pub(crate) head: u32,
}

/// The versions and the open sessions, which contracts see as the state that they stand for.
#[derive(Drop)]
pub(crate) struct Machine<R: StateRepresentation> {
    versions: Vec<Version<R>>,
    most: u32,
    sessions: BTreeMap<u32, Span>,
}

impl<R: StateRepresentation> Model for Machine<R> {
    ghost use Rattle.std.specs.Prelude.{◌-◌, vec_len};
    ghost use Rattle.std.specs.Vec.{vec_capacity};
    ghost use Rattle.std.specs.Coded.{codes};
    ghost use Rattle.act_expr.specs.ExpressionCode.{coded_expression};
    ghost use Rattle.session_core.specs.MachineView.{MachineView, state_of, IsSound};

    ghost Value = { MachineView };

    ghost coded = { Prim.hlevel (codes, coded_expression) };

    ghost view = { λ machine. record {
      state = state_of (record { versions = machine.versions.items; most = machine.most; spans = machine.sessions.entries });
      room = vec_capacity machine.versions - vec_len machine.versions;
    } };

    ghost invariant = { λ machine. IsSound (record { versions = machine.versions.items; most = machine.most; spans = machine.sessions.entries }) };
}

impl<R: StateRepresentation> Machine<R> {
    /// The machine of version 0, with no session.
    pub(crate) fn new(alloc: Global, first: Version<R>, most: u32) -> Result<Machine<R>, AllocError>
        requires first { first ≡ opening_version first.graph }
        requires most { most ≤ 2 ^ 16 }
        ensures { IfOk result (λ machine. machine.state ≡ opening first most) }
    {
        let mut versions = Vec::new(alloc);
        versions.push(first)?;
        Ok(Machine {
            versions,
            most,
            sessions: BTreeMap::new(alloc),
        })
    }

    /// Reserves capacity for one more version.
    pub(crate) fn reserve(&mut self) -> Result<(), AllocError>
        ensures state { self.new.state ≡ self.old.state }
        ensures room { OnOk result (0 < self.new.room) }
    {
        self.versions.reserve(1)
    }

    /// The version of a number.
    pub(crate) fn version(&self, number: u32) -> Option<&Version<R>>
        ensures version { option_copied result ≡ slice_get self.now.state.versions number }
        ensures numbered { IfSome result (λ version. version.now.number ≡ number) }
    {
        self.versions.get(number as usize)
    }

    /// The version of the greatest number.
    pub(crate) fn last(&self) -> Option<&Version<R>>
        ensures { option_copied result ≡ slice_get self.now.state.versions (length self.now.state.versions - 1) }
    {
        self.versions.last()
    }

    /// The number of the next version.
    pub(crate) fn next(&self) -> u32
        requires { length self.now.state.versions < self.now.state.most }
        ensures { result ≡ length self.now.state.versions }
    {
        self.versions.len() as u32
    }

    /// Every session stands at versions.
    pub(crate) fn standing(&self)
        ensures { StandAtVersions self.now.state }
    {
        // With the field comes what its type says of it, and that is the claim.
        let _ = &self.sessions;
    }

    pub(crate) fn open(
        &mut self,
        session: u32,
        version: u32,
    ) -> Result<Result<(), Refusal>, AllocError>
        ensures booked { IfOk result (λ answer. MatchResult answer
            (λ _. book self.old.state (Open session version) ≡ Some (Opened version, self.new.state))
            (λ refusal. book self.old.state (Open session version) ≡ Some (Refused refusal, self.new.state))) }
        ensures memory { OnErr result (self.new.state ≡ self.old.state) }
        ensures kept { (self.new.state.versions ≡ self.old.state.versions) × (self.new.state.most ≡ self.old.state.most) }
    {
        if session == 0 || session >= 1 << 16 {
            return Ok(Err(Refusal::BadSession));
        }
        if self.sessions.contains_key(&session) {
            return Ok(Err(Refusal::SessionOpen));
        }
        if self.sessions.len() >= 1024 {
            return Ok(Err(Refusal::TooManySessions));
        }
        if version as usize >= self.versions.len() {
            return Ok(Err(Refusal::NoVersion));
        }
        let span = Span {
            bottom: version,
            head: version,
        };
        self.sessions.insert(session, span)?;
        Ok(Ok(()))
    }

    pub(crate) fn head(&self, session: u32) -> Result<&Version<R>, Refusal>
        ensures { MatchResult result
            (λ version. (book self.now.state (Head session) ≡ Some (At version.now.number, self.now.state)) × IsVersionOf self.now.state version.now)
            (λ refusal. book self.now.state (Head session) ≡ Some (Refused refusal, self.now.state)) }
    {
        match self.sessions.get(&session) {
            Some(span) => Ok(&self.versions[span.head as usize]),
            None => Err(Refusal::NoSession),
        }
    }

    /// Whether the session is open and the draft's base has another graph here.
    pub(crate) fn is_foreign(&self, session: u32, draft: &Draft<R>) -> bool
        ensures foreign { IsTrue result ↔ IsForeignDraft self.now.state session draft.now }
        ensures own { result ≡ false → IsOfState self.now.state session draft.now }
    {
        let base = draft.base() as usize;
        if !self.sessions.contains_key(&session) {
            return false;
        }
        if base >= self.versions.len() {
            return false;
        }
        !self.versions[base].graph().same(draft.base_graph())
    }

    /// Whether the session may commit the draft, or why not.
    pub(crate) fn may_commit(&self, session: u32, draft: &Draft<R>) -> Result<(), Refusal>
        ensures { MatchResult result (λ _. IsAtBase self.now.state session draft.now.origin.number)
            (λ refusal. book self.now.state (commit_of session draft.now) ≡ Some (Refused refusal, self.now.state)) }
    {
        let Some(span) = self.sessions.get(&session) else {
            return Err(Refusal::NoSession);
        };
        if draft.base() as usize >= self.versions.len() {
            return Err(Refusal::NoVersion);
        }
        if span.head != draft.base() {
            return Err(Refusal::Moved(span.head));
        }
        if self.versions.len() >= self.most as usize {
            return Err(Refusal::Full);
        }
        Ok(())
    }

    /// Adds the version on top of the session's list. Allocates nothing.
    pub(crate) fn add(&mut self, session: u32, version: Version<R>)
        requires room { 0 < self.old.room }
        requires may { MayAdd self.old.state session version }
        ensures { (numbers : Numbers) → numbers_at self.old.state session ≡ Some numbers → self.new.state ≡ added self.old.state session numbers version }
    {
        let head = version.number();
        let Some(&span) = self.sessions.get(&session) else {
            unreachable!()
        };
        self.versions.push_reserved(version);
        let bottom = span.bottom;
        stand(&mut self.sessions, session, Span { bottom, head });
    }

    pub(crate) fn undo(&mut self, session: u32) -> Result<u32, Refusal>
        ensures booked { MatchResult result
            (λ number. book self.old.state (Undo session) ≡ Some (Undone number, self.new.state))
            (λ refusal. book self.old.state (Undo session) ≡ Some (Refused refusal, self.new.state)) }
        ensures kept { (self.new.state.versions ≡ self.old.state.versions) × (self.new.state.most ≡ self.old.state.most) }
    {
        let Some(&span) = self.sessions.get(&session) else {
            return Err(Refusal::NoSession);
        };
        if span.head == span.bottom {
            return Err(Refusal::AtBottom);
        }
        let Some(parent) = self.versions[span.head as usize].parent() else {
            return Err(Refusal::AtBottom);
        };
        let span = Span {
            bottom: span.bottom,
            head: parent,
        };
        stand(&mut self.sessions, session, span);
        Ok(parent)
    }

    pub(crate) fn close(&mut self, session: u32) -> Result<(), Refusal>
        ensures booked { MatchResult result
            (λ _. book self.old.state (Close session) ≡ Some (Closed, self.new.state))
            (λ refusal. book self.old.state (Close session) ≡ Some (Refused refusal, self.new.state)) }
        ensures kept { (self.new.state.versions ≡ self.old.state.versions) × (self.new.state.most ≡ self.old.state.most) }
    {
        let Some(_) = self.sessions.remove(&session) else {
            return Err(Refusal::NoSession);
        };
        Ok(())
    }
}

/// Moves an open session to another version. Allocates nothing.
fn stand(sessions: &mut BTreeMap<u32, Span>, session: u32, span: Span)
    requires { IsSome (get nat_cmp sessions.old session) }
    ensures { sessions.new.entries ≡ insert_entry nat_cmp sessions.old.entries session span }
{
    match sessions.insert(session, span) {
        Ok(_) => {}
        Err(_) => unreachable!(),
    }
}
