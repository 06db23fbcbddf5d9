//! Clients of a desk.
ghost use Rattle.std.specs.Prelude.{◌≡◌, ◌≢◌, ◌<◌, ◌≤◌, ◌↔◌, ◌∷◌, List, Some, Err, IsTrue, OnOk, IfOk, MatchOption, length, slice_get};
ghost use Rattle.session_core.specs.declared.event.Entry.{Entry};
ghost use Rattle.version_store.specs.Plain.{PlainVersion};
ghost use Rattle.desk.specs.Clients.{entries_of, IsSameClient, SeesOn, IsSeen};
ghost use Rattle.desk.specs.Closing.{GoesWith};
ghost use Rattle.desk.specs.Recognizing.{Recognizes};
ghost use Rattle.desk.specs.declared.fault.ReadFault.TheVariants.{NoVersion};

use crate::fault::{EditFault, ReadFault};
use crate::front::Front;
use crate::known::Known;
use crate::name::Naming;
use crate::shelf::Reader;
use session_core::Entry;
use std::alloc::AllocError;
use std::marker::Model;
use std::sync::ledger::Share;
use version_store::{StateRepresentation, Version};

/// One of the desk's clients: its calls of the table with the replies, and the versions that it has seen.
#[derive(Drop)]
pub struct Client<N: Naming, R: StateRepresentation> {
    pub(crate) number: u32,
    pub(crate) calls: Vec<Entry>,
    pub(crate) share: Share<N>,
    pub(crate) front: Front<N, R>,
    pub(crate) reader: Reader<N, R>,
}

impl<N: Naming, R: StateRepresentation> Model for Client<N, R> {
    ghost use Rattle.std.specs.Prelude.{◌≡◌, ◌-◌, length, vec_len};
    ghost use Rattle.std.specs.Vec.{vec_capacity};
    ghost use Rattle.std.specs.Coded.{codes};
    ghost use Rattle.act_expr.specs.ExpressionCode.{coded_expression};
    ghost use Rattle.desk.specs.Clients.{ClientView};

    ghost Value = { ClientView };

    ghost coded = { Prim.hlevel (codes, coded_expression) };

    ghost view = { λ c. record { number = c.number; calls = c.calls.items; room = vec_capacity c.calls - vec_len c.calls; seen = c.front } };

    ghost invariant = { λ c. (c.share.parts ≡ 1) × (c.share.amount ≡ vec_len c.calls) };
}

impl<N: Naming, R: StateRepresentation> Client<N, R> {
    /// Its number, from 1 on, in the order in which the clients were started.
    pub fn number(&self) -> u32
        ensures { result ≡ self.now.number }
    {
        self.number
    }

    /// How many published versions it has seen.
    pub fn seen(&self) -> u64
        ensures { result ≡ length self.now.seen }
    {
        self.front.len()
    }

    /// The version with this number, by the client's own reader: takes no lock, and waits for nobody. Refused by
    /// 52 where no version of that number has been seen; everything published by now has been seen.
    pub fn version(&mut self, number: u32) -> Result<Known<N, R>, ReadFault>
        ensures found { IfOk result (λ version. (version.number ≡ number) × IsSeen self.new version) }
        ensures none { result ≡ Err NoVersion → length self.new.seen ≤ number }
        ensures later { SeesOn self.old self.new }
        ensures calls { IsSameClient self.old self.new }
    {
        match self.reader.find(number, &mut self.front)? {
            Some(known) => Ok(known),
            None if self.front.len() <= u64::from(number) => Err(ReadFault::NoVersion),
            None => Err(ReadFault::Memory),
        }
    }

    /// The desk's version with the number of a version that may be of another desk, if both have the same graph; the
    /// comparison takes time linear in its places. Refused by 52 as `version`, and by 56 where the graphs differ.
    pub fn recognize(&mut self, version: &Version<R>) -> Result<Known<N, R>, EditFault>
        ensures recognizes { Recognizes version.now result self.new }
        ensures later { SeesOn self.old self.new }
        ensures calls { IsSameClient self.old self.new }
    {
        let number = version.number();
        let known = match self.version(number) {
            Ok(known) => known,
            Err(ReadFault::NoVersion) => return Err(EditFault::NoVersion),
            Err(ReadFault::Memory) => return Err(EditFault::Memory),
        };
        if !known.graph().same(version.graph()) {
            return Err(EditFault::Foreign(number));
        }
        Ok(known)
    }

    /// The version stands in what has been seen.
    pub(crate) fn meet(&mut self, known: &Known<N, R>)
        ensures seen { IsSeen self.new known.now }
        ensures later { SeesOn self.old self.new }
        ensures calls { IsSameClient self.old self.new }
        ensures room { self.new.room ≡ self.old.room }
    {
        known.show(&mut self.front);
    }

    /// Reserves capacity for one more call.
    pub(crate) fn make_room(&mut self) -> Result<(), AllocError>
        ensures room { OnOk result (0 < self.new.room) }
        ensures calls { IsSameClient self.old self.new }
        ensures seen { self.new.seen ≡ self.old.seen }
    {
        self.calls.reserve(1)
    }

    /// Of the versions that the client has seen and those of a front, one list is a prefix of the other, by the rule of the
    /// archive. The call is there for the proof alone.
    pub(crate) fn goes_with(&self, front: &Front<N, R>)
        ensures { GoesWith front.now self.now }
    {
        let _longer = self.front.longer(front);
    }

    /// Whether the calls are the log's entries of this client.
    pub(crate) fn agrees(&self, log: &[Entry]) -> bool
        ensures { IsTrue result ↔ (self.now.calls ≡ entries_of self.now.number log.now) }
    {
        let mut rest = self.calls.as_slice();
        for entry in log {
            if entry.who == self.number {
                let Some(later) = rest_after(entry, rest) else {
                    return false;
                };
                rest = later;
            }
        }
        rest.is_empty()
    }
}

/// The calls after this one, if it comes first.
fn rest_after<'a>(entry: &Entry, calls: &'a [Entry]) -> Option<&'a [Entry]>
    ensures { MatchOption result ((later : List Entry) → calls.now ≢ entry.now ∷ later) (λ later. calls.now ≡ entry.now ∷ later.now) }
{
    let [call, later @ ..] = calls else {
        return None;
    };
    if call.same(entry) { Some(later) } else { None }
}
