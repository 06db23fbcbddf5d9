//! Why a table refuses.
ghost use Rattle.std.specs.Prelude.{◌≡◌, ◌↔◌, IsTrue};
ghost use Rattle.session_core.specs.Refusals.{dependent_of, refusal_detail, refusal_index, refusal_number, refusal_text, fault_number, of_fault, reply_to};
ghost use Rattle.session_core.specs.declared.refusal.TableFault.TheVariants.{Refused, Memory};

use crate::event::Reply;
use stage_graph::{Fault, Refused};
use std::alloc::AllocError;
use std::fmt;
use thiserror::Error;

/// Why nothing was done.
#[derive(Clone, Copy, PartialEq, Eq, Debug, Error)]
pub enum Refusal {
    /// 10 to 18 and 20: an edit is refused.
    Edits(Refused),
    /// 19: the edits close a cycle.
    Cycle,
    /// 50: a session of this number is open.
    SessionOpen,
    /// 51: no session of this number is open.
    NoSession,
    /// 52: there is no version of this number.
    NoVersion,
    /// 53: the session stands at this version, and not at the base.
    Moved(u32),
    /// 54: the session stands at the version at which it was opened.
    AtBottom,
    /// 55: there are as many versions as the table holds.
    Full,
    /// 56: the version of this number has another graph.
    Foreign(u32),
    /// 57: a session's number is from 1 to 65,535.
    BadSession,
    /// 58: 1,024 sessions are open.
    TooManySessions,
}

impl Refusal {
    /// The number by which the refusal is printed.
    pub fn number(self) -> u32
        ensures { result ≡ refusal_number self }
    {
        match self {
            Refusal::Edits(refused) => refused.refusal.number(),
            Refusal::Cycle => 19,
            Refusal::SessionOpen => 50,
            Refusal::NoSession => 51,
            Refusal::NoVersion => 52,
            Refusal::Moved(_) => 53,
            Refusal::AtBottom => 54,
            Refusal::Full => 55,
            Refusal::Foreign(_) => 56,
            Refusal::BadSession => 57,
            Refusal::TooManySessions => 58,
        }
    }

    /// The number and the name by which the refusal is printed.
    pub fn text(&self) -> &'static str
        ensures { result.now ≡ refusal_text self.now }
    {
        match self {
            Refusal::Edits(refused) => refused.refusal.text(),
            Refusal::Cycle => "19 Cycle",
            Refusal::SessionOpen => "50 SessionOpen",
            Refusal::NoSession => "51 NoSession",
            Refusal::NoVersion => "52 NoVersion",
            Refusal::Moved(_) => "53 Moved",
            Refusal::AtBottom => "54 AtBottom",
            Refusal::Full => "55 Full",
            Refusal::Foreign(_) => "56 Foreign",
            Refusal::BadSession => "57 BadSession",
            Refusal::TooManySessions => "58 TooManySessions",
        }
    }

    /// The place of the stage that depends on a removed one, the version at which a session stands, or the version that
    /// has another graph; of other refusals none.
    pub fn detail(self) -> Option<u32>
        ensures { result ≡ refusal_detail self }
    {
        match self {
            Refusal::Edits(refused) => dependent_of(refused.refusal),
            Refusal::Moved(number) | Refusal::Foreign(number) => Some(number),
            _ => None,
        }
    }

    /// The index of a refused edit in its list.
    pub fn place(self) -> Option<usize>
        ensures { result ≡ refusal_index self }
    {
        match self {
            Refusal::Edits(refused) => Some(refused.at),
            _ => None,
        }
    }
}

/// The stage that depends on a removed one.
fn dependent_of(refusal: stage_graph::Refusal) -> Option<u32>
    ensures { result ≡ dependent_of refusal }
{
    match refusal {
        stage_graph::Refusal::InUse(dependent) => Some(dependent),
        _ => None,
    }
}

impl fmt::Display for Refusal {
    ghost use Rattle.std.specs.Prelude.{Some};
    ghost use Rattle.session_core.specs.Refusals.{refusal_text};

    ghost output = { λ refusal. Some (refusal_text refusal) };

    fn fmt<W: fmt::Write>(&self, f: &mut fmt::Formatter<W>) -> fmt::Result {
        f.write_str(self.text())
    }
}

/// Why a call of the table failed: a refusal, or out of memory.
#[derive(Clone, Copy, PartialEq, Eq, Debug, Error)]
pub enum TableFault {
    #[error("{0}")]
    Refused(Refusal),
    #[error("90 Memory")]
    Memory,
}

impl TableFault {
    /// The reply for the fault.
    pub fn reply(self) -> Reply
        ensures { result ≡ reply_to self }
    {
        match self {
            TableFault::Refused(refusal) => Reply::Refused(refusal),
            TableFault::Memory => Reply::Memory,
        }
    }

    /// The number by which the fault is printed.
    pub fn number(self) -> u32
        ensures { result ≡ fault_number self }
    {
        match self {
            TableFault::Refused(refusal) => refusal.number(),
            TableFault::Memory => 90,
        }
    }
}

/// Why edits have no draft, in the table's terms.
pub(crate) fn of_fault(fault: &Fault) -> TableFault
    ensures { result ≡ of_fault fault.now }
{
    match fault {
        Fault::Refused(refused) => TableFault::Refused(Refusal::Edits(*refused)),
        Fault::Cycle(_) => TableFault::Refused(Refusal::Cycle),
        Fault::Memory => TableFault::Memory,
    }
}

impl From<Refusal> for TableFault {
    ghost from_gives = { λ refusal fault. fault ≡ Refused refusal };

    fn from(refusal: Refusal) -> TableFault {
        TableFault::Refused(refusal)
    }
}

impl From<AllocError> for TableFault {
    ghost from_gives = { λ _ fault. fault ≡ Memory };

    fn from(_fault: AllocError) -> TableFault {
        TableFault::Memory
    }
}
