//! Why an edit, a list of edits or a list of stages is refused.
ghost use Rattle.std.specs.Prelude.{◌≡◌};
ghost use Rattle.stage_graph.specs.Numbers.{refusal_number, fault_number};
ghost use Rattle.stage_graph.specs.Texts.{refusal_text, fault_text};

use crate::places::Places;
use act_expr::ExprFault;
use std::alloc::AllocError;
use std::fmt;
use thiserror::Error;

/// A check that an edit or a stage fails.
#[derive(Clone, Copy, Debug, PartialEq, Eq, Error)]
pub enum Refusal {
    /// 10: no live stage has the name.
    NoStage,
    /// 11: the name of an added stage is that of a live one, or of an earlier one of the list.
    NameTaken,
    /// 12: the name is no name of a stage.
    BadName,
    /// 13: the number of sources, inner stages or actions is not the operation's.
    Arity,
    /// 14: no live stage has the name of a source or of an inner stage.
    NoSource,
    /// 15: a number is above its limit.
    Limit,
    /// 16: an end is set before the stage is created.
    EndBeforeCreated,
    /// 17: the operation has no action that could take time or be set.
    NoAction,
    /// 18: the removed stage feeds others; it carries the least place of these.
    InUse(u32),
    /// 20: the action is nested too deeply or has too many nodes.
    Expr(ExprFault),
}

/// No live stage stands at the place that is asked about, or has the name.
#[derive(Clone, Copy, Debug, PartialEq, Eq, Error)]
#[error("10 NoStage")]
pub struct NoStage;

/// 21: a list of no edits, or of more than 64.
#[derive(Clone, Copy, Debug, PartialEq, Eq, Error)]
pub struct ListSize;

/// The first refusal, and where it came: the index of the edit in its list, or the place of the recorded stage.
#[derive(Clone, Copy, Debug, PartialEq, Eq)]
pub struct Refused {
    pub at: usize,
    pub refusal: Refusal,
}

/// Why one edit is refused.
#[derive(Drop)]
pub(crate) enum EditFault {
    Refused(Refusal),
    Memory,
}

/// Why a list of edits or of stages is refused.
#[derive(Drop, Debug, Error)]
pub enum Fault {
    Refused(Refused),
    /// 19: the stages feed one another in a circle. It carries a walk that ends where it began, each place
    /// followed by one of its feeds.
    Cycle(Places),
    /// 90: out of memory.
    Memory,
}

impl From<AllocError> for EditFault {
    ghost use Rattle.stage_graph.specs.declared.fault.EditFault.TheVariants.{Memory};

    ghost from_gives = { λ _ fault. fault ≡ Memory };

    fn from(_error: AllocError) -> EditFault {
        EditFault::Memory
    }
}

impl From<AllocError> for Fault {
    ghost use Rattle.stage_graph.specs.declared.fault.Fault.TheVariants.{Memory};

    ghost from_gives = { λ _ fault. fault ≡ Memory };

    fn from(_error: AllocError) -> Fault {
        Fault::Memory
    }
}

impl From<Refusal> for EditFault {
    ghost use Rattle.stage_graph.specs.declared.fault.EditFault.TheVariants.{Refused};

    ghost from_gives = { λ refusal fault. fault ≡ Refused refusal };

    fn from(refusal: Refusal) -> EditFault {
        EditFault::Refused(refusal)
    }
}

impl Refusal {
    /// The number by which the refusal is printed.
    pub fn number(self) -> u32
        ensures { result ≡ refusal_number self }
    {
        match self {
            Refusal::NoStage => 10,
            Refusal::NameTaken => 11,
            Refusal::BadName => 12,
            Refusal::Arity => 13,
            Refusal::NoSource => 14,
            Refusal::Limit => 15,
            Refusal::EndBeforeCreated => 16,
            Refusal::NoAction => 17,
            Refusal::InUse(_) => 18,
            Refusal::Expr(_) => 20,
        }
    }

    /// The number and the name by which the refusal is printed.
    pub fn text(&self) -> &'static str
        ensures { result.now ≡ refusal_text self.now }
    {
        match self {
            Refusal::NoStage => "10 NoStage",
            Refusal::NameTaken => "11 NameTaken",
            Refusal::BadName => "12 BadName",
            Refusal::Arity => "13 Arity",
            Refusal::NoSource => "14 NoSource",
            Refusal::Limit => "15 Limit",
            Refusal::EndBeforeCreated => "16 EndBeforeCreated",
            Refusal::NoAction => "17 NoAction",
            Refusal::InUse(_) => "18 InUse",
            Refusal::Expr(_) => "20 Expr",
        }
    }
}

impl fmt::Display for Refusal {
    ghost use Rattle.std.specs.Prelude.{Some};
    ghost use Rattle.stage_graph.specs.Texts.{refusal_text};

    ghost output = { λ refusal. Some (refusal_text refusal) };

    fn fmt<W: fmt::Write>(&self, f: &mut fmt::Formatter<W>) -> fmt::Result {
        f.write_str(self.text())
    }
}

impl NoStage {
    /// The number by which the refusal is printed.
    pub fn number(self) -> u32
        ensures { result ≡ 10 }
    {
        Refusal::NoStage.number()
    }
}

impl ListSize {
    /// The number by which the refusal is printed.
    pub fn number(self) -> u32
        ensures { result ≡ 21 }
    {
        21
    }
}

impl fmt::Display for ListSize {
    ghost use Rattle.std.specs.Prelude.{Some, codes};

    ghost output = { λ size. Some (codes "21 ListSize") };

    fn fmt<W: fmt::Write>(&self, f: &mut fmt::Formatter<W>) -> fmt::Result {
        f.write_str("21 ListSize")
    }
}

impl Fault {
    /// The number by which the fault is printed.
    pub fn number(&self) -> u32
        ensures { result ≡ fault_number self.now }
    {
        match self {
            Fault::Refused(refused) => refused.refusal.number(),
            Fault::Cycle(_) => 19,
            Fault::Memory => 90,
        }
    }

    /// The number and the name by which the fault is printed.
    pub fn text(&self) -> &'static str
        ensures { result.now ≡ fault_text self.now }
    {
        match self {
            Fault::Refused(refused) => refused.refusal.text(),
            Fault::Cycle(_) => "19 Cycle",
            Fault::Memory => "90 Memory",
        }
    }
}

impl fmt::Display for Fault {
    ghost use Rattle.std.specs.Prelude.{Some};
    ghost use Rattle.stage_graph.specs.Texts.{fault_text};

    ghost output = { λ fault. Some (fault_text fault) };

    fn fmt<W: fmt::Write>(&self, f: &mut fmt::Formatter<W>) -> fmt::Result {
        f.write_str(self.text())
    }
}
