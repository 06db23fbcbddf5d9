//! Why a word is no change, and why changes make no edits.
ghost use Rattle.std.specs.Prelude.{◌≡◌};
ghost use Rattle.change_words.specs.FaultTexts.{making_number};

use stage_graph::Refused;
use std::alloc::AllocError;
use std::fmt;

/// What is wrong with a part of a change.
#[derive(Clone, Copy, Debug, PartialEq, Eq)]
pub enum Wrong {
    /// It assigns nothing: no part stands after the stage's name.
    NothingAssigned,
    /// It begins with no key.
    NoKey,
    /// Its key needs a value, and no `=` is there.
    NoValue,
    /// Its key takes no value.
    TakesNoValue,
    /// Its value is no whole number: digits are wanted, and where it gives something a sign may stand before them.
    NoNumber,
    /// Its value is a number that has more than 64 bits.
    TooLarge,
    /// It asks for more than 100,000 hundredths.
    TooManyHundredths,
    /// Its value is the name of no exception.
    NoException,
    /// A former part has assigned the same.
    Again,
}

/// A part of a word that is wrong: an assignment, or the whole word where that has none.
#[derive(Clone, Copy, Debug)]
pub struct Misread<'a> {
    /// The part, as it stands in the word.
    pub part: &'a str,
    /// What is wrong with it.
    pub wrong: Wrong,
}

/// Why a word is no change.
#[derive(Debug, Drop)]
pub enum ReadFault<'a> {
    /// A part of it is wrong.
    Misread(Misread<'a>),
    /// Memory ran out.
    Memory,
}

/// Why changes make no edits of a graph.
#[derive(Debug, Drop)]
pub enum MakingFault {
    /// An edit is refused, by its index in the list.
    Refused(Refused),
    /// The edit of this index is to set the delay of a stage's one timeout end, and the stage has this many.
    NotOneTimeout { at: usize, count: usize },
    /// There are no edits, or more than 64.
    ListSize,
    /// Memory ran out.
    Memory,
}

impl From<AllocError> for MakingFault {
    ghost use Rattle.change_words.specs.declared.fault.MakingFault.TheVariants.{Memory};

    ghost from_gives = { λ _ fault. fault ≡ Memory };

    fn from(_error: AllocError) -> MakingFault {
        MakingFault::Memory
    }
}

impl MakingFault {
    /// The number by which the fault is printed.
    pub fn number(&self) -> u32
        ensures { result ≡ making_number self.now }
    {
        match self {
            MakingFault::Refused(refused) => refused.refusal.number(),
            MakingFault::NotOneTimeout { .. } => 22,
            MakingFault::ListSize => 21,
            MakingFault::Memory => 90,
        }
    }
}

/// As a list of edits is refused in a script: with the index of the refused edit.
impl fmt::Display for MakingFault {
    ghost use Rattle.std.specs.Prelude.{Some};
    ghost use Rattle.change_words.specs.FaultTexts.{making_text};

    ghost output = { λ fault. Some (making_text fault) };

    fn fmt<W: fmt::Write>(&self, f: &mut fmt::Formatter<W>) -> fmt::Result {
        match self {
            MakingFault::Refused(refused) => {
                let refusal = refused.refusal.text();
                let at = refused.at;
                write!(f, "refused {refusal} in {at}")
            }
            MakingFault::NotOneTimeout { at, .. } => write!(f, "refused 22 NotOneTimeout in {at}"),
            MakingFault::ListSize => f.write_str("refused 21 ListSize"),
            MakingFault::Memory => f.write_str("refused 90 Memory"),
        }
    }
}
