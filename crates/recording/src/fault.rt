//! Why a recording or a step is refused.
ghost use Rattle.std.specs.Prelude.{◌≡◌};
ghost use Rattle.recording.specs.FaultTexts.{fault_number};

use crate::Member;
use stage_graph::{Places, Refused};
use std::alloc::AllocError;
use std::fmt;
use thiserror::Error;

/// Why a recording or a step is refused.
#[derive(Drop, Debug, Error)]
pub enum Fault {
    /// The recording has more than 67,108,864 bytes.
    TooLong,
    /// The bytes are not UTF-8, or not JSON.
    Json,
    /// The member is absent, or does not have the form that the format requires.
    Shape(Member),
    /// The step's list has no edits, or more than 64.
    ListSize,
    /// The first recorded stage that fails a check of the graph, by its place.
    Refused(Refused),
    /// The recorded stages have a cycle: each of these places is followed by one of its feeds, and the last is the first.
    Cycle(Places),
    /// Out of memory.
    Memory,
}

impl Fault {
    /// The number by which the fault is printed.
    pub fn number(&self) -> u32
        ensures { result ≡ fault_number self.now }
    {
        match self {
            Fault::Refused(refused) => refused.refusal.number(),
            Fault::Cycle(_) => 19,
            Fault::ListSize => 21,
            Fault::Json => 70,
            Fault::Shape(_) => 71,
            Fault::TooLong => 72,
            Fault::Memory => 90,
        }
    }
}

impl fmt::Display for Fault {
    ghost use Rattle.std.specs.Prelude.{Some};
    ghost use Rattle.recording.specs.FaultTexts.{fault_text};

    ghost output = { λ fault. Some (fault_text fault) };

    fn fmt<W: fmt::Write>(&self, f: &mut fmt::Formatter<W>) -> fmt::Result {
        match self {
            Fault::Refused(refused) => {
                let refusal = refused.refusal.text();
                let place = refused.at;
                write!(f, "refused {refusal} at {place}")
            }
            Fault::Cycle(_) => f.write_str("refused 19 Cycle"),
            Fault::ListSize => f.write_str("refused 21 ListSize"),
            Fault::Json => f.write_str("refused 70 JSON"),
            Fault::Shape(member) => write!(f, "refused 71 Shape {member}"),
            Fault::TooLong => f.write_str("refused 72 TooLong"),
            Fault::Memory => f.write_str("refused 90 Memory"),
        }
    }
}

impl From<AllocError> for Fault {
    ghost use Rattle.std.specs.Prelude.{◌≡◌};
    ghost use Rattle.recording.specs.declared.fault.Fault.TheVariants.{Memory};

    ghost from_gives = { λ _ fault. fault ≡ Memory };

    fn from(_: AllocError) -> Fault {
        Fault::Memory
    }
}
