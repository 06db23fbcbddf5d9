//! Why a call of a desk fails.
ghost use Rattle.std.specs.Prelude.{◌≡◌};
ghost use Rattle.desk.specs.Faults.{close_number, edit_number, read_number};

use session_core::Refusal;
use std::alloc::AllocError;
use thiserror::Error;

/// Why a version cannot be read.
#[derive(Clone, Copy, PartialEq, Eq, Debug, Error)]
pub enum ReadFault {
    #[error("no version of that number is published")]
    NoVersion,
    #[error("out of memory")]
    Memory,
}

impl ReadFault {
    /// The number by which the fault is printed.
    pub fn number(self) -> u32
        ensures { result ≡ read_number self }
    {
        match self {
            ReadFault::NoVersion => 52,
            ReadFault::Memory => 90,
        }
    }
}

/// Why an edit made no version.
#[derive(Clone, Copy, PartialEq, Eq, Debug, Error)]
pub enum EditFault {
    /// No version of the base's number has been seen. The table was not asked.
    #[error("no version of that number is published")]
    NoVersion,
    /// The version of this number has another graph. The table was not asked.
    #[error("version {0} has another graph")]
    Foreign(u32),
    /// The edits are refused on the base. The table was not asked.
    #[error("{0}")]
    Edits(Refusal),
    /// The table's reply to the commit.
    #[error("{0}")]
    Table(Refusal),
    #[error("out of memory")]
    Memory,
}

impl EditFault {
    /// The number by which the fault is printed.
    pub fn number(self) -> u32
        ensures { result ≡ edit_number self }
    {
        match self {
            EditFault::NoVersion => 52,
            EditFault::Foreign(_) => 56,
            EditFault::Edits(refusal) => refusal.number(),
            EditFault::Table(refusal) => refusal.number(),
            EditFault::Memory => 90,
        }
    }
}

/// Why a desk stays open.
#[derive(Clone, Copy, PartialEq, Eq, Debug, Error)]
pub enum CloseFault {
    /// A client that was started is missing.
    #[error("a client is missing")]
    Missing,
    /// Clients or their calls disagree with the history.
    #[error("the clients' calls are not those of the history")]
    Torn,
}

impl CloseFault {
    /// The number by which the fault is printed.
    pub fn number(self) -> u32
        ensures { result ≡ close_number self }
    {
        match self {
            CloseFault::Missing => 60,
            CloseFault::Torn => 61,
        }
    }
}

impl From<AllocError> for EditFault {
    ghost use Rattle.desk.specs.declared.fault.EditFault.TheVariants.{Memory};

    ghost from_gives = { λ _ fault. fault ≡ Memory };

    fn from(_fault: AllocError) -> EditFault {
        EditFault::Memory
    }
}

impl From<AllocError> for ReadFault {
    ghost use Rattle.desk.specs.declared.fault.ReadFault.TheVariants.{Memory};

    ghost from_gives = { λ _ fault. fault ≡ Memory };

    fn from(_fault: AllocError) -> ReadFault {
        ReadFault::Memory
    }
}
