//! Why a trace is not imported.
ghost use Rattle.std.specs.Prelude.{◌≡◌};
ghost use Rattle.trace_import.specs.Faults.{ends_all, import_number};

use std::alloc::AllocError;
use std::fmt;
use text_io::WriteFault;
use thiserror::Error;
use trace_relations::RelationsFault;
use trace_spans::Fault;

/// Why a trace is not imported.
#[derive(Drop, Debug, Error)]
pub enum ImportFault {
    /// The file is refused; nothing was written.
    Refused(Fault),
    /// The trace has no ticks; nothing was written.
    Unticked(RelationsFault),
    /// The recording would have more than 65,536 stages; nothing was written.
    TooManyStages,
    /// The recording would have more than 67,108,864 bytes; nothing was written.
    TooLong,
    /// A write failed, or took nothing.
    Write,
    /// An allocation failed; nothing was written.
    Memory,
}

impl ImportFault {
    /// The number by which the fault is printed.
    pub fn number(&self) -> u32
        ensures { result ≡ import_number self.now }
    {
        match self {
            ImportFault::Refused(fault) => fault.number(),
            ImportFault::Unticked(fault) => fault.number(),
            ImportFault::TooManyStages => 85,
            ImportFault::TooLong => 72,
            ImportFault::Write => 40,
            ImportFault::Memory => 90,
        }
    }
}

impl ImportFault {
    /// Whether nothing more can be written of other traces either.
    pub(crate) fn ends_all(&self) -> bool
        ensures { result ≡ ends_all self.now }
    {
        matches!(
            self,
            ImportFault::Refused(Fault::Memory)
                | ImportFault::Unticked(RelationsFault::Memory)
                | ImportFault::Write
                | ImportFault::Memory
        )
    }
}

impl fmt::Display for ImportFault {
    ghost use Rattle.std.specs.Prelude.{Some};
    ghost use Rattle.trace_import.specs.Faults.{import_text};

    ghost output = { λ fault. Some (import_text fault) };

    fn fmt<W: fmt::Write>(&self, f: &mut fmt::Formatter<W>) -> fmt::Result {
        match self {
            ImportFault::Refused(fault) => write!(f, "{fault}"),
            ImportFault::Unticked(fault) => write!(f, "{fault}"),
            ImportFault::TooManyStages => f.write_str("refused 85 TooManyStages"),
            ImportFault::TooLong => f.write_str("refused 72 TooLong"),
            ImportFault::Write => f.write_str("refused 40 WriteFault"),
            ImportFault::Memory => f.write_str("refused 90 Memory"),
        }
    }
}

impl From<AllocError> for ImportFault {
    ghost use Rattle.std.specs.Prelude.{◌≡◌};
    ghost use Rattle.trace_import.specs.declared.fault.ImportFault.TheVariants.{Memory};

    ghost from_gives = { λ _ fault. fault ≡ Memory };

    fn from(_: AllocError) -> ImportFault {
        ImportFault::Memory
    }
}

impl From<WriteFault> for ImportFault {
    ghost use Rattle.std.specs.Prelude.{◌≡◌};
    ghost use Rattle.trace_import.specs.declared.fault.ImportFault.TheVariants.{Write};

    ghost from_gives = { λ _ fault. fault ≡ Write };

    fn from(_: WriteFault) -> ImportFault {
        ImportFault::Write
    }
}

impl From<Fault> for ImportFault {
    ghost use Rattle.std.specs.Prelude.{◌≡◌};
    ghost use Rattle.trace_import.specs.declared.fault.ImportFault.TheVariants.{Refused};

    ghost from_gives = { λ refused fault. fault ≡ Refused refused };

    fn from(fault: Fault) -> ImportFault {
        ImportFault::Refused(fault)
    }
}

impl From<RelationsFault> for ImportFault {
    ghost use Rattle.std.specs.Prelude.{◌≡◌};
    ghost use Rattle.trace_import.specs.declared.fault.ImportFault.TheVariants.{Unticked};

    ghost from_gives = { λ unticked fault. fault ≡ Unticked unticked };

    fn from(fault: RelationsFault) -> ImportFault {
        ImportFault::Unticked(fault)
    }
}
