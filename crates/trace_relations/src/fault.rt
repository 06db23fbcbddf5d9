//! Why a trace has no ticks.
ghost use Rattle.std.specs.Prelude.{◌≡◌};
ghost use Rattle.trace_relations.specs.FaultNumbers.{fault_number};

use std::alloc::{AllocError, Global};
use std::fmt;
use thiserror::Error;
use trace_spans::{Span, Text};

/// What names a span to people.
#[derive(Drop, Debug)]
pub struct SpanName {
    pub id: Text,
    pub name: Text,
}

impl SpanName {
    ghost use Rattle.std.specs.Prelude.{IfOk};
    ghost use Rattle.trace_relations.specs.SpanNames.{name_of};

    /// What names a span.
    pub(crate) fn of(alloc: Global, span: &Span) -> Result<SpanName, AllocError>
        ensures { IfOk result (λ name. name ≡ name_of span.now) }
    {
        Ok(SpanName {
            id: Text::new(alloc, span.id.as_str())?,
            name: Text::new(alloc, span.name.as_str())?,
        })
    }
}

/// A span that is too late, and the one that is first.
#[derive(Drop, Debug)]
pub struct Late {
    pub span: SpanName,
    pub first: SpanName,
}

/// Why a trace has no ticks.
#[derive(Drop, Debug, Error)]
pub enum RelationsFault {
    /// Neither the start nor the end of the span is known.
    NoTime(SpanName),
    /// A tick of the span is above 2^40.
    TooLate(Late),
    /// There are more than 65,536 spans, and so as many stages.
    TooManyStages,
    /// An allocation failed.
    Memory,
}

impl RelationsFault {
    /// The number by which the fault is printed.
    pub fn number(&self) -> u32
        ensures { result ≡ fault_number self.now }
    {
        match self {
            RelationsFault::NoTime(_) => 83,
            RelationsFault::TooLate(_) => 84,
            RelationsFault::TooManyStages => 85,
            RelationsFault::Memory => 90,
        }
    }
}

impl fmt::Display for RelationsFault {
    ghost use Rattle.std.specs.Prelude.{Some};
    ghost use Rattle.trace_relations.specs.FaultTexts.{fault_text};

    ghost output = { λ fault. Some (fault_text fault) };

    fn fmt<W: fmt::Write>(&self, f: &mut fmt::Formatter<W>) -> fmt::Result {
        match self {
            RelationsFault::NoTime(span) => {
                f.write_str("refused 83 NoTime ")?;
                f.write_str(span.id.as_str())
            }
            RelationsFault::TooLate(late) => {
                f.write_str("refused 84 TooLate ")?;
                f.write_str(late.span.id.as_str())
            }
            RelationsFault::TooManyStages => f.write_str("refused 85 TooManyStages"),
            RelationsFault::Memory => f.write_str("refused 90 Memory"),
        }
    }
}

impl From<AllocError> for RelationsFault {
    ghost use Rattle.std.specs.Prelude.{◌≡◌};
    ghost use Rattle.trace_relations.specs.declared.fault.RelationsFault.TheVariants.{Memory};

    ghost from_gives = { λ _ fault. fault ≡ Memory };

    fn from(_: AllocError) -> RelationsFault {
        RelationsFault::Memory
    }
}
