//! Formats of traces.
ghost use Rattle.trace_spans.specs.Formats.{added};
ghost use Rattle.trace_spans.specs.Reads.{IsReadAs};

use crate::fault::Fault;
use crate::span::Spans;
use json_trees::Tree;
use std::alloc::Global;

/// A format of traces: which texts are of it, and their spans.
pub(crate) trait Format {
    ghost use Rattle.std.specs.Prelude.{List, Option, Result};
    ghost use Rattle.serde_json.specs.Data.{Data};
    ghost use Rattle.trace_spans.specs.declared.fault.Fault.{Fault};
    ghost use Rattle.trace_spans.specs.declared.span.Span.{Span};

    // the spans of a text that is of the format
    ghost told: { Data → Option (Result (List Span) Fault) };

    /// Adds the spans of a text to those before them, and answers whether it is of the format.
    fn add_spans(alloc: Global, text: &Tree<'_, '_>, spans: &mut Spans) -> Result<bool, Fault>
        ensures { IsReadAs (λ is. (is, spans.new)) result (added (Self.told text.now) spans.old) };
}
