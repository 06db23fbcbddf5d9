//! OTLP's metrics and logs.
ghost use Rattle.std.specs.Prelude.{◌≡◌, ◌||◌};
ghost use Rattle.trace_spans.specs.Members.{has};

use crate::fault::Fault;
use crate::format::Format;
use crate::member::Member;
use crate::object::has;
use crate::span::Spans;
use json_trees::Tree;
use std::alloc::Global;

/// Whether a text has metrics or logs.
fn has_signals(text: &Tree<'_, '_>) -> bool
    ensures { result ≡ (has Member.ResourceMetrics text.now || has Member.ResourceLogs text.now) }
{
    has(text, Member::ResourceMetrics) || has(text, Member::ResourceLogs)
}

/// Metrics and logs, which have no spans.
pub(crate) struct OtherSignals;

impl Format for OtherSignals {
    ghost use Rattle.trace_spans.specs.Otlp.{other_signals_told};

    ghost told = { other_signals_told };

    #[tactic(auto, unfolding(crate::specs::Otlp::other_signals_told))]
    fn add_spans(_alloc: Global, text: &Tree<'_, '_>, _spans: &mut Spans) -> Result<bool, Fault> {
        Ok(has_signals(text))
    }
}
