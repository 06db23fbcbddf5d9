//! The spans of traces.
ghost use Rattle.std.specs.Prelude.{◌++◌, Ok, option_map};
ghost use Rattle.trace_spans.specs.Jaeger.{spans_of_items, spans_of_trace};
ghost use Rattle.trace_spans.specs.Members.{then_on};
ghost use Rattle.trace_spans.specs.Reads.{IsReadAs};

use crate::fault::Fault;
use crate::jaeger::processes::Processes;
use crate::jaeger::span::read_span;
use crate::member::Member;
use crate::object::{item_object, items_or_none};
use crate::span::Spans;
use json_trees::{Items, Tree};
use std::alloc::Global;

/// Adds the spans of a trace with these processes to those before them.
fn add_spans(
    alloc: Global,
    processes: Option<&Processes<'_, '_>>,
    mut items: Items<'_, '_>,
    spans: &mut Spans,
) -> Result<(), Fault>
    ensures { IsReadAs (λ _. spans.new) result (then_on (spans_of_items (option_map (λ p. p.now) processes.entry) items.entry) (λ more. Ok (spans.old ++ more))) }
{
    while let Some(item) = items.next() {
        let span = read_span(alloc, processes, &item)?;
        spans.push(span)?;
    }
    Ok(())
}

/// Adds the spans of a trace to those before them.
#[tactic(auto, unfolding(crate::specs::Jaeger::spans_of_trace))]
pub(crate) fn add_trace(alloc: Global, trace: &Tree<'_, '_>, spans: &mut Spans) -> Result<(), Fault>
    ensures { IsReadAs (λ _. spans.new) result (then_on (spans_of_trace trace.now) (λ more. Ok (spans.old ++ more))) }
{
    item_object(trace, Member::Data)?;
    let processes = Processes::of_trace(alloc, trace)?;
    let items = items_or_none(trace, Member::Spans)?;
    add_spans(alloc, processes.as_ref(), items, spans)
}
