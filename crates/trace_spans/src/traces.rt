//! All traces of a file.
ghost use Rattle.std.specs.Prelude.{◌≡◌, List, [], ◌∷◌, ◌++◌, map, IfOk, OnOk, Some, false};
ghost use Rattle.trace_spans.specs.declared.span.Span.{Span};
ghost use Rattle.trace_spans.specs.Groups.{AreGroups, place_in, trace_of};
ghost use Rattle.trace_spans.specs.Reads.{IsReadAs};
ghost use Rattle.trace_spans.specs.Traces.{ids_of, spans_in, traces_of, traces_of_bytes, with_id};

use crate::choice::spans_of_trace;
use crate::fault::Fault;
use crate::span::{Span, Spans};
use crate::text::Text;
use crate::told::Told;
use crate::trace::{Trace, read_told};
use std::alloc::{AllocError, Global};
use std::collections::HashMap;

/// The spans of a trace, repeats too.
#[derive(Drop)]
struct Group {
    trace: Text,
    spans: Spans,
}

/// Spans by their traces, in the order of the first ones.
#[derive(Drop)]
struct Groups {
    groups: Vec<Group>,
    /// The place of each trace, by its id.
    places: HashMap<String, usize>,
}

impl Groups {
    /// No spans.
    fn new(alloc: Global) -> Groups
        ensures { AreGroups result [] [] }
    {
        Groups {
            groups: Vec::new(alloc),
            places: HashMap::new(alloc),
        }
    }

    /// The place of a trace; one that isn't there yet gets the next.
    fn place_of(&mut self, alloc: Global, trace: &str) -> Result<usize, AllocError>
        ensures { (spans : List Span) → AreGroups self.old (ids_of spans) spans → IfOk result (λ place. AreGroups self.new (with_id (ids_of spans) trace.now) spans × (place_in (with_id (ids_of spans) trace.now) trace.now ≡ Some place)) }
    {
        let id = String::from_str(alloc, trace)?;
        if let Some(place) = self.places.get(&id) {
            return Ok(*place);
        }
        let place = self.groups.len();
        self.groups.push(Group {
            trace: Text::new(alloc, trace)?,
            spans: Spans::new(alloc),
        })?;
        self.places.insert(id, place)?;
        Ok(place)
    }

    /// Adds a span to those of its trace.
    fn add(&mut self, alloc: Global, span: Span) -> Result<(), AllocError>
        ensures { (spans : List Span) → AreGroups self.old (ids_of spans) spans → OnOk result (AreGroups self.new (ids_of (spans ++ span ∷ [])) (spans ++ span ∷ [])) }
    {
        let place = self.place_of(alloc, span.trace.as_str())?;
        match self.groups.get_mut(place) {
            Some(group) => {
                group.spans.push(span)?;
                Ok(())
            }
            None => Ok(()),
        }
    }
}

/// The spans of a file by their traces.
fn grouped(alloc: Global, spans: Spans) -> Result<Groups, AllocError>
    ensures { IfOk result (λ groups. AreGroups groups (ids_of spans) spans) }
{
    let mut groups = Groups::new(alloc);
    for span in spans.into_vec() {
        groups.add(alloc, span)?;
    }
    Ok(groups)
}

/// Adds the trace of a group at the end.
fn add_trace(
    alloc: Global,
    traces: &mut Vec<Trace>,
    group: Group,
    is_cut: bool,
) -> Result<(), AllocError>
    ensures { OnOk result (traces.new.items ≡ traces.old.items ++ trace_of is_cut group ∷ []) }
{
    let Group { trace, spans } = group;
    let spans = spans_of_trace(alloc, &trace, spans)?;
    traces.push(Trace {
        id: trace,
        spans,
        is_cut,
    })?;
    Ok(())
}

/// The traces of groups.
fn counted(alloc: Global, groups: Vec<Group>, is_cut: bool) -> Result<Vec<Trace>, AllocError>
    ensures { IfOk result (λ traces. traces.items ≡ map (trace_of is_cut) groups.items) }
{
    let mut traces = Vec::new(alloc);
    for group in groups {
        add_trace(alloc, &mut traces, group, is_cut)?;
    }
    Ok(traces)
}

/// The traces that spans are of.
fn traces_of(alloc: Global, told: Told) -> Result<Vec<Trace>, AllocError>
    ensures { IfOk result (λ traces. traces.items ≡ traces_of told) }
{
    let Told { spans, is_cut } = told;
    let groups = grouped(alloc, spans)?;
    let traces = counted(alloc, groups.groups, is_cut)?;
    Ok(traces)
}

/// All traces of a file, in the order of their first spans, each with its spans but for repeats.
#[tactic(auto, unfolding(crate::specs::Traces::traces_of_bytes))]
pub fn read_traces(alloc: Global, bytes: &[u8]) -> Result<Vec<Trace>, Fault>
    ensures { IsReadAs (λ traces. traces.items) result (traces_of_bytes bytes.now) }
{
    let told = read_told(alloc, bytes)?;
    let traces = traces_of(alloc, told)?;
    if traces.is_empty() {
        return Err(Fault::NoTrace);
    }
    Ok(traces)
}

/// The traces whose spans were read in parts: in the order of their first spans, each with the spans of all its parts in their order, but
/// for repeats. Their file is told whole.
pub fn joined_traces(alloc: Global, parts: Vec<Trace>) -> Result<Vec<Trace>, AllocError>
    ensures { IfOk result (λ traces. traces.items ≡ traces_of (record { spans = spans_in parts.items; is_cut = false })) }
{
    let mut spans = Spans::new(alloc);
    for part in parts {
        spans.append(part.spans)?;
    }
    let told = Told {
        spans,
        is_cut: false,
    };
    let traces = traces_of(alloc, told)?;
    Ok(traces)
}
