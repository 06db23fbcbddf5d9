//! Graphs, orders, answers, versions and faults as texts, so that they can be compared.
use crate::told::Told;
use rank_order::{Order, OrderRepresentation};
use recording_text::write_recording;
use scratch_eval::{Answers, QueryFault};
use stage_graph::{Edits, Fault, Graph, Places, Representation};
use std::alloc::Global;
use text_io::CountedWriter;
use version_store::{StateRepresentation, Version};

/// The most places of a graph of the cases.
const MOST_PLACES: u32 = 200;

/// Tells a graph, as a recording.
pub(crate) fn push_graph<R: Representation>(alloc: Global, text: &mut Told, graph: &Graph<R>) {
    let mut sink = CountedWriter::new(Vec::new(alloc));
    let is_told = write_recording(alloc, graph, &mut sink).is_ok();
    text.push_bytes(sink.into_inner().as_slice());
    text.keep(is_told);
}

/// Tells the ranks and dependents of the places.
pub(crate) fn push_order<R: OrderRepresentation>(text: &mut Told, order: &Order<R>) {
    for place in 0..MOST_PLACES {
        if let (Ok(rank), Ok(dependents)) = (order.rank(place), order.dependents(place)) {
            text.push_number(place);
            text.push_number(rank);
            text.push_numbers(dependents);
        }
    }
}

/// Tells the states and ranks of the places.
pub(crate) fn push_answers(text: &mut Told, answers: &Answers) {
    for place in 0..MOST_PLACES {
        if let (Ok(state), Ok(rank)) = (answers.state(place), answers.rank(place)) {
            text.push_state(place, rank, &state);
        }
    }
}

/// Tells the states and ranks of a version's stages.
fn push_stages<R: StateRepresentation>(text: &mut Told, version: &Version<R>) {
    for place in 0..MOST_PLACES {
        if let (Ok(state), Ok(rank)) = (version.state(place), version.rank(place)) {
            text.push_state(place, rank, &state);
        }
    }
}

/// Tells a version: its number, what its edits touched, its stages and its graph.
pub(crate) fn push_version<R: StateRepresentation>(
    alloc: Global,
    text: &mut Told,
    version: &Version<R>,
) {
    text.push_number(version.number());
    text.push_numbers(version.touched());
    push_stages(text, version);
    push_graph(alloc, text, version.graph());
}

/// Tells places, or why there are none.
pub(crate) fn push_places(text: &mut Told, answer: &Result<Places, QueryFault>) -> bool {
    match answer {
        Ok(places) => text.push_numbers(places.as_slice()),
        Err(QueryFault::NoStage) => text.push("refused 10 NoStage"),
        Err(QueryFault::Memory) => return true,
    }
    false
}

/// Tells the names of edits.
pub(crate) fn push_edits(text: &mut Told, edits: &Edits) {
    for edit in edits.as_slice() {
        text.push(edit.name().as_str());
        text.push(" ");
    }
}

/// Tells why a graph wasn't made, and whether it is that memory ran out.
pub(crate) fn push_fault(text: &mut Told, fault: &Fault) -> bool {
    match fault {
        Fault::Memory => return true,
        Fault::Cycle(path) => text.push_numbers(path.as_slice()),
        Fault::Refused(_) => text.push(fault.text()),
    }
    false
}

/// Tells a graph that was made, or why it wasn't.
pub(crate) fn push_made<R: Representation>(
    alloc: Global,
    text: &mut Told,
    made: &Result<Graph<R>, Fault>,
) -> bool {
    match made {
        Ok(graph) => push_graph(alloc, text, graph),
        Err(fault) => return push_fault(text, fault),
    }
    false
}
