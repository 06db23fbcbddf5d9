//! The laws of the graphs that a program holds: whatever they ask of a graph, its type gives.
ghost use Rattle.std.specs.Prelude.{◌≡◌, ◌≤◌, length, IfOk, Ok};
ghost use Rattle.stage_graph.specs.Walk.{IsRanked};
ghost use Rattle.recording.specs.RecordingOf.{longest, named};
ghost use Rattle.recording_text.specs.Texts.{recording_text};
ghost use Rattle.recording_back.specs.Accepted.{IsAccepted};
ghost use Rattle.recording_back.specs.Packed.{HasItsTokens, without_empty};

use crate::typed::{count_is_typed, stages_are_typed};
use recording::{Fault, read_recording};
use stage_graph::{Graph, Representation};
use std::alloc::{AllocError, Global};

/// The graph, without its empty places, is what is read from its text, unless that is too long. The body only looks at the
/// graph.
pub fn graph_is_read_back<R: Representation>(graph: &Graph<R>)
    ensures { length (recording_text graph.now) ≤ longest → named (recording_text graph.now) ≡ Ok (without_empty graph.now) }
{
    let _places = graph.len();
    stages_are_typed(graph);
}

/// The text of a graph without a cycle is accepted as that graph, without its empty places, unless the text is too long:
/// whatever `read_recording` answers to it is that graph, or that memory ran out. The body only looks at the graph.
pub fn graph_is_accepted<R: Representation>(graph: &Graph<R>)
    requires { IsRanked graph.now.places }
    ensures { length (recording_text graph.now) ≤ longest → IsAccepted (recording_text graph.now) (without_empty graph.now) }
{
    let _places = graph.len();
    stages_are_typed(graph);
}

/// Reads what was written of a graph without a cycle: it is that graph, without its empty places. Only memory can run out.
pub fn read_written<R: Representation>(
    alloc: Global,
    graph: &Graph<R>,
    written: &[u8],
) -> Result<Graph<R>, AllocError>
    requires ranked { IsRanked graph.now.places }
    requires written { written.now ≡ recording_text graph.now }
    requires short { length (recording_text graph.now) ≤ longest }
    ensures { IfOk result (λ read. read ≡ without_empty graph.now) }
{
    graph_is_accepted(graph);
    match read_recording(alloc, written) {
        Ok(read) => Ok(read),
        Err(Fault::Memory) => Err(AllocError),
        Err(_) => unreachable!(),
    }
}

/// The answer that has the graph as a recording has the tokens of its JSON. The body only looks at the graph.
pub fn object_has_its_tokens<R: Representation>(
    graph: &Graph<R>,
    number: u32,
    answered: Option<u64>,
)
    ensures { HasItsTokens answered number graph.now }
{
    let _places = graph.len();
    stages_are_typed(graph);
    count_is_typed(&answered);
}
