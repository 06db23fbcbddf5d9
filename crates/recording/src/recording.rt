//! Recordings: stages as JSON, and the graph that they make.
//!
//! The bytes are checked in this order: their number, whether they are JSON, the members of the recording and of each
//! stage in turn, the checks of the graph stage by stage, and last of all its cycles.
ghost use Rattle.std.specs.Prelude.{◌≡◌, IfOk, string_bytes};
ghost use Rattle.recording.specs.Labels.{deadline_label, graph_read, is_imported, unit_label};
ghost use Rattle.recording.specs.RecordingOf.{form_in, mode_in, stage_of, stages_member, recording_of, recorded, graph_of, named};
ghost use Rattle.recording.specs.Reads.{IsRead, IsReadAs, IsNamed};

use crate::from_json::FromJson;
use crate::items::item_count;
use crate::labels::{Told, told_in};
use crate::object::optional;
use crate::parse::read_json;
use crate::stage::{FormNumber, read_spec};
use crate::unread::Unread;
use crate::{Fault, Member};
use act_expr::Mode;
use json::Scratch;
use json_trees::Tree;
use stage_graph::{Graph, Representation, Spec, Specs};
use std::alloc::Global;

/// The most bytes that a recording may have.
const LONGEST: usize = 67_108_864;

/// The stages of a recording, and its wrap mode.
#[derive(Drop)]
pub(crate) struct Recording {
    pub mode: Mode,
    pub stages: Specs,
}

/// The form of the stages' times: 1 or 2.
impl FromJson for FormNumber {
    ghost form = { form_in };

    fn from_json(_: Global, value: &Tree<'_, '_>) -> Result<FormNumber, Unread> {
        match value.as_i64() {
            Some(1) => Ok(FormNumber::One),
            Some(2) => Ok(FormNumber::Two),
            _ => Err(Unread::Shape),
        }
    }
}

/// The wrap mode.
impl FromJson for Mode {
    ghost form = { mode_in };

    fn from_json(_: Global, value: &Tree<'_, '_>) -> Result<Mode, Unread> {
        match value.as_str() {
            Some("computed") => Ok(Mode::Computed),
            Some("literal") => Ok(Mode::Literal),
            _ => Err(Unread::Shape),
        }
    }
}

/// An element of `stages`.
fn read_stage(alloc: Global, form: FormNumber, value: &Tree<'_, '_>) -> Result<Spec, Fault>
    ensures { IsRead result (stage_of form value.now) }
{
    if !value.is_object() {
        return Err(Fault::Shape(Member::Stages));
    }
    read_spec(alloc, form, value)
}

/// The stages, in order.
#[tactic(auto, unfolding(crate::specs::RecordingOf::stages_member))]
fn read_stages(alloc: Global, form: FormNumber, object: &Tree<'_, '_>) -> Result<Specs, Fault>
    ensures { IsRead result (stages_member form object.now) }
{
    let Some(value) = object.get(Member::Stages.text()) else {
        return Err(Fault::Shape(Member::Stages));
    };
    let Some(mut items) = value.as_array() else {
        return Err(Fault::Shape(Member::Stages));
    };
    let mut stages = Specs::with_capacity(alloc, item_count(&value))?;
    while let Some(item) = items.next() {
        let stage = read_stage(alloc, form, &item)?;
        stages.push(stage)?;
    }
    Ok(stages)
}

/// The recording that a JSON value is.
fn read_value(alloc: Global, value: &Tree<'_, '_>) -> Result<Recording, Fault>
    ensures { IsRead result (recording_of value.now) }
{
    if !value.is_object() {
        return Err(Fault::Shape(Member::Recording));
    }
    let form = optional(alloc, value, Member::Form, FormNumber::One)?;
    let mode = optional(alloc, value, Member::Wrap, Mode::Computed)?;
    let stages = read_stages(alloc, form, value)?;
    Ok(Recording { mode, stages })
}

/// The recording that bytes are, and what its labels tell.
fn read_told(alloc: Global, bytes: &[u8]) -> Result<(Recording, Told), Fault>
    ensures recording { IsReadAs (λ read. read.0) result (recorded bytes.now) }
    ensures unit { IfOk result (λ read. string_bytes read.1.unit ≡ unit_label bytes.now) }
    ensures imported { IfOk result (λ read. read.1.is_imported ≡ is_imported bytes.now) }
    ensures deadline { IfOk result (λ read. read.1.deadline ≡ deadline_label bytes.now) }
{
    if bytes.len() > LONGEST {
        return Err(Fault::TooLong);
    }
    let mut room = Scratch::new(alloc);
    let document = read_json(alloc, bytes, &mut room)?;
    let root = document.root();
    let recording = read_value(alloc, &root)?;
    let told = told_in(alloc, &root)?;
    Ok((recording, told))
}

/// The graph that recorded stages make.
fn load<R: Representation>(alloc: Global, recording: &Recording) -> Result<Graph<R>, Fault>
    ensures { IsNamed result (graph_of recording.now) }
{
    match Graph::load(alloc, recording.mode, &recording.stages) {
        Ok(graph) => Ok(graph),
        Err(stage_graph::Fault::Refused(refused)) => Err(Fault::Refused(refused)),
        Err(stage_graph::Fault::Cycle(path)) => Err(Fault::Cycle(path)),
        Err(stage_graph::Fault::Memory) => Err(Fault::Memory),
    }
}

/// The graph of a recording in these bytes, and what its labels tell; or the first fault in them.
///
/// Time and memory grow with the number of bytes and, for at most 65,536 stages, with that of their feeds.
pub fn read_labelled<R: Representation>(
    alloc: Global,
    bytes: &[u8],
) -> Result<(Graph<R>, Told), Fault>
    ensures graph { IsNamed (graph_read result) (named bytes.now) }
    ensures unit { IfOk result (λ read. string_bytes read.1.unit ≡ unit_label bytes.now) }
    ensures imported { IfOk result (λ read. read.1.is_imported ≡ is_imported bytes.now) }
    ensures deadline { IfOk result (λ read. read.1.deadline ≡ deadline_label bytes.now) }
{
    let (recording, told) = read_told(alloc, bytes)?;
    let graph = load(alloc, &recording)?;
    Ok((graph, told))
}

/// The graph of a recording in these bytes, or the first fault in them, in the time and memory that `read_labelled` takes.
pub fn read_recording<R: Representation>(alloc: Global, bytes: &[u8]) -> Result<Graph<R>, Fault>
    ensures { IsNamed result (named bytes.now) }
{
    let (graph, _) = read_labelled(alloc, bytes)?;
    Ok(graph)
}
