//! The text of a picture.
ghost use Rattle.std.specs.Prelude.{◌≡◌, ◌≤◌, IfOk, IfSome, length, option_copied, string_bytes};
ghost use Rattle.stage_graph.specs.Plain.{IsLive};
ghost use Rattle.recording_pictures.specs.Pictures.{IsFound, IsMade, IsMadeOf, IsShown, IsShownOf, labels_of, room_of};
ghost use Rattle.recording_pictures.specs.Told.{plain_told};

use crate::asked::{Asked, Form, Layout};
use recording::{Fault, Told, read_labelled};
use recording_reports::RecordingFault;
use stage_graph::{Graph, Representation};
use std::alloc::{AllocError, Global};
use std::mem::forget;
use timeline_svg::{Window, timeline_svg};
use timeline_trace::{Labels, Tick, timeline_trace};
use version_rows::{Drawing, LeftOut, Room, Source, drawing_of};
use version_store::{QueryFault, StateRepresentation, Version};

/// A picture as it is written.
#[derive(Drop)]
pub(crate) struct Written {
    pub(crate) text: String,
    pub(crate) left_out: LeftOut,
}

/// What the rows of a form are for.
fn room_of(form: Form, by_service: bool) -> Room
    ensures { result ≡ room_of form by_service }
{
    match form {
        Form::Svg if by_service => Room::Services,
        Form::Svg => Room::Picture,
        Form::TraceEvents => Room::Events,
    }
}

/// What trace events tell of their rows.
fn labels_of(told: &Told, by_service: bool) -> Labels
    ensures { result ≡ labels_of (plain_told told.now) by_service }
{
    Labels {
        tick: Tick::named(told.unit.as_str()),
        has_services: told.is_imported || by_service,
        deadline: told.deadline,
    }
}

/// The text of what is drawn.
fn drawn(
    alloc: Global,
    form: Form,
    window: Window,
    labels: Labels,
    drawing: &Drawing,
) -> Result<String, AllocError>
    requires { length drawing.now.rows.items ≤ 65536 }
    ensures { IfOk result (λ text. IsShown form window labels drawing.now (string_bytes text)) }
{
    let rows = drawing.rows.as_slice();
    let path = drawing.path.as_slice();
    match form {
        Form::Svg => timeline_svg(alloc, &drawing.heading, window, rows, path),
        Form::TraceEvents => timeline_trace(
            alloc,
            labels,
            drawing.heading.title.as_str(),
            rows,
            path,
        ),
    }
}

/// The place of the stage of a name, where one is given.
fn target_of<R: Representation>(
    graph: &Graph<R>,
    name: Option<&str>,
) -> Result<Option<u32>, RecordingFault>
    ensures { IsFound graph.now (option_copied name.entry) result }
{
    let Some(name) = name else {
        return Ok(None);
    };
    match graph.id_of(name) {
        Some(place) => Ok(Some(place)),
        None => Err(RecordingFault::NoStage),
    }
}

/// A version's picture, with the path of the stage at a place, if there is one; it stands in the graph.
fn target_text<R: StateRepresentation>(
    alloc: Global,
    version: &Version<R>,
    told: &Told,
    file: Option<&str>,
    layout: Layout,
    target: Option<u32>,
) -> Result<Written, AllocError>
    requires { IfSome target (λ place. IsLive version.now.graph.places place) }
    ensures { IfOk result (λ written. IsShownOf version.now (plain_told told.now) (option_copied file.entry) layout target (string_bytes written.text) written.left_out) }
{
    let Layout {
        form,
        by_service,
        selection,
    } = layout;
    let source = Source {
        file,
        unit: told.unit.as_str(),
        deadline: told.deadline,
    };
    let room = room_of(form, by_service);
    match drawing_of(alloc, version, source, room, selection, target) {
        Ok(drawing) => {
            let labels = labels_of(told, by_service);
            let text = drawn(alloc, form, selection.window, labels, &drawing)?;
            Ok(Written {
                text,
                left_out: drawing.left_out,
            })
        }
        Err(QueryFault::Memory) => Err(AllocError),
        Err(QueryFault::NoStage) => unreachable!(),
    }
}

/// The picture of a version of a recording of which this is told.
pub(crate) fn version_text<R: StateRepresentation>(
    alloc: Global,
    version: &Version<R>,
    told: &Told,
    asked: Asked<'_>,
) -> Result<Written, RecordingFault>
    ensures { IsMadeOf version.now (plain_told told.now) (option_copied asked.entry.file) asked.entry.layout (option_copied asked.entry.stage) result }
{
    let target = target_of(version.graph(), asked.stage)?;
    match target_text(alloc, version, told, asked.file, asked.layout, target) {
        Ok(written) => Ok(written),
        Err(_) => Err(RecordingFault::Memory),
    }
}

/// The picture of a recording.
pub(crate) fn recording_text<R: StateRepresentation>(
    alloc: Global,
    recording: &[u8],
    asked: Asked<'_>,
) -> Result<Written, RecordingFault>
    ensures { IsMade recording.now (option_copied asked.entry.file) asked.entry.layout (option_copied asked.entry.stage) result }
{
    let (graph, told): (Graph<R>, Told) = match read_labelled(alloc, recording) {
        Ok(read) => read,
        Err(fault) => return Err(RecordingFault::Refused(fault)),
    };
    let Ok(version) = Version::load(alloc, graph) else {
        return Err(RecordingFault::Refused(Fault::Memory));
    };
    let written = version_text(alloc, &version, &told, asked);
    forget(version);
    written
}
