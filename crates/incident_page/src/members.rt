//! Members of the data, each written escaped behind what comes before it.
ghost use Rattle.std.specs.Prelude.{◌++◌, ◌-◌, ◌^◌, ◌<◌};
ghost use Rattle.stage_graph.specs.Plain.{IsLive};
ghost use Rattle.text_io.specs.Writes.{Writes};
ghost use Rattle.incident_page.specs.Data.{stage_lines, text_json, whole_line};
ghost use Rattle.incident_page.specs.Escaped.{escaped};
ghost use Rattle.incident_page.specs.Pages.{explanation_data, name_data, recording_data};

use crate::escape::write_escaped;
use crate::lines::separated;
use crate::told::{stage_lines, text_json, whole_line};
use level_pool::Runner;
use recording_reports::{StageReport, WholeReport};
use stage_graph::{Graph, Representation};
use std::alloc::Global;
use text_io::{Sink, Stopped};
use version_store::{StateRepresentation, Version};

/// Writes a text behind what comes before it.
pub(crate) fn write_behind<S: Sink>(before: &str, text: &[u8], sink: &mut S) -> Result<(), Stopped>
    requires { S.failures sink.old < 2 ^ 64 - 1 }
    ensures { Writes S.held S.failures sink.old sink.new result (escaped (before.now ++ text.now)) }
{
    write_escaped(before.as_bytes(), sink)?;
    write_escaped(text, sink)
}

/// Writes a text as JSON.
pub(crate) fn write_text<S: Sink>(
    alloc: Global,
    before: &str,
    text: &str,
    sink: &mut S,
) -> Result<(), Stopped>
    requires { S.failures sink.old < 2 ^ 64 - 1 }
    ensures { Writes S.held S.failures sink.old sink.new result (escaped (before.now ++ text_json text.now)) }
{
    let json = text_json(alloc, text)?;
    write_behind(before, json.as_slice(), sink)
}

/// Writes the recording as it was read.
pub(crate) fn write_recording<S: Sink>(recording: &[u8], sink: &mut S) -> Result<(), Stopped>
    requires { S.failures sink.old < 2 ^ 64 - 1 }
    ensures { Writes S.held S.failures sink.old sink.new result (escaped (recording_data recording.now)) }
{
    write_behind(",\"recording\":", recording, sink)
}

/// Writes what is told of all stages.
pub(crate) fn write_whole<R: StateRepresentation, S: Sink>(
    alloc: Global,
    before: &str,
    version: &Version<R>,
    asked: WholeReport,
    sink: &mut S,
) -> Result<(), Stopped>
    requires { S.failures sink.old < 2 ^ 64 - 1 }
    ensures { Writes S.held S.failures sink.old sink.new result (escaped (before.now ++ whole_line version.now asked)) }
{
    let line = whole_line(alloc, version, asked)?;
    write_behind(before, line.as_slice(), sink)
}

/// Writes what is told of the stage at a place, where that is one line.
pub(crate) fn write_stage<R: StateRepresentation, W: Runner, S: Sink>(
    alloc: Global,
    before: &str,
    version: &Version<R>,
    place: u32,
    asked: StageReport,
    runner: &W,
    sink: &mut S,
) -> Result<(), Stopped>
    requires live { IsLive version.now.graph.places place }
    requires room { S.failures sink.old < 2 ^ 64 - 1 }
    ensures { Writes S.held S.failures sink.old sink.new result (escaped (before.now ++ stage_lines version.now place asked)) }
{
    let lines = stage_lines(alloc, version, place, asked, runner)?;
    write_behind(before, lines.as_slice(), sink)
}

/// Writes why the stage at a place ended as it did, without the end of the array that the lines are in.
pub(crate) fn write_explanation<R: StateRepresentation, W: Runner, S: Sink>(
    alloc: Global,
    version: &Version<R>,
    place: u32,
    runner: &W,
    sink: &mut S,
) -> Result<(), Stopped>
    requires live { IsLive version.now.graph.places place }
    requires room { S.failures sink.old < 2 ^ 64 - 1 }
    ensures { Writes S.held S.failures sink.old sink.new result (escaped (explanation_data version.now place)) }
{
    let lines = stage_lines(alloc, version, place, StageReport::Explanation, runner)?;
    let items = separated(alloc, lines.as_slice())?;
    write_behind(",\"explain\":[", items.as_slice(), sink)
}

/// Writes the name of the stage at a place.
pub(crate) fn write_name<R: Representation, S: Sink>(
    alloc: Global,
    graph: &Graph<R>,
    place: u32,
    sink: &mut S,
) -> Result<(), Stopped>
    requires { S.failures sink.old < 2 ^ 64 - 1 }
    ensures { Writes S.held S.failures sink.old sink.new result (escaped (name_data place graph.now)) }
{
    write_text(alloc, ",\"stage\":", graph.name_of(place), sink)
}
