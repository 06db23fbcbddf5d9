//! The picture of a recording, written.
ghost use Rattle.std.specs.Prelude.{◌≡◌, ◌+◌, ◌-◌, ◌^◌, ◌<◌, option_copied};
ghost use Rattle.recording_pictures.specs.Drawn.{IsDrawn, IsDrawnOf, IsPut, failed_writes};
ghost use Rattle.recording_pictures.specs.Told.{plain_told};

use crate::asked::Asked;
use crate::text::{Written, recording_text, version_text};
use recording::Told;
use recording_reports::RecordingFault;
use std::alloc::Global;
use text_io::Sink;
use version_rows::LeftOut;
use version_store::{StateRepresentation, Version};

/// Writes the picture of version 0 of a recording: a row for each stage that is asked for, of an SVG file 200 at most and of
/// trace events 2,000, and over them the path of the stage, where one is named. What is left out is answered. The version is left to the system, as by `report_all` of `recording_reports`.
pub fn draw_recording<R: StateRepresentation, S: Sink>(
    alloc: Global,
    recording: &[u8],
    asked: Asked<'_>,
    sink: &mut S,
) -> Result<LeftOut, RecordingFault>
    requires { S.failures sink.old < 2 ^ 64 - 1 }
    ensures written { IsDrawn recording.now (option_copied asked.entry.file) asked.entry.layout (option_copied asked.entry.stage) (S.held sink.old) (S.held sink.new) result }
    ensures failures { S.failures sink.new ≡ S.failures sink.old + failed_writes result }
{
    let written = recording_text::<R>(alloc, recording, asked)?;
    put(&written, sink)
}

/// Writes the picture of a version of a recording of which this is told, as `draw_recording` does that of version 0. It can't be refused.
pub fn draw_version<R: StateRepresentation, S: Sink>(
    alloc: Global,
    version: &Version<R>,
    told: &Told,
    asked: Asked<'_>,
    sink: &mut S,
) -> Result<LeftOut, RecordingFault>
    requires { S.failures sink.old < 2 ^ 64 - 1 }
    ensures written { IsDrawnOf version.now (plain_told told.now) (option_copied asked.entry.file) asked.entry.layout (option_copied asked.entry.stage) (S.held sink.old) (S.held sink.new) result }
    ensures failures { S.failures sink.new ≡ S.failures sink.old + failed_writes result }
{
    let written = version_text(alloc, version, told, asked)?;
    put(&written, sink)
}

fn put<S: Sink>(written: &Written, sink: &mut S) -> Result<LeftOut, RecordingFault>
    requires { S.failures sink.old < 2 ^ 64 - 1 }
    ensures put { IsPut written.now (S.held sink.old) (S.held sink.new) result }
    ensures failures { S.failures sink.new ≡ S.failures sink.old + failed_writes result }
{
    match sink.write(written.text.as_bytes()) {
        Ok(()) => Ok(written.left_out),
        Err(_) => Err(RecordingFault::Write),
    }
}
