//! The page.
ghost use Rattle.std.specs.Prelude.{◌≡◌, ◌+◌, ◌-◌, ◌^◌, ◌<◌, IfSome, OnOk, OnErr};
ghost use Rattle.std.specs.Io.KnownBytes.{Appends};
ghost use Rattle.stage_graph.specs.Plain.{IsLive};
ghost use Rattle.text_io.specs.Sink.{AppendsPrefix};
ghost use Rattle.text_io.specs.Writes.{Writes, failures_in};
ghost use Rattle.incident_page.specs.Escaped.{HasNoLess, escaped};
ghost use Rattle.incident_page.specs.Pages.{first_data, last_data, page_data, page_of, read_data};

use crate::frame::{Frame, Heading, Script};
use crate::members::write_recording;
use crate::script::{write_script, write_steps, write_versions};
use crate::tables::{write_heading, write_target, write_wholes};
use level_pool::Runner;
use std::alloc::Global;
use text_io::{Sink, Stopped};
use version_store::{StateRepresentation, Version};

/// Writes what was read.
fn write_read<S: Sink>(alloc: Global, heading: Heading<'_>, sink: &mut S) -> Result<(), Stopped>
    requires { S.failures sink.old < 2 ^ 64 - 1 }
    ensures { Writes S.held S.failures sink.old sink.new result (escaped (read_data heading.entry)) }
{
    write_script(alloc, heading.script, sink)?;
    write_recording(heading.recording, sink)
}

/// Writes the data before what a page is about.
fn write_first<R: StateRepresentation, S: Sink>(
    alloc: Global,
    heading: Heading<'_>,
    version: &Version<R>,
    sink: &mut S,
) -> Result<(), Stopped>
    requires { S.failures sink.old < 2 ^ 64 - 1 }
    ensures { Writes S.held S.failures sink.old sink.new result (escaped (first_data heading.entry version.now)) }
{
    write_heading(alloc, heading, sink)?;
    write_read(alloc, heading, sink)?;
    write_wholes(alloc, version, sink)
}

/// Writes the data of what a page is about, and what comes after that.
fn write_last<R: StateRepresentation, W: Runner, S: Sink>(
    alloc: Global,
    script: Option<Script<'_>>,
    version: &Version<R>,
    made: &[Version<R>],
    target: Option<u32>,
    runner: &W,
    sink: &mut S,
) -> Result<(), Stopped>
    requires live { IfSome target (λ place. IsLive version.now.graph.places place) }
    requires room { S.failures sink.old < 2 ^ 64 - 1 }
    ensures { Writes S.held S.failures sink.old sink.new result (escaped (last_data script.entry version.now made.now target)) }
{
    write_target(alloc, version, target, runner, sink)?;
    write_versions(alloc, version, made, sink)?;
    write_steps(alloc, script, sink)
}

/// Writes the data of a page.
fn write_data<R: StateRepresentation, W: Runner, S: Sink>(
    alloc: Global,
    heading: Heading<'_>,
    version: &Version<R>,
    made: &[Version<R>],
    target: Option<u32>,
    runner: &W,
    sink: &mut S,
) -> Result<(), Stopped>
    requires live { IfSome target (λ place. IsLive version.now.graph.places place) }
    requires room { S.failures sink.old < 2 ^ 64 - 1 }
    ensures { Writes S.held S.failures sink.old sink.new result (escaped (page_data heading.entry version.now made.now target)) }
{
    write_first(alloc, heading, version, sink)?;
    write_last(alloc, heading.script, version, made, target, runner, sink)
}

/// Writes a text as it is.
fn write_fixed<S: Sink>(text: &str, sink: &mut S) -> Result<(), Stopped>
    requires { S.failures sink.old < 2 ^ 64 - 1 }
    ensures { Writes S.held S.failures sink.old sink.new result text.now }
{
    sink.write(text.as_bytes())?;
    Ok(())
}

/// Writes the fixed texts, and the data between them.
fn write_in_turn<R: StateRepresentation, W: Runner, S: Sink>(
    alloc: Global,
    frame: Frame<'_>,
    heading: Heading<'_>,
    version: &Version<R>,
    made: &[Version<R>],
    target: Option<u32>,
    runner: &W,
    sink: &mut S,
) -> Result<(), Stopped>
    requires live { IfSome target (λ place. IsLive version.now.graph.places place) }
    requires room { S.failures sink.old < 2 ^ 64 - 1 }
    ensures { Writes S.held S.failures sink.old sink.new result (page_of frame.entry (page_data heading.entry version.now made.now target)) }
{
    write_fixed(frame.head, sink)?;
    write_data(alloc, heading, version, made, target, runner, sink)?;
    write_fixed(frame.tail, sink)
}

/// Writes the page of a version: the recording, what is told of all stages, and where the page is about a stage what is told of
/// it, as one JSON object between the fixed texts. Where a script was played, it has that, what its steps were answered, and of each
/// version that was made what is not as it was in its parent. In the object each `<` is written by its escape, so that none is left.
/// A report is held in memory until it is written.
///
/// Errors: `Write` where a write failed or took nothing; `Memory`. Then a prefix was written.
pub fn write_page<R: StateRepresentation, W: Runner, S: Sink>(
    alloc: Global,
    frame: Frame<'_>,
    heading: Heading<'_>,
    version: &Version<R>,
    made: &[Version<R>],
    target: Option<u32>,
    runner: &W,
    sink: &mut S,
) -> Result<(), Stopped>
    requires live { IfSome target (λ place. IsLive version.now.graph.places place) }
    requires room { S.failures sink.old < 2 ^ 64 - 1 }
    ensures ok { OnOk result (Appends (S.held sink.old) (S.held sink.new) (page_of frame.entry (page_data heading.entry version.now made.now target))) }
    ensures err { OnErr result (AppendsPrefix (S.held sink.old) (S.held sink.new) (page_of frame.entry (page_data heading.entry version.now made.now target))) }
    ensures failures { S.failures sink.new ≡ S.failures sink.old + failures_in result }
    ensures contained { HasNoLess (escaped (page_data heading.entry version.now made.now target)) }
{
    write_in_turn(alloc, frame, heading, version, made, target, runner, sink)
}
