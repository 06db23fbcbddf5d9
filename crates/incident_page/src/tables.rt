//! The parts of the data.
ghost use Rattle.std.specs.Prelude.{◌++◌, ◌-◌, ◌^◌, ◌<◌, IfSome};
ghost use Rattle.stage_graph.specs.Plain.{IsLive};
ghost use Rattle.text_io.specs.Writes.{Writes};
ghost use Rattle.incident_page.specs.Escaped.{escaped};
ghost use Rattle.incident_page.specs.Pages.{explained_data, heading_data, target_data, trial_data, whole_data};

use crate::escape::write_escaped;
use crate::frame::Heading;
use crate::members::{write_explanation, write_name, write_stage, write_text, write_whole};
use act_expr::Value;
use level_pool::Runner;
use recording_reports::{StageReport, WholeReport};
use report_rows::{RescueTerms, SweepAsked};
use std::alloc::Global;
use text_io::{Sink, Stopped};
use version_store::{StateRepresentation, Version};

/// All rescues, by which an exception that did not arise leaves null.
const PLAIN_TERMS: RescueTerms = RescueTerms {
    by: None,
    value: Value::Null,
    most: None,
};

/// What stands for the members of a stage where a page is about none.
const NO_STAGE: &str =
    ",\"stage\":null,\"explain\":null,\"sweep\":null,\"slack\":null,\"rescue\":null";

/// Writes what a page says of itself.
pub(crate) fn write_heading<S: Sink>(
    alloc: Global,
    heading: Heading<'_>,
    sink: &mut S,
) -> Result<(), Stopped>
    requires { S.failures sink.old < 2 ^ 64 - 1 }
    ensures { Writes S.held S.failures sink.old sink.new result (escaped (heading_data heading.entry)) }
{
    write_text(
        alloc,
        "{\"form\":1,\"program\":{\"name\":\"whatif\",\"version\":",
        heading.program,
        sink,
    )?;
    write_text(alloc, "},\"file\":", heading.file, sink)
}

/// Writes what is told of all stages beside their states.
pub(crate) fn write_wholes<R: StateRepresentation, S: Sink>(
    alloc: Global,
    version: &Version<R>,
    sink: &mut S,
) -> Result<(), Stopped>
    requires { S.failures sink.old < 2 ^ 64 - 1 }
    ensures { Writes S.held S.failures sink.old sink.new result (escaped (whole_data version.now)) }
{
    write_whole(alloc, ",\"ends\":", version, WholeReport::Ends, sink)?;
    write_whole(
        alloc,
        ",\"failures\":",
        version,
        WholeReport::Failures,
        sink,
    )
}

/// Writes which stage stands at a place, and why it ended as it did.
fn write_explained<R: StateRepresentation, W: Runner, S: Sink>(
    alloc: Global,
    version: &Version<R>,
    place: u32,
    runner: &W,
    sink: &mut S,
) -> Result<(), Stopped>
    requires live { IsLive version.now.graph.places place }
    requires room { S.failures sink.old < 2 ^ 64 - 1 }
    ensures { Writes S.held S.failures sink.old sink.new result (escaped (explained_data version.now place)) }
{
    write_name(alloc, version.graph(), place, sink)?;
    write_explanation(alloc, version, place, runner, sink)
}

/// Writes what trials of other stages come to for the stage at a place.
fn write_trials<R: StateRepresentation, W: Runner, S: Sink>(
    alloc: Global,
    version: &Version<R>,
    place: u32,
    runner: &W,
    sink: &mut S,
) -> Result<(), Stopped>
    requires live { IsLive version.now.graph.places place }
    requires room { S.failures sink.old < 2 ^ 64 - 1 }
    ensures { Writes S.held S.failures sink.old sink.new result (escaped (trial_data version.now place)) }
{
    let sweep = StageReport::Sweep(SweepAsked::PLAIN);
    write_stage(alloc, "],\"sweep\":", version, place, sweep, runner, sink)?;
    let slack = StageReport::Slack { within: None };
    write_stage(alloc, ",\"slack\":", version, place, slack, runner, sink)?;
    let rescue = StageReport::Rescue(PLAIN_TERMS);
    write_stage(alloc, ",\"rescue\":", version, place, rescue, runner, sink)
}

/// Writes what is told of the stage at a place.
fn write_of_stage<R: StateRepresentation, W: Runner, S: Sink>(
    alloc: Global,
    version: &Version<R>,
    place: u32,
    runner: &W,
    sink: &mut S,
) -> Result<(), Stopped>
    requires live { IsLive version.now.graph.places place }
    requires room { S.failures sink.old < 2 ^ 64 - 1 }
    ensures { Writes S.held S.failures sink.old sink.new result (escaped (explained_data version.now place ++ trial_data version.now place)) }
{
    write_explained(alloc, version, place, runner, sink)?;
    write_trials(alloc, version, place, runner, sink)
}

/// Writes what is told of the stage that a page is about, if it is about one.
pub(crate) fn write_target<R: StateRepresentation, W: Runner, S: Sink>(
    alloc: Global,
    version: &Version<R>,
    target: Option<u32>,
    runner: &W,
    sink: &mut S,
) -> Result<(), Stopped>
    requires live { IfSome target (λ place. IsLive version.now.graph.places place) }
    requires room { S.failures sink.old < 2 ^ 64 - 1 }
    ensures { Writes S.held S.failures sink.old sink.new result (escaped (target_data version.now target)) }
{
    match target {
        Some(place) => write_of_stage(alloc, version, place, runner, sink),
        None => write_escaped(NO_STAGE.as_bytes(), sink),
    }
}
