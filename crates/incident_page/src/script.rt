//! What a page has of a script.
ghost use Rattle.std.specs.Prelude.{◌≡◌, ◌++◌, ◌-◌, ◌^◌, ◌<◌};
ghost use Rattle.std.specs.Str.Lossy.{utf8_lossy};
ghost use Rattle.text_io.specs.Writes.{Writes};
ghost use Rattle.incident_page.specs.Data.{text_json};
ghost use Rattle.incident_page.specs.Escaped.{escaped};
ghost use Rattle.incident_page.specs.Scripts.{answers_data, answers_in, change_data, changes_data, named_script_data, script_data, states_data, steps_data, versions_data};

use crate::escape::write_escaped;
use crate::frame::Script;
use crate::lines::separated;
use crate::members::{write_behind, write_text, write_whole};
use crate::told::{changes_line, lossy_json};
use recording_reports::WholeReport;
use std::alloc::Global;
use text_io::{Sink, Stopped};
use version_store::{StateRepresentation, Version};

/// What stands for the members of a script where none was played.
const NO_SCRIPT: &str = ",\"script\":null,\"text\":null";

/// Writes bytes as JSON.
fn write_lossy<S: Sink>(
    alloc: Global,
    before: &str,
    text: &[u8],
    sink: &mut S,
) -> Result<(), Stopped>
    requires { S.failures sink.old < 2 ^ 64 - 1 }
    ensures { Writes S.held S.failures sink.old sink.new result (escaped (before.now ++ text_json (utf8_lossy text.now))) }
{
    let json = lossy_json(alloc, text)?;
    write_behind(before, json.as_slice(), sink)
}

/// Writes the name of a script, and its text.
fn write_named_script<S: Sink>(
    alloc: Global,
    script: Script<'_>,
    sink: &mut S,
) -> Result<(), Stopped>
    requires { S.failures sink.old < 2 ^ 64 - 1 }
    ensures { Writes S.held S.failures sink.old sink.new result (escaped (named_script_data script.entry)) }
{
    write_text(alloc, ",\"script\":", script.file, sink)?;
    write_lossy(alloc, ",\"text\":", script.text, sink)
}

/// Writes which script was played, if one was.
pub(crate) fn write_script<S: Sink>(
    alloc: Global,
    script: Option<Script<'_>>,
    sink: &mut S,
) -> Result<(), Stopped>
    requires { S.failures sink.old < 2 ^ 64 - 1 }
    ensures { Writes S.held S.failures sink.old sink.new result (escaped (script_data script.entry)) }
{
    match script {
        Some(script) => write_named_script(alloc, script, sink),
        None => write_escaped(NO_SCRIPT.as_bytes(), sink),
    }
}

/// Writes the states of all stages.
fn write_states<R: StateRepresentation, S: Sink>(
    alloc: Global,
    version: &Version<R>,
    sink: &mut S,
) -> Result<(), Stopped>
    requires { S.failures sink.old < 2 ^ 64 - 1 }
    ensures { Writes S.held S.failures sink.old sink.new result (escaped (states_data version.now)) }
{
    write_whole(alloc, ",\"versions\":[", version, WholeReport::All, sink)
}

/// Writes what is not as it was in the version's parent.
fn write_change<R: StateRepresentation, S: Sink>(
    alloc: Global,
    version: &Version<R>,
    sink: &mut S,
) -> Result<(), Stopped>
    requires { S.failures sink.old < 2 ^ 64 - 1 }
    ensures { Writes S.held S.failures sink.old sink.new result (escaped (change_data version.now)) }
{
    let line = changes_line(alloc, version)?;
    write_behind(",", line.as_slice(), sink)
}

/// Writes of each version what is not as it was in its parent.
fn write_changes<R: StateRepresentation, S: Sink>(
    alloc: Global,
    made: &[Version<R>],
    sink: &mut S,
) -> Result<(), Stopped>
    requires { S.failures sink.old < 2 ^ 64 - 1 }
    ensures { Writes S.held S.failures sink.old sink.new result (escaped (changes_data made.now)) }
{
    let mut rest = made;
    while let Some((version, others)) = rest.split_first() {
        write_change(alloc, version, sink)?;
        rest = others;
    }
    Ok(())
}

/// Writes the states of all stages in version 0, and what the versions that were made of it changed.
pub(crate) fn write_versions<R: StateRepresentation, S: Sink>(
    alloc: Global,
    version: &Version<R>,
    made: &[Version<R>],
    sink: &mut S,
) -> Result<(), Stopped>
    requires { S.failures sink.old < 2 ^ 64 - 1 }
    ensures { Writes S.held S.failures sink.old sink.new result (escaped (versions_data version.now made.now)) }
{
    write_states(alloc, version, sink)?;
    write_changes(alloc, made, sink)
}

/// What the steps of a script were answered; nothing where none was played.
fn answers_of<'a>(script: Option<Script<'a>>) -> &'a [u8]
    ensures { result.now ≡ answers_in script.entry }
{
    match script {
        Some(script) => script.answers,
        None => &[],
    }
}

/// Writes answers, without the end of the array that they are in.
fn write_answers<S: Sink>(alloc: Global, answers: &[u8], sink: &mut S) -> Result<(), Stopped>
    requires { S.failures sink.old < 2 ^ 64 - 1 }
    ensures { Writes S.held S.failures sink.old sink.new result (escaped (answers_data answers.now)) }
{
    let items = separated(alloc, answers)?;
    write_behind("],\"steps\":[", items.as_slice(), sink)
}

/// Writes what the steps of a script were answered, and what comes after that.
pub(crate) fn write_steps<S: Sink>(
    alloc: Global,
    script: Option<Script<'_>>,
    sink: &mut S,
) -> Result<(), Stopped>
    requires { S.failures sink.old < 2 ^ 64 - 1 }
    ensures { Writes S.held S.failures sink.old sink.new result (escaped (steps_data script.entry)) }
{
    write_answers(alloc, answers_of(script), sink)?;
    write_escaped("]}\n".as_bytes(), sink)
}
