//! The lines by which replies are printed.
ghost use Rattle.std.specs.Prelude.{◌≡◌, ◌++◌, [], IfOk, OnOk, string_bytes, option_copied, slice_index_or};
ghost use Rattle.std.specs.List.{filter_map};
ghost use Rattle.recording.specs.FaultTexts.{fault_text};
ghost use Rattle.text_io.specs.Writes.{line_end};
ghost use Rattle.serve_script.specs.Replies.{added_in, base_in, dependent_text, detail_text, index_text, name_of_dependent, refused_line, reply_line, dependent_name};

use recording::Fault;
use session_core::{Event, Refusal, Reply, Table};
use stage_graph::{Edit, Graph, Name};
use std::alloc::{AllocError, Global};
use std::fmt::Write;
use version_store::{StateRepresentation, Version};

/// The line of the reply to an event. `listed` says whether the edits of the event came as a list, so that a refusal tells
/// the index of its edit; `base` is the version that a commit edits.
pub(crate) fn reply_line<R: StateRepresentation>(
    alloc: Global,
    base: Option<&Version<R>>,
    event: &Event,
    listed: bool,
    reply: Reply,
) -> Result<String, AllocError>
    ensures { IfOk result (λ line. string_bytes line ≡ reply_line (option_copied base.entry) event.now listed reply) }
{
    let mut line = String::new(alloc);
    push_reply(&mut line, base, event, listed, reply)?;
    Ok(line)
}

/// The line that says why a line names no step.
pub(crate) fn fault_line(alloc: Global, fault: &Fault) -> Result<String, AllocError>
    ensures { IfOk result (λ line. string_bytes line ≡ fault_text fault.now ++ line_end) }
{
    let mut line = String::new(alloc);
    writeln!(line, "{fault}")?;
    Ok(line)
}

/// Puts the line of the reply to an event at the end of a text.
fn push_reply<R: StateRepresentation>(
    line: &mut String,
    base: Option<&Version<R>>,
    event: &Event,
    listed: bool,
    reply: Reply,
) -> Result<(), AllocError>
    ensures { OnOk result (string_bytes line.new ≡ string_bytes line.old ++ reply_line (option_copied base.entry) event.now listed reply) }
{
    let session = event.session();
    match reply {
        Reply::Opened(version) => writeln!(line, "opened {session} at {version}"),
        Reply::At(version) => writeln!(line, "head {version}"),
        Reply::Committed(version) => writeln!(line, "committed {version}"),
        Reply::Undone(version) => writeln!(line, "undone {version}"),
        Reply::Closed => writeln!(line, "closed {session}"),
        Reply::Refused(refusal) => push_refusal(line, base, event, listed, refusal),
        Reply::Memory => line.push_str("refused 90 Memory\n"),
    }
}

/// The version that a commit edits.
pub(crate) fn base_of<'a, R: StateRepresentation>(
    table: &'a Table<R>,
    event: &Event,
) -> Option<&'a Version<R>>
    ensures { option_copied result ≡ base_in table.now.state event.now }
{
    match event {
        Event::Commit { base, .. } => table.version(*base).ok(),
        _ => None,
    }
}

fn push_refusal<R: StateRepresentation>(
    line: &mut String,
    base: Option<&Version<R>>,
    event: &Event,
    listed: bool,
    refusal: Refusal,
) -> Result<(), AllocError>
    ensures { OnOk result (string_bytes line.new ≡ string_bytes line.old ++ refused_line (option_copied base.entry) event.now listed refusal) }
{
    write!(line, "refused {refusal}")?;
    push_detail(line, base, event, refusal)?;
    push_index(line, listed, refusal.place())?;
    line.push_str("\n")
}

// The detail of a refusal: the name of the dependent of a removed stage, or the number of a head or of a version.
fn push_detail<R: StateRepresentation>(
    line: &mut String,
    base: Option<&Version<R>>,
    event: &Event,
    refusal: Refusal,
) -> Result<(), AllocError>
    ensures { OnOk result (string_bytes line.new ≡ string_bytes line.old ++ detail_text (option_copied base.entry) event.now refusal) }
{
    match refusal {
        Refusal::Edits(refused) => push_dependent(line, base, event, refused.refusal),
        Refusal::Moved(number) | Refusal::Foreign(number) => write!(line, " {number}"),
        _ => Ok(()),
    }
}

fn push_dependent<R: StateRepresentation>(
    line: &mut String,
    base: Option<&Version<R>>,
    event: &Event,
    refusal: stage_graph::Refusal,
) -> Result<(), AllocError>
    ensures { OnOk result (string_bytes line.new ≡ string_bytes line.old ++ dependent_text (option_copied base.entry) event.now refusal) }
{
    match refusal {
        stage_graph::Refusal::InUse(place) => {
            let name = dependent_name(base, event, place);
            write!(line, " {name}")
        }
        _ => Ok(()),
    }
}

fn push_index(line: &mut String, listed: bool, place: Option<usize>) -> Result<(), AllocError>
    ensures { OnOk result (string_bytes line.new ≡ string_bytes line.old ++ index_text listed place) }
{
    match place {
        Some(index) if listed => write!(line, " in {index}"),
        _ => Ok(()),
    }
}

/// The name of the stage that has a place in the graph of a commit's base, or after its edits.
pub(crate) fn dependent_name<'a, R: StateRepresentation>(
    base: Option<&'a Version<R>>,
    event: &'a Event,
    place: u32,
) -> &'a str
    ensures { result.now ≡ dependent_name (option_copied base.entry) event.now place }
{
    match (base, event) {
        (Some(version), Event::Commit { edit, .. }) => {
            name_of_dependent(version.graph(), edit.as_slice(), place)
        }
        _ => "",
    }
}

fn name_of_dependent<'a, R: StateRepresentation>(
    graph: &'a Graph<R>,
    edits: &'a [Edit],
    place: u32,
) -> &'a str
    ensures { result.now ≡ name_of_dependent graph.now.places edits.now place }
{
    let place_index = place as usize;
    if place_index >= graph.len() {
        return added_name(edits, place_index - graph.len());
    }
    match graph.stage(place) {
        Some(stage) => stage.name.as_str(),
        None => "",
    }
}

/// The name of the stage that the edits add after this many others.
fn added_name(edits: &[Edit], others: usize) -> &str
    ensures { result.now ≡ slice_index_or (filter_map added_in edits.now) others [] }
{
    let [first, rest @ ..] = edits else {
        return "";
    };
    match added(first) {
        Some(name) if others == 0 => name.as_str(),
        Some(_) => added_name(rest, others - 1),
        None => added_name(rest, others),
    }
}

/// The name of the stage that an edit adds.
fn added(edit: &Edit) -> Option<&Name>
    ensures { option_copied result ≡ added_in edit.now }
{
    match edit {
        Edit::Add(stage) => Some(&stage.name),
        Edit::PinResult { .. } | Edit::PinMoment { .. } | Edit::SetTimes { .. } => None,
        Edit::SetAction { .. } | Edit::SetEnds { .. } => None,
        Edit::Remove(_) | Edit::Rewire { .. } => None,
    }
}
