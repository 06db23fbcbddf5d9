//! What stands above the rows.
ghost use Rattle.std.specs.Prelude.{◌≡◌, IfOk, option_copied, string_bytes, ◌++◌, OnOk};
ghost use Rattle.version_rows.specs.Drawings.{deadline_note, file_title, heading_note, note_text, path_title, room_note, title_text, unasked_note};

use crate::room::Room;
use propagate::StateRepresentation;
use std::alloc::{AllocError, Global};
use std::fmt::Write;
use timeline_svg::Heading;
use version_store::Version;

/// What is told of the recording that a version is of.
#[derive(Clone, Copy)]
pub struct Source<'a> {
    /// The file that it is in, where one is named.
    pub file: Option<&'a str>,
    /// What a tick is; empty where that is not told.
    pub unit: &'a str,
    /// The tick by which there was to be a reply.
    pub deadline: Option<u64>,
}

/// Which version and whose path it is, how many stages there are and how many of them are asked for, the unit, and the deadline.
pub(crate) fn heading_of<R: StateRepresentation>(
    alloc: Global,
    version: &Version<R>,
    source: Source<'_>,
    target: Option<u32>,
    room: Room,
    count: usize,
    asked: usize,
) -> Result<Heading, AllocError>
    ensures title { IfOk result (λ heading. string_bytes heading.title ≡ title_text version.now (option_copied source.entry.file) target) }
    ensures note { IfOk result (λ heading. string_bytes heading.note ≡ heading_note room count asked source.entry.deadline) }
    ensures unit { IfOk result (λ heading. string_bytes heading.unit ≡ source.entry.unit.now) }
    ensures deadline { IfOk result (λ heading. heading.deadline ≡ source.entry.deadline) }
{
    let title = title_of(alloc, version, source.file, target)?;
    let mut note = note_of(alloc, room, count, asked)?;
    push_deadline(&mut note, source.deadline)?;
    let mut unit = String::new(alloc);
    unit.push_str(source.unit)?;
    Ok(Heading {
        title,
        note,
        unit,
        deadline: source.deadline,
    })
}

fn push_deadline(note: &mut String, deadline: Option<u64>) -> Result<(), AllocError>
    ensures { OnOk result (string_bytes note.new ≡ string_bytes note.old ++ deadline_note deadline) }
{
    match deadline {
        Some(deadline) => write!(note, ", deadline {deadline}"),
        None => Ok(()),
    }
}

fn title_of<R: StateRepresentation>(
    alloc: Global,
    version: &Version<R>,
    file: Option<&str>,
    target: Option<u32>,
) -> Result<String, AllocError>
    ensures { IfOk result (λ title. string_bytes title ≡ title_text version.now (option_copied file.entry) target) }
{
    let number = version.number();
    let mut title = format!(in alloc; "Version {number}")?;
    push_file_title(&mut title, file)?;
    push_path_title(&mut title, version, target)?;
    Ok(title)
}

fn push_file_title(title: &mut String, file: Option<&str>) -> Result<(), AllocError>
    ensures { OnOk result (string_bytes title.new ≡ string_bytes title.old ++ file_title (option_copied file.entry)) }
{
    match file {
        Some(file) => write!(title, " of {file}"),
        None => Ok(()),
    }
}

fn push_path_title<R: StateRepresentation>(
    title: &mut String,
    version: &Version<R>,
    target: Option<u32>,
) -> Result<(), AllocError>
    ensures { OnOk result (string_bytes title.new ≡ string_bytes title.old ++ path_title version.now.graph target) }
{
    match target {
        Some(place) => {
            let name = version.graph().name_of(place);
            write!(title, ", the path of {name}")
        }
        None => Ok(()),
    }
}

fn note_of(alloc: Global, room: Room, count: usize, asked: usize) -> Result<String, AllocError>
    ensures { IfOk result (λ note. string_bytes note ≡ note_text room count asked) }
{
    let shown = asked.min(room.most_rows());
    if count <= shown {
        return format!(in alloc; "{count} stages");
    }
    let mut note = format!(in alloc; "{shown} of {count} stages")?;
    push_unasked(&mut note, count.saturating_sub(asked))?;
    push_room(&mut note, room, asked)?;
    Ok(note)
}

fn push_unasked(note: &mut String, unasked: usize) -> Result<(), AllocError>
    ensures { OnOk result (string_bytes note.new ≡ string_bytes note.old ++ unasked_note unasked) }
{
    if unasked > 0 {
        write!(note, ", {unasked} left out by --from, --to or --min")
    } else {
        Ok(())
    }
}

fn push_room(note: &mut String, room: Room, asked: usize) -> Result<(), AllocError>
    ensures { OnOk result (string_bytes note.new ≡ string_bytes note.old ++ room_note room asked) }
{
    if asked > room.most_rows() {
        note.push_str(": those on the path, and those whose own actions took longest")
    } else {
        Ok(())
    }
}
