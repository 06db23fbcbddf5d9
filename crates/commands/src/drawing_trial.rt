//! The picture of what changes make of a recording.
ghost use Rattle.std.specs.Prelude.{◌≡◌, ◌≤◌, IfOk, length};

use crate::draw::tell_left_out;
use change_words::Change;
use console::{Fault, Voice, flushed, output, with_reason};
use std::alloc::{AllocError, Global};
use std::cell::Cell;
use text_io::{Sink, WriteFault};
use timeline_svg::{Row, Window, timeline_svg};
use version_rows::{Drawing, Room, Scope, Selection, Source, drawing_of};
use version_store::{QueryFault, StateRepresentation, Version};

/// The ticks of all rows.
const WHOLE: Window = Window {
    first: None,
    last: None,
};

/// Every stage.
const EVERY_STAGE: Selection = Selection {
    scope: Scope::All,
    window: WHOLE,
    least: 0,
};

/// Whether one of the changes is of the stage of a name.
fn is_changed(name: &str, changes: &[Change]) -> bool {
    changes.iter().any(|change| change.name.as_str() == name)
}

/// Writes a star before the names in the rows of the stages that changes name.
fn mark(alloc: Global, rows: &mut [Row], changes: &[Change]) -> Result<(), AllocError>
    ensures { length rows.new ≡ length rows.old }
{
    for row in rows.iter_mut() {
        if is_changed(row.name.as_str(), changes) {
            let name = row.name.as_str();
            row.name = format!(in alloc; "* {name}")?;
        }
    }
    Ok(())
}

/// What is drawn of a version, where the stages that changes name are marked.
fn marked<K: StateRepresentation>(
    alloc: Global,
    version: &Version<K>,
    source: Source<'_>,
    changes: &[Change],
    target: Option<u32>,
) -> Result<Drawing, QueryFault>
    ensures few { IfOk result (λ drawing. length drawing.rows.items ≤ 2000) }
{
    let mut drawing = drawing_of(alloc, version, source, Room::Picture, EVERY_STAGE, target)?;
    mark(alloc, drawing.rows.as_mut_slice(), changes)?;
    drawing.heading.note.push_str(", * changed")?;
    Ok(drawing)
}

/// Writes the picture of a version of a recording, where the stages that changes name are marked, and over it the path of the target, if there
/// is one.
pub(crate) fn draw_changed<K: StateRepresentation>(
    rt: &HostRuntime,
    voice: Voice<'_>,
    version: &Version<K>,
    source: Source<'_>,
    changes: &[Change],
    target: Option<u32>,
) -> Result<(), Fault> {
    let drawing = match marked(rt.alloc(), version, source, changes, target) {
        Ok(drawing) => drawing,
        Err(QueryFault::NoStage) => return Err(Fault::NoStage(None)),
        Err(QueryFault::Memory) => return Err(Fault::Memory),
    };
    let rows = drawing.rows.as_slice();
    let path = drawing.path.as_slice();
    let text = timeline_svg(rt.alloc(), &drawing.heading, WHOLE, rows, path)?;
    let reason = Cell::new(None);
    let mut sink = output(rt, &reason)?;
    let end = match sink.write(text.as_bytes()) {
        Ok(()) => Ok(()),
        Err(WriteFault) => Err(Fault::Write(None)),
    };
    with_reason(voice, &reason, flushed(&mut sink, end))?;
    tell_left_out(voice, drawing.left_out);
    Ok(())
}
