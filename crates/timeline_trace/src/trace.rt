//! The whole trace.
ghost use Rattle.std.specs.Prelude.{◌≡◌, ◌≤◌, ◌++◌, IfOk, OnOk, codes, length, string_bytes};
ghost use Rattle.serde_json.specs.Written.{compact_text};
ghost use Rattle.timeline_trace.specs.Rows.{process_event};
ghost use Rattle.timeline_trace.specs.Traces.{first_title, trace};

use crate::deadline::push_deadline;
use crate::event::push_event;
use crate::flow::push_arrows;
use crate::labels::Labels;
use crate::process::process_title;
use crate::row::{process_event, push_rows};
use std::alloc::{AllocError, Global};
use timeline_svg::Row;

/// The rows as a JSON list of trace events, and the path of which these are the rows, from the stage whose path it is to
/// where it began. A row is a thread, in the process of its service where services are told.
pub fn timeline_trace(
    alloc: Global,
    labels: Labels,
    title: &str,
    rows: &[Row],
    path: &[usize],
) -> Result<String, AllocError>
    requires { length rows.now ≤ 65536 }
    ensures { IfOk result (λ text. string_bytes text ≡ trace labels title.now rows.now path.now) }
{
    let mut text = String::new(alloc);
    text.push_str("[")?;
    push_first(alloc, &mut text, labels, title, rows)?;
    push_rows(alloc, &mut text, labels, title, rows)?;
    push_arrows(alloc, &mut text, labels, rows, path)?;
    push_deadline(alloc, &mut text, labels)?;
    text.push_str("\n]\n")?;
    Ok(text)
}

// The name of the first process.
fn push_first(
    alloc: Global,
    text: &mut String,
    labels: Labels,
    title: &str,
    rows: &[Row],
) -> Result<(), AllocError>
    ensures { OnOk result (string_bytes text.new ≡ string_bytes text.old ++ compact_text (process_event 1 (first_title labels title.now rows.now))) }
{
    match rows.first() {
        Some(row) => {
            let title = process_title(alloc, labels, title, row.name.as_str())?;
            push_title(alloc, text, title.as_str())
        }
        None => push_title(alloc, text, title),
    }
}

#[tactic(auto, using(crate::proofs::Exact::process_exact))]
fn push_title(alloc: Global, text: &mut String, title: &str) -> Result<(), AllocError>
    ensures { OnOk result (string_bytes text.new ≡ string_bytes text.old ++ compact_text (process_event 1 title.now)) }
{
    let event = process_event(alloc, 1, title)?;
    push_event(alloc, text, event)
}
