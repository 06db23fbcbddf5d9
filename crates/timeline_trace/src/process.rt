//! The process of a row.
ghost use Rattle.std.specs.Prelude.{◌≡◌, ◌≤◌, IfOk, length, string_bytes};
ghost use Rattle.timeline_trace.specs.Processes.{is_of, process_in, process_of, process_title, track_of};

use crate::labels::{Labels, Track};
use std::alloc::{AllocError, Global};
use timeline_svg::{Row, service_of};

fn is_of(service: &str, row: &Row) -> bool
    ensures { result ≡ is_of service.now row.now }
{
    service_of(row.name.as_str()) == service
}

// The number of the first row of a service.
fn process_in(rows: &[Row], service: &str) -> u64
    requires { length rows.now ≤ 65536 }
    ensures { result ≡ process_in rows.now service.now }
{
    let mut process = 1;
    for row in rows {
        if is_of(service, row) {
            return process;
        }
        process += 1;
    }
    process
}

fn process_of(labels: Labels, rows: &[Row], name: &str) -> u64
    requires { length rows.now ≤ 65536 }
    ensures { result ≡ process_of labels rows.now name.now }
{
    if labels.has_services {
        process_in(rows, service_of(name))
    } else {
        1
    }
}

/// Where the row of a number and a name stands.
pub(crate) fn track_of(labels: Labels, rows: &[Row], number: u64, name: &str) -> Track
    requires { length rows.now ≤ 65536 }
    ensures { result ≡ track_of labels rows.now number name.now }
{
    Track {
        process: process_of(labels, rows, name),
        row: number,
    }
}

/// The name of the process of a row.
pub(crate) fn process_title(
    alloc: Global,
    labels: Labels,
    title: &str,
    name: &str,
) -> Result<String, AllocError>
    ensures { IfOk result (λ text. string_bytes text ≡ process_title labels title.now name.now) }
{
    let mut text = String::new(alloc);
    if labels.has_services {
        text.push_str(service_of(name))?;
        text.push_str(": ")?;
    }
    text.push_str(title)?;
    Ok(text)
}
