//! Recordings made from traces.
use crate::format::format_of;
use crate::printing::print_text;
use command_line::{Input, Manner, Reading, Wanted};
use console::{Fault, Voice, flushed, imported, imported_each, listed, output, trace, with_reason};
use report_form::Format;
use std::alloc::{AllocError, Global};
use std::cell::Cell;
use std::fmt::Write;
use std::process::ExitCode;
use trace_import::{AsTold, Mapping, Options, Unit, import, import_each};
use trace_spans::{Summary, list_traces, row_json};

/// Whether something of a trace is to be taken as it is told.
fn is_told(reading: Reading) -> bool {
    match reading {
        Reading::Inferred => false,
        Reading::AsTold => true,
    }
}

/// The unit of ticks that the command line asks for.
fn unit_of(unit: command_line::Unit) -> Unit {
    match unit {
        command_line::Unit::Nanosecond => Unit::Nanosecond,
        command_line::Unit::Microsecond => Unit::Microsecond,
        command_line::Unit::Millisecond => Unit::Millisecond,
    }
}

/// How the command line asks traces to be mapped.
pub(crate) fn mapping_of(mapping: command_line::Mapping) -> Mapping {
    Mapping {
        unit: unit_of(mapping.unit),
        as_told: AsTold {
            clocks: is_told(mapping.clocks),
            calls: is_told(mapping.calls),
        },
    }
}

/// Answers what the command line asks of a trace, or of the traces of a file.
pub fn run_import<'a>(
    rt: &'a HostRuntime,
    manner: Manner,
    input: Input<'a>,
    wanted: Wanted<'a>,
    mapping: command_line::Mapping,
) -> Result<ExitCode, Fault> {
    let mapping = mapping_of(mapping);
    let voice = Voice::new(rt, manner, input);
    let bytes = trace(rt, voice, input)?;
    match wanted {
        Wanted::List => run_list(rt, voice, format_of(manner), mapping, &bytes),
        Wanted::Each => run_import_each(rt, voice, mapping, &bytes),
        Wanted::One(trace) => run_import_one(rt, voice, Options { trace, mapping }, &bytes),
    }
}

/// Writes the recording that a trace makes.
fn run_import_one(
    rt: &HostRuntime,
    voice: Voice<'_>,
    options: Options<'_>,
    bytes: &[u8],
) -> Result<ExitCode, Fault> {
    let reason = Cell::new(None);
    let mut sink = output(rt, &reason)?;
    let end = import(rt.alloc(), bytes, options, &mut sink);
    let end = flushed(&mut sink, imported(rt.alloc(), voice, bytes, options, end));
    with_reason(voice, &reason, end)?;
    Ok(ExitCode::SUCCESS)
}

/// Writes the recording of each trace of a file on one line.
fn run_import_each(
    rt: &HostRuntime,
    voice: Voice<'_>,
    mapping: Mapping,
    bytes: &[u8],
) -> Result<ExitCode, Fault> {
    let reason = Cell::new(None);
    let mut sink = output(rt, &reason)?;
    let end = import_each(rt.alloc(), bytes, mapping, &mut sink);
    let end = flushed(
        &mut sink,
        imported_each(rt.alloc(), voice, bytes, mapping, end),
    );
    with_reason(voice, &reason, end)
}

/// Prints which traces a file has.
fn run_list(
    rt: &HostRuntime,
    voice: Voice<'_>,
    format: Format,
    mapping: Mapping,
    bytes: &[u8],
) -> Result<ExitCode, Fault> {
    let alloc = rt.alloc();
    let rows = listed(alloc, voice, bytes, mapping, list_traces(alloc, bytes))?;
    let text = rows_text(alloc, format, &rows)?;
    print_text(rt, voice, text.as_str())?;
    Ok(ExitCode::SUCCESS)
}

/// The table of traces, a line for each.
fn rows_text(alloc: Global, format: Format, rows: &[Summary]) -> Result<String, AllocError> {
    let mut text = String::new(alloc);
    for row in rows {
        match format {
            Format::Text => writeln!(text, "{row}")?,
            Format::Json => {
                text.push_str(row_json(alloc, row)?.as_str())?;
                text.push('\n')?;
            }
        }
    }
    Ok(text)
}
