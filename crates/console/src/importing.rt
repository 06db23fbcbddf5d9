//! Why a trace makes no recording.
use crate::explaining::told;
use crate::fault::Fault;
use crate::guesses::tell_notes;
use crate::not_made::NotMade;
use crate::voice::Voice;
use diagnosis::{Quoted, beginning_of, json_fault, read_again};
use json::Scratch;
use std::alloc::{AllocError, Global};
use std::fmt::Write;
use std::str;
use trace_import::{ImportFault, Mapping, Note, Options};
use trace_relations::RelationsFault;
use trace_spans::{Fault as TraceFault, Summary, Text, Why, compared, list_traces};

/// The end of an import: what was guessed is told, or why a trace makes no recording.
pub fn imported(
    alloc: Global,
    voice: Voice<'_>,
    trace: &[u8],
    options: Options<'_>,
    end: Result<Vec<Note>, ImportFault>,
) -> Result<(), Fault> {
    match end {
        Ok(notes) => {
            tell_notes(voice, options.mapping.unit, &notes);
            Ok(())
        }
        Err(fault) => Err(not_imported(alloc, voice, trace, options, fault)),
    }
}

/// What ends the program where a trace makes no recording.
pub(crate) fn not_imported(
    alloc: Global,
    voice: Voice<'_>,
    trace: &[u8],
    options: Options<'_>,
    fault: ImportFault,
) -> Fault {
    match fault {
        ImportFault::Write => Fault::Write(None),
        ImportFault::Memory
        | ImportFault::Refused(TraceFault::Memory)
        | ImportFault::Unticked(RelationsFault::Memory) => Fault::Memory,
        fault => {
            // (where memory is out nothing is told)
            let why = why_not_imported(alloc, voice, trace, options, &fault).unwrap_or(None);
            Fault::NotImported(fault, why)
        }
    }
}

/// The rows of the table of a file's traces, or why there are none.
pub fn listed(
    alloc: Global,
    voice: Voice<'_>,
    traces: &[u8],
    mapping: Mapping,
    rows: Result<Vec<Summary>, TraceFault>,
) -> Result<Vec<Summary>, Fault> {
    let options = Options {
        trace: None,
        mapping,
    };
    match rows {
        Ok(rows) => Ok(rows),
        Err(fault) => Err(not_imported(alloc, voice, traces, options, ImportFault::Refused(fault))),
    }
}

/// Why a trace makes no recording; nothing where no more can be told, or nothing is to be.
fn why_not_imported(
    alloc: Global,
    voice: Voice<'_>,
    trace: &[u8],
    options: Options<'_>,
    fault: &ImportFault,
) -> Result<Option<String>, AllocError> {
    if voice.is_quiet() {
        return Ok(None);
    }
    match fault {
        ImportFault::Refused(fault) => why_refused(alloc, voice, trace, options, fault),
        fault => told(
            voice,
            NotMade {
                unit: options.mapping.unit,
                fault,
            },
        ),
    }
}

/// Why a file is refused.
fn why_refused(
    alloc: Global,
    voice: Voice<'_>,
    trace: &[u8],
    options: Options<'_>,
    fault: &TraceFault,
) -> Result<Option<String>, AllocError> {
    match fault {
        TraceFault::Json => why_no_json(alloc, voice, trace),
        TraceFault::NotATrace(_) => why_no_trace(alloc, voice, trace, fault),
        TraceFault::SeveralTraces(_) => why_several(alloc, voice, trace, options.trace, fault),
        TraceFault::NoTrace => match options.trace {
            Some(id) => {
                let id = Quoted(id);
                told(voice, format_args!("it has no span of the trace {id}"))
            }
            None => told(voice, Why(fault)),
        },
        TraceFault::Memory => Ok(None),
        fault => told(voice, Why(fault)),
    }
}

/// Why bytes are neither one JSON text nor lines of them.
fn why_no_json(
    alloc: Global,
    voice: Voice<'_>,
    trace: &[u8],
) -> Result<Option<String>, AllocError> {
    if trace.iter().all(|byte| byte.is_ascii_whitespace()) {
        return told(
            voice,
            "it has no text: a trace is one JSON text, or one on each line",
        );
    }
    if let Some(beginning) = beginning_of(trace) {
        return told(voice, beginning);
    }
    match bad_line(alloc, trace)? {
        Some(number) if number > 1 => told(voice, format_args!("line {number} is no JSON text")),
        _ => told(voice, json_fault(alloc, trace)?),
    }
}

/// Whether bytes are a JSON text.
fn is_json(alloc: Global, bytes: &[u8]) -> Result<bool, AllocError> {
    let mut room = Scratch::new(alloc);
    let document = read_again(alloc, bytes, &mut room)?;
    Ok(document.is_some())
}

/// Whether bytes are a JSON text with stages.
fn has_stages(alloc: Global, bytes: &[u8]) -> Result<bool, AllocError> {
    let mut room = Scratch::new(alloc);
    match read_again(alloc, bytes, &mut room)? {
        Some(document) => Ok(document.root().get("stages").is_some()),
        None => Ok(false),
    }
}

/// The number of the first line that is no JSON text; none where the bytes are no UTF-8.
fn bad_line(alloc: Global, trace: &[u8]) -> Result<Option<usize>, AllocError> {
    let Ok(text) = str::from_utf8(trace) else {
        return Ok(None);
    };
    let mut number: usize = 0;
    for line in text.split('\n') {
        number = number.saturating_add(1);
        let bytes = line.trim().as_bytes();
        if !bytes.is_empty() && !is_json(alloc, bytes)? {
            return Ok(Some(number));
        }
    }
    Ok(None)
}

/// That a file has several traces, or several of which the id begins as it was asked for.
fn said_of_several(
    alloc: Global,
    wanted: Option<&str>,
    fault: &TraceFault,
) -> Result<String, AllocError> {
    match wanted {
        Some(wanted) => {
            let wanted = Quoted(wanted);
            format!(in alloc;
                "it has several traces whose ids begin with {wanted}: choose one of them by --trace and its id, or a longer beginning of it"
            )
        }
        None => {
            let why = Why(fault);
            format!(in alloc; "{why}")
        }
    }
}

/// How the ids begin that were asked for, as ids are compared; that of any is empty.
fn beginning_asked(alloc: Global, wanted: Option<&str>) -> Result<Text, AllocError> {
    match wanted {
        Some(wanted) => compared(alloc, wanted),
        None => Text::new(alloc, ""),
    }
}

/// That a file has several traces that may be meant, and which.
fn why_several(
    alloc: Global,
    voice: Voice<'_>,
    trace: &[u8],
    wanted: Option<&str>,
    fault: &TraceFault,
) -> Result<Option<String>, AllocError> {
    let mut text = said_of_several(alloc, wanted, fault)?;
    let beginning = beginning_asked(alloc, wanted)?;
    if let Ok(rows) = list_traces(alloc, trace) {
        for row in rows.as_slice() {
            if row.id.as_str().starts_with(beginning.as_str()) {
                write!(text, "\n{row}")?;
            }
        }
    }
    told(voice, text.as_str())
}

/// That a file is no trace, and what it may be.
fn why_no_trace(
    alloc: Global,
    voice: Voice<'_>,
    trace: &[u8],
    fault: &TraceFault,
) -> Result<Option<String>, AllocError> {
    if has_stages(alloc, trace)? {
        return told(
            voice,
            "it looks like a recording: whatif report takes it as it is",
        );
    }
    told(voice, Why(fault))
}
