//! Every fault of a recording, and every member that nothing reads.
use crate::explaining::why_refused;
use crate::fault::Fault;
use crate::file_name::FileName;
use crate::input;
use crate::remembering::{Remembering, with_reason};
use crate::voice::Voice;
use command_line::{Input, Manner};
use diagnosis::{Findings, Lined, examine_recording, lines_of, read_again, trace_like};
use json::Scratch;
use recording::{Fault as ReadingFault, read_recording};
use stage_graph::{Graph, InShared};
use std::alloc::{AllocError, Global};
use std::cell::Cell;
use std::io::{self, BufWriter, Write};
use std::process::ExitCode;

/// Why the recording is refused, if it is.
fn refusal(alloc: Global, recording: &[u8]) -> Option<ReadingFault> {
    let read: Result<Graph<InShared>, ReadingFault> = read_recording(alloc, recording);
    match read {
        Ok(_) => None,
        Err(fault) => Some(fault),
    }
}

/// Writes each finding on a line: the faults with the lines on which they stand, as far as these are given.
fn write_findings<W: Write>(
    writer: &mut W,
    file: FileName<'_>,
    findings: &Findings<'_>,
    lines: &[Option<usize>],
) -> io::Result<()> {
    for (finding, line) in findings.faults().iter().zip(lines) {
        let fault = Lined {
            line: *line,
            finding,
        };
        writeln!(writer, "{file}: {fault}")?;
    }
    for warning in findings.warnings() {
        writeln!(writer, "{file}: {warning}")?;
    }
    Ok(())
}

/// Prints every fault of a recording, and every member that nothing reads; the status is 1 where there is a fault, or a
/// warning that is to count as one.
pub fn run_check<'a>(
    rt: &'a HostRuntime,
    manner: Manner,
    input: Input<'a>,
) -> Result<ExitCode, Fault> {
    let alloc = rt.alloc();
    let voice = Voice::new(rt, manner, input);
    let recording = input::recording(rt, voice, input)?;
    let refusal = refusal(alloc, &recording);
    if let Some(ReadingFault::Memory) = refusal {
        return Err(Fault::Memory);
    }
    let reason = Cell::new(None);
    let output = Remembering {
        device: io::writer(rt),
        reason: &reason,
    };
    let Ok(mut writer) = BufWriter::new(alloc, output) else {
        return Err(Fault::Memory);
    };
    let (written, is_warned) = write_check(alloc, &mut writer, voice, &recording, &refusal)?;
    if written.is_err() || writer.flush().is_err() {
        return with_reason(voice, &reason, Err(Fault::Write(None)));
    }
    if refusal.is_some() || is_warned && voice.is_strict() {
        return Ok(ExitCode::from(1));
    }
    Ok(ExitCode::SUCCESS)
}

/// Writes what is found, and answers whether there is a warning.
fn write_check<W: Write>(
    alloc: Global,
    writer: &mut W,
    voice: Voice<'_>,
    recording: &[u8],
    refusal: &Option<ReadingFault>,
) -> Result<(io::Result<()>, bool), Fault> {
    let file = voice.file();
    let mut room = Scratch::new(alloc);
    let Some(document) = read_again(alloc, recording, &mut room)? else {
        let written = write_refusal(alloc, writer, voice, recording, refusal)?;
        return Ok((written, false));
    };
    let root = document.root();
    if let (Some(kind), true) = (trace_like(&root), refusal.is_some()) {
        return Ok((writeln!(writer, "{file}: {kind}"), false));
    }
    let findings = examine_recording(alloc, &root)?;
    let lines = lines_if_refused(alloc, recording, &findings, refusal)?;
    let mut written = write_findings(writer, file, &findings, lines.as_slice());
    if written.is_ok() && !is_told(&findings, refusal) {
        written = write_refusal(alloc, writer, voice, recording, refusal)?;
    }
    Ok((written, !findings.warnings().is_empty()))
}

/// Whether one of the findings tells why the recording is refused.
fn is_told(findings: &Findings<'_>, refusal: &Option<ReadingFault>) -> bool {
    let finding = match refusal {
        Some(ReadingFault::Shape(member)) => findings.explanation(71, None, Some(member.text())),
        Some(ReadingFault::Refused(refused)) => {
            findings.explanation(refused.refusal.number(), Some(refused.at), None)
        }
        _ => None,
    };
    finding.is_some()
}

/// The lines of the faults of a recording that is refused. Of one that is not no fault is told.
fn lines_if_refused(
    alloc: Global,
    recording: &[u8],
    findings: &Findings<'_>,
    refusal: &Option<ReadingFault>,
) -> Result<Vec<Option<usize>>, AllocError> {
    match refusal {
        Some(_) => lines_of(alloc, recording, findings.faults()),
        None => Ok(Vec::new(alloc)),
    }
}

/// Writes why the recording is refused, if it is.
fn write_refusal<W: Write>(
    alloc: Global,
    writer: &mut W,
    voice: Voice<'_>,
    recording: &[u8],
    refusal: &Option<ReadingFault>,
) -> Result<io::Result<()>, Fault> {
    let Some(fault) = refusal else {
        return Ok(Ok(()));
    };
    match why_refused(alloc, voice, recording, fault)? {
        Some(why) => Ok(writeln!(writer, "{why}")),
        None => {
            let file = voice.file();
            Ok(writeln!(writer, "{file}: {fault}"))
        }
    }
}
