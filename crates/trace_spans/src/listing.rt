//! The traces of a file as a table.
ghost use Rattle.std.specs.Prelude.{◌≡◌, IfOk, map};
ghost use Rattle.trace_spans.specs.Listing.{AreByStart, IsListed};
ghost use Rattle.trace_spans.specs.Summaries.{summary_of};
ghost use Rattle.trace_spans.specs.Traces.{traces_of_bytes};

use crate::fault::Fault;
use crate::rfc3339::Instant;
use crate::summary::{Summary, summary_of};
use crate::trace::Trace;
use crate::traces::read_traces;
use serde_json::{Map, Value};
use std::alloc::{AllocError, Global};
use std::fmt;

/// What traces are, in short.
fn summaries_of(alloc: Global, traces: &[Trace]) -> Result<Vec<Summary>, AllocError>
    ensures { IfOk result (λ summaries. summaries.items ≡ map summary_of traces.now) }
{
    let mut summaries = Vec::new(alloc);
    for trace in traces {
        summaries.push(summary_of(alloc, trace)?)?;
    }
    Ok(summaries)
}

/// Summaries by their starts, those without one first.
fn by_start(mut summaries: Vec<Summary>) -> Result<Vec<Summary>, AllocError>
    ensures { IfOk result (λ listed. AreByStart summaries.items listed.items) }
{
    summaries.sort_by_key(|summary| summary.start)?;
    Ok(summaries)
}

/// The traces of a file in short, by their starts, those without one first.
pub fn list_traces(alloc: Global, bytes: &[u8]) -> Result<Vec<Summary>, Fault>
    ensures { IsListed (traces_of_bytes bytes.now) result }
{
    let traces = read_traces(alloc, bytes)?;
    let summaries = summaries_of(alloc, traces.as_slice())?;
    let listed = by_start(summaries)?;
    Ok(listed)
}

/// Nanoseconds as milliseconds with three digits after the point.
#[derive(Clone, Copy)]
struct Milliseconds(u64);

impl fmt::Display for Milliseconds {
    fn fmt<W: fmt::Write>(&self, f: &mut fmt::Formatter<W>) -> fmt::Result {
        let whole = self.0 / 1_000_000;
        let thousandths = self.0 / 1_000 % 1_000;
        write!(f, "{whole}.{thousandths:03}")
    }
}

impl fmt::Display for Summary {
    fn fmt<W: fmt::Write>(&self, f: &mut fmt::Formatter<W>) -> fmt::Result {
        let id = self.id.as_str();
        let root = self.root.as_str();
        write!(f, "{id} {root:?} ")?;
        match self.start {
            Some(start) => {
                let start = Instant(start);
                write!(f, "{start} ")?;
            }
            None => f.write_str("- ")?,
        }
        let length = Milliseconds(self.length);
        let spans = self.spans;
        let failures = self.failures;
        write!(f, "{length} ms, spans {spans}, failed {failures}")
    }
}

/// A row of the table as a JSON object; the length is in nanoseconds, and `start` is null where no time is known.
pub fn row_json(alloc: Global, summary: &Summary) -> Result<String, AllocError> {
    let mut members = Map::new(alloc);
    let start = match summary.start {
        Some(start) => {
            let start = Instant(start);
            Value::String(format!(in alloc; "{start}")?)
        }
        None => Value::Null,
    };
    let id = String::from_str(alloc, summary.id.as_str())?;
    let root = String::from_str(alloc, summary.root.as_str())?;
    serde_json::put(&mut members, alloc, "trace", Value::String(id))?;
    serde_json::put(&mut members, alloc, "root", Value::String(root))?;
    serde_json::put(&mut members, alloc, "start", start)?;
    serde_json::put(&mut members, alloc, "length", Value::from(summary.length))?;
    serde_json::put(&mut members, alloc, "spans", Value::from(summary.spans))?;
    serde_json::put(
        &mut members,
        alloc,
        "failures",
        Value::from(summary.failures),
    )?;
    Value::Object(members).to_string(alloc)
}
