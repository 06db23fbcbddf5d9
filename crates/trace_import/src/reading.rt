//! What is made of a trace.
ghost use Rattle.trace_import.specs.Imported.{IsReadingOf};

use crate::fault::ImportFault;
use crate::options::Mapping;
use crate::texts::tells_texts;
use std::alloc::Global;
use trace_relations::{Relations, relations_of};
use trace_spans::Trace;
use trace_stages::{Stages, stages_of};

/// The most stages of a recording.
const MOST_STAGES: usize = 65_536;

/// A trace, how its spans stand to each other, and its stages.
#[derive(Drop)]
pub struct Reading<'t> {
    pub trace: &'t Trace,
    pub relations: Relations,
    pub stages: Stages,
}

/// Makes the stages of a trace.
pub(crate) fn reading_of<'t>(
    alloc: Global,
    mapping: Mapping,
    trace: &'t Trace,
) -> Result<Reading<'t>, ImportFault>
    ensures { IsReadingOf mapping trace.now result }
{
    tells_texts(trace);
    let spans = trace.spans.as_slice();
    let relations = relations_of(alloc, mapping.unit, mapping.as_told, spans)?;
    let stages = stages_of(alloc, spans, &relations, mapping.as_told)?;
    if stages.0.len() > MOST_STAGES {
        return Err(ImportFault::TooManyStages);
    }
    Ok(Reading {
        trace,
        relations,
        stages,
    })
}
