//! The groups of a trace's spans, and of the stages that an import makes of them.
ghost use Rattle.std.specs.Prelude.{◌≡◌, IfOk, map};
ghost use Rattle.span_groups.specs.Groups.{IsGroupingOf};
ghost use Rattle.trace_groups.specs.GroupNames.{group_name};
ghost use Rattle.trace_groups.specs.Stages.{stage_of, stages_of};

use crate::group_names::group_names;
use fleet_summary::GroupBy;
use span_groups::{Grouping, StageOf, grouping_of};
use std::alloc::{AllocError, Global};
use trace_spans::Span;
use trace_stages::{ImportedStage, StageName};

/// Of which span a stage is, and what it is to it: all of a span's stages are its work, but for the limit at which it was given up.
fn stage_of(name: StageName) -> StageOf
    ensures { result ≡ stage_of name }
{
    match name {
        StageName::Whole(span) => StageOf {
            span,
            is_work: true,
            is_end: true,
        },
        StageName::Limit(span) => StageOf {
            span,
            is_work: false,
            is_end: false,
        },
        StageName::Start(span)
        | StageName::Join(span, _)
        | StageName::Work(span, _)
        | StageName::Tried(span)
        | StageName::Answer(span) => StageOf {
            span,
            is_work: true,
            is_end: false,
        },
    }
}

/// The same of each of some stages.
fn stages_of(alloc: Global, stages: &[ImportedStage]) -> Result<Vec<Option<StageOf>>, AllocError>
    ensures { IfOk result (λ of. of.items ≡ stages_of stages.now) }
{
    let mut of_spans = Vec::with_capacity(alloc, stages.len())?;
    for stage in stages {
        of_spans.push(Some(stage_of(stage.name)))?;
    }
    Ok(of_spans)
}

/// The groups of a trace's spans, and to which of them each stage of the trace's import counts: a stage counts to the group of the
/// span whose it is. Its place in a recording is its place among the stages.
pub fn trace_grouping(
    alloc: Global,
    by: GroupBy,
    spans: &[Span],
    stages: &[ImportedStage],
) -> Result<Grouping, AllocError>
    ensures { IfOk result (IsGroupingOf (map (group_name by) spans.now) (stages_of stages.now)) }
{
    let names = group_names(alloc, by, spans)?;
    let of_spans = stages_of(alloc, stages)?;
    grouping_of(alloc, names.as_slice(), of_spans.as_slice())
}
