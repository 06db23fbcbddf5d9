//! The grouping of spans by names, and of the stages of these spans.
ghost use Rattle.std.specs.Prelude.{◌≡◌, IfOk, map};
ghost use Rattle.span_groups.specs.Groups.{IsGroupingOf};
ghost use Rattle.span_groups.specs.Numbered.{numbered};

use crate::grouping::{Counted, Grouping};
use crate::groups::groups_of;
use fleet_summary::Name;
use std::alloc::{AllocError, Global};

/// Of which span a stage is.
#[derive(Clone, Copy, Debug, PartialEq, Eq)]
pub struct StageOf {
    /// The span's number among the names.
    pub span: usize,
    /// Whether the stage is work of the span, and no limit to it.
    pub is_work: bool,
    /// Whether the stage completes when the span ends.
    pub is_end: bool,
}

/// What a stage counts to, where the numbers of the spans' groups are known.
fn numbered(numbers: &[usize], stage: Option<StageOf>) -> Option<Counted>
    ensures { result ≡ numbered numbers.now stage }
{
    let stage = stage?;
    let group = *numbers.get(stage.span)?;
    Some(Counted { group, stage })
}

/// What each of some stages counts to.
fn all_numbered(
    alloc: Global,
    numbers: &[usize],
    stages: &[Option<StageOf>],
) -> Result<Vec<Option<Counted>>, AllocError>
    ensures { IfOk result (λ counted. counted.items ≡ map (numbered numbers.now) stages.now) }
{
    let mut counted = Vec::with_capacity(alloc, stages.len())?;
    for stage in stages {
        counted.push(numbered(numbers, *stage))?;
    }
    Ok(counted)
}

/// The grouping of spans, each of which has the name of its group among these, and of the stages at the places of a recording,
/// of which it is told of which span each is, if it is of one.
pub fn grouping_of(
    alloc: Global,
    names: &[Name],
    stages: &[Option<StageOf>],
) -> Result<Grouping, AllocError>
    ensures { IfOk result (IsGroupingOf names.now stages.now) }
{
    let made = groups_of(alloc, names)?;
    let stages = all_numbered(alloc, made.numbers.as_slice(), stages)?;
    Ok(Grouping {
        groups: made.groups,
        stages,
    })
}
