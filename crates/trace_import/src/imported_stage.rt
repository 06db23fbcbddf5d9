//! The stages of an import as stages of a recording.
ghost use Rattle.std.specs.Prelude.{◌≡◌, IfOk, map, option_map, option_to_list};
ghost use Rattle.trace_import.specs.Actions.{imported_action};
ghost use Rattle.trace_import.specs.KeptActions.{AreActions};
ghost use Rattle.trace_import.specs.Specs.{imported_op, imported_spec};
ghost use Rattle.trace_import.specs.StageNames.{stage_name};
ghost use Rattle.trace_stages.specs.Naming.{plain_stage};

use crate::actions::Actions;
use crate::stage_names::stage_name;
use act_expr::Expr;
use stage_graph::{Ends, NameList, Op, Spec};
use std::alloc::{AllocError, Global};
use trace_spans::{Span, TextList};
use trace_stages::{ImportedStage, Op as ImportedOp, StageName};

/// What the stages of an import are made with.
#[derive(Clone, Copy)]
pub(crate) struct Making<'a> {
    pub alloc: Global,
    pub spans: &'a [Span],
    /// The names of spans' stages.
    pub names: &'a TextList,
    pub actions: &'a Actions,
}

fn imported_op(op: ImportedOp) -> Op
    ensures { result ≡ imported_op op }
{
    match op {
        ImportedOp::Async => Op::Async,
        ImportedOp::Manual => Op::Manual,
        ImportedOp::ThenRun => Op::ThenRun,
        ImportedOp::Handle => Op::Handle,
        ImportedOp::WhenComplete => Op::WhenComplete,
        ImportedOp::ExceptionallyCompose => Op::ExceptionallyCompose,
        ImportedOp::AllOf => Op::AllOf,
        ImportedOp::AnyOf => Op::AnyOf,
    }
}

/// The names of stages.
fn names_of(making: Making<'_>, stages: &[StageName]) -> Result<NameList, AllocError>
    ensures { IfOk result (λ names. names ≡ map (stage_name making.entry.names.now) stages.now) }
{
    let mut names = NameList::new(making.alloc);
    for stage in stages {
        names.push(stage_name(making.alloc, making.names, *stage)?)?;
    }
    Ok(names)
}

/// The name of the stage that goes on where the source failed.
fn inner_of(making: Making<'_>, inner: Option<StageName>) -> Result<NameList, AllocError>
    ensures { IfOk result (λ names. names ≡ map (stage_name making.entry.names.now) (option_to_list inner)) }
{
    match inner {
        Some(stage) => names_of(making, &[stage]),
        None => Ok(NameList::new(making.alloc)),
    }
}

/// The action of a stage, if it has one.
fn action_of(making: Making<'_>, stage: &ImportedStage) -> Result<Option<Expr>, AllocError>
    requires { AreActions making.actions.now }
    ensures { IfOk result (λ action. action ≡ option_map (imported_action making.entry.spans.now) stage.now.action) }
{
    match stage.action {
        Some(action) => Ok(Some(making.actions.imported(making.alloc, making.spans, action)?)),
        None => Ok(None),
    }
}

/// The stage of a recording that a stage of an import is.
pub(crate) fn imported_spec(making: Making<'_>, stage: &ImportedStage) -> Result<Spec, AllocError>
    requires { AreActions making.actions.now }
    ensures { IfOk result (λ spec. spec ≡ imported_spec making.entry.spans.now making.entry.names.now (plain_stage stage.now)) }
{
    Ok(Spec {
        name: stage_name(making.alloc, making.names, stage.name)?,
        op: imported_op(stage.op),
        sources: names_of(making, &stage.sources)?,
        inner: inner_of(making, stage.inner)?,
        created: stage.created,
        queued: stage.queued,
        runs: stage.runs,
        action: action_of(making, stage)?,
        pin_result: None,
        pin_moment: None,
        ends: Ends::new(making.alloc),
    })
}
