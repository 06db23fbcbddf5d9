//! The operations of stages.
ghost use Rattle.std.specs.Prelude.{◌≡◌};
ghost use Rattle.stage_graph.specs.Operations.{source_count, picks, has_action};
ghost use Rattle.stage_graph.specs.Texts.{op_text};

use act_expr::{ExName, Value};
use std::fmt;

/// What a stage does once its sources have completed: the methods of `CompletionStage` and
/// `CompletableFuture` that made it, the `Async` forms among them.
#[derive(Clone, Copy, PartialEq, Eq, Debug)]
pub enum Op {
    /// `supplyAsync` or `runAsync`.
    Async,
    /// A new `CompletableFuture`, which only its ends complete.
    Manual,
    /// `completedFuture`.
    Completed(Value),
    /// `failedFuture`.
    Failed(ExName),
    ThenApply,
    ThenAccept,
    ThenRun,
    Copy,
    Handle,
    WhenComplete,
    Exceptionally,
    ThenCompose,
    ExceptionallyCompose,
    ThenCombine,
    ThenAcceptBoth,
    RunAfterBoth,
    ApplyToEither,
    AcceptEither,
    RunAfterEither,
    AllOf,
    AnyOf,
}

impl Op {
    /// The name by which the operation is printed.
    pub fn text(&self) -> &'static str
        ensures { result.now ≡ op_text self.now }
    {
        match self {
            Op::Async => "async",
            Op::Manual => "manual",
            Op::Completed(_) => "completed",
            Op::Failed(_) => "failed",
            Op::ThenApply => "thenApply",
            Op::ThenAccept => "thenAccept",
            Op::ThenRun => "thenRun",
            Op::Copy => "copy",
            Op::Handle => "handle",
            Op::WhenComplete => "whenComplete",
            Op::Exceptionally => "exceptionally",
            Op::ThenCompose => "thenCompose",
            Op::ExceptionallyCompose => "exceptionallyCompose",
            Op::ThenCombine => "thenCombine",
            Op::ThenAcceptBoth => "thenAcceptBoth",
            Op::RunAfterBoth => "runAfterBoth",
            Op::ApplyToEither => "applyToEither",
            Op::AcceptEither => "acceptEither",
            Op::RunAfterEither => "runAfterEither",
            Op::AllOf => "allOf",
            Op::AnyOf => "anyOf",
        }
    }

    /// How many sources a stage of the operation has, where the number is fixed.
    pub fn source_count(&self) -> Option<usize>
        ensures { result ≡ source_count self.now }
    {
        match self {
            Op::Async | Op::Manual | Op::Completed(_) | Op::Failed(_) => Some(0),
            Op::ThenApply | Op::ThenAccept | Op::ThenRun | Op::Copy => Some(1),
            Op::Handle | Op::WhenComplete | Op::Exceptionally => Some(1),
            Op::ThenCompose | Op::ExceptionallyCompose => Some(1),
            Op::ThenCombine | Op::ThenAcceptBoth | Op::RunAfterBoth => Some(2),
            Op::ApplyToEither | Op::AcceptEither | Op::RunAfterEither => Some(2),
            Op::AllOf | Op::AnyOf => None,
        }
    }

    /// Whether the function of a stage of the operation picks an inner stage.
    pub fn picks(&self) -> bool
        ensures { result ≡ picks self.now }
    {
        matches!(self, Op::ThenCompose | Op::ExceptionallyCompose)
    }

    /// Whether a stage of the operation has an action.
    pub fn has_action(&self) -> bool
        ensures { result ≡ has_action self.now }
    {
        match self {
            Op::Manual | Op::Completed(_) | Op::Failed(_) => false,
            Op::Copy | Op::AllOf | Op::AnyOf => false,
            Op::Async | Op::ThenApply | Op::ThenAccept | Op::ThenRun => true,
            Op::Handle | Op::WhenComplete | Op::Exceptionally => true,
            Op::ThenCompose | Op::ExceptionallyCompose => true,
            Op::ThenCombine | Op::ThenAcceptBoth | Op::RunAfterBoth => true,
            Op::ApplyToEither | Op::AcceptEither | Op::RunAfterEither => true,
        }
    }
}

impl fmt::Display for Op {
    ghost use Rattle.std.specs.Prelude.{Some};
    ghost use Rattle.stage_graph.specs.Texts.{op_text};

    ghost output = { λ op. Some (op_text op) };

    fn fmt<W: fmt::Write>(&self, f: &mut fmt::Formatter<W>) -> fmt::Result {
        f.write_str(self.text())
    }
}
