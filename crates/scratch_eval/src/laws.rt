//! Laws of evaluation, each proved on an empty body, for any step of one stage.
ghost use Rattle.std.specs.Prelude.{ℕ, Option};
ghost use Rattle.stage_graph.specs.declared.stage.Stage.{Stage};
ghost use Rattle.stage_ops.specs.declared.state.State.{State};
ghost use Rattle.stage_ops.specs.States.{Completion};
ghost use Rattle.stage_ops.specs.Evaluation.{ReadsDecide, BlamesRead, IsSoon, IsPrompt, OneAnswer};
ghost use Rattle.scratch_eval.specs.Answers.{MomentsFollowRanks, MomentsFollowRanksUnqueued};
ghost use Rattle.scratch_eval.specs.Blame.{ChainsFollowBlame};
ghost use Rattle.scratch_eval.specs.Path.{PathsAddUp, PathsMove};

/// On a ranked graph, states that meet each stage's equation are those of evaluation from scratch.
pub fn one_answer()
    ensures { (step : Stage → (ℕ → Option Completion) → State) → ReadsDecide step → OneAnswer step }
{}

/// A stage completes no later than its rank allows.
pub fn moments_follow_ranks()
    ensures { (step : Stage → (ℕ → Option Completion) → State) → ReadsDecide step → IsSoon step → MomentsFollowRanks step }
{}

/// The bound by its rank is lower in a graph where no action is queued.
pub fn moments_follow_ranks_unqueued()
    ensures { (step : Stage → (ℕ → Option Completion) → State) → ReadsDecide step → IsPrompt step → MomentsFollowRanksUnqueued step }
{}

/// The chain of blame of a stage is the stage, and then the chain of the source that it blames.
pub fn chains_follow_blame()
    ensures { (step : Stage → (ℕ → Option Completion) → State) → ReadsDecide step → ((stage : Stage) (inputs : ℕ → Option Completion) → BlamesRead stage (step stage inputs)) → ChainsFollowBlame step }
{}

/// The path of a stage is the stage, and then the path of the feed that its cause names. A completed stage completed the
/// ticks of its path after the tick at which the path began, and the path of a pending one has pending stages only.
///
/// While a stage keeps its path and the tick at which it begins, it completes later by as many ticks as the actions on
/// the path take longer.
pub fn paths_add_up()
    ensures adds_up { PathsAddUp }
    ensures moves { PathsMove }
{}
