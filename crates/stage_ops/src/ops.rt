//! What evaluation requires of the operations.
ghost use Rattle.std.specs.Prelude.{◌≡◌, ℕ, ◌<◌, ◌^◌, List, Option, All, length, slice_get};
ghost use Rattle.act_expr.specs.declared.outcome.Mode.{Mode};
ghost use Rattle.stage_graph.specs.declared.stage.Stage.{Stage};
ghost use Rattle.stage_ops.specs.Among.{IsSoundAmong};
ghost use Rattle.stage_ops.specs.declared.state.State.{State};
ghost use Rattle.stage_ops.specs.States.{Completion, seen_of, seen_at, state_at, IsBy};
ghost use Rattle.stage_ops.specs.Evaluation.{ReadsDecide, BlamesRead, IsSoon};

use crate::meter::Pass;
use crate::state::State;
use act_expr::Mode;
use stage_graph::Stage;

/// The states of a graph's stages by place.
pub trait Look {
    ghost states: { Self → List State };

    fn state(&self, place: u32) -> State
        requires { place < length (states self.now) }
        ensures { slice_get (states self.now) place ≡ Some result };
}

/// The state of a stage, from the states of its feeds. `N` is the marker of the meter that gives the passes.
pub trait StageOps<N> {
    ghost step: { Self → Mode → Stage → (ℕ → Option Completion) → State };

    /// The state of a stage of a sound graph whose feeds have the states in `look`. Allocates nothing, and never
    /// fails.
    fn compute<L: Look>(&self, mode: Mode, stage: &Stage, pass: &Pass<N>, look: &L) -> State
        requires place { pass.now ≡ stage.now.place }
        requires sound { IsSoundAmong (length (L.states look.now)) stage.now }
        requires moments { All (λ state. IsBy (2 ^ 62) (seen_of state)) (L.states look.now) }
        ensures { result ≡ step self.now mode stage.now (seen_at (state_at (L.states look.now))) };

    /// Inputs that agree on the stages that are read give the same state.
    ghost reads_decide: { (ops : Self) (mode : Mode) → ReadsDecide (step ops mode) };

    /// The blamed source is a feed that was read.
    ghost blames_read: { (ops : Self) (mode : Mode) (stage : Stage) (inputs : ℕ → Option Completion) → BlamesRead stage (step ops mode stage inputs) };

    /// A stage completes within 2 ^ 41 ticks of the later of 2 ^ 40 and what it read.
    ghost soon: { (ops : Self) (mode : Mode) → IsSoon (step ops mode) };
}
