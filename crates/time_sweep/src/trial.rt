//! How a stage would complete if the action of another took less time.
ghost use Rattle.std.specs.Prelude.{◌≡◌};
ghost use Rattle.time_sweep.specs.Sweep.{has_value};

use act_expr::Outcome;

/// How and when a stage would complete if the action of another took less time.
#[derive(Clone, Copy, Debug, PartialEq, Eq)]
pub struct Trial {
    /// The place of the other stage.
    pub place: u32,
    /// The outcome that the stage would have.
    pub outcome: Outcome,
    /// The tick at which it would complete.
    pub moment: u64,
}

impl Trial {
    /// Whether the stage would have a value.
    pub fn has_value(&self) -> bool
        ensures { result ≡ has_value self.now }
    {
        match self.outcome {
            Outcome::Value(_) => true,
            Outcome::Bare(_) | Outcome::Wrapped(_) => false,
        }
    }
}
