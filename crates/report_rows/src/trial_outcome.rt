//! What a trial came to.
ghost use Rattle.std.specs.Prelude.{◌≡◌};

use act_expr::Outcome;
use std::marker::Model;

/// What a trial came to, borrowed from the trial. Contracts see the outcome.
#[derive(Drop)]
pub struct TrialOutcome<'a> {
    outcome: &'a Outcome,
}

impl<'a> Model for TrialOutcome<'a> {
    ghost use Rattle.act_expr.specs.declared.outcome.Outcome.{Outcome};

    ghost Value = { Outcome };

    ghost view = { λ trial. trial.outcome.now };
}

impl<'a> TrialOutcome<'a> {
    /// This outcome, borrowed.
    #[inline(always)]
    pub(crate) fn new(outcome: &'a Outcome) -> TrialOutcome<'a>
        ensures { result ≡ outcome.now }
    {
        TrialOutcome { outcome }
    }

    /// The outcome, for as long as its trial is borrowed.
    #[inline(always)]
    pub fn as_outcome(&self) -> &'a Outcome
        ensures { result.now ≡ self.now }
    {
        self.outcome
    }
}
