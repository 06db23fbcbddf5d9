//! How much faster the actions of trials are.
ghost use Rattle.std.specs.Prelude.{◌≡◌, ◌↔◌, IfOk, IsTrue};
ghost use Rattle.stage_graph.specs.Checks.{is_tick};
ghost use Rattle.stage_graph.specs.Sound.{IsLawful};
ghost use Rattle.time_sweep.specs.Hastened.{hastened_stage, runs_left, share_of};

use stage_graph::Stage;
use std::alloc::AllocError;

/// What of an action's times is shorter in a trial.
#[derive(Clone, Copy, Debug, PartialEq, Eq)]
pub enum Part {
    /// How long it is queued and how long it runs.
    Both,
    /// How long it is queued alone.
    Queue,
}

/// How much faster the action of a trial is.
#[derive(Clone, Copy, Debug, PartialEq, Eq)]
pub struct Haste {
    /// What of its times is shorter.
    pub part: Part,
    /// How many hundredths of that are left; of 100 and more, all is.
    pub percent: u8,
}

impl Haste {
    /// That of an action that is not queued and takes no time.
    pub const WHOLE: Haste = Haste {
        part: Part::Both,
        percent: 0,
    };

    /// How many ticks are left of these.
    #[tactic(auto, using(crate::proofs::Shares::share_fits))]
    fn share_of(self, ticks: u64) -> u64
        requires { IsTrue (is_tick ticks) }
        ensures { result ≡ share_of self.percent ticks }
    {
        ticks.min(ticks * u64::from(self.percent) / 100)
    }

    /// How long an action runs then that runs so many ticks.
    fn runs_left(self, ticks: u64) -> u64
        requires { IsTrue (is_tick ticks) }
        ensures { result ≡ runs_left self ticks }
    {
        match self.part {
            Part::Both => self.share_of(ticks),
            Part::Queue => ticks,
        }
    }

    /// The stage, with an action that is so much faster.
    pub fn hastened(self, stage: &Stage) -> Result<Stage, AllocError>
        requires { IsLawful stage.now }
        ensures { IfOk result (λ made. made ≡ hastened_stage self stage.now) }
    {
        let mut made = stage.again()?;
        made.queued = self.share_of(stage.queued);
        made.runs = self.runs_left(stage.runs);
        Ok(made)
    }

    /// Whether the stage stays as it is then.
    pub(crate) fn keeps(self, stage: &Stage) -> bool
        requires { IsLawful stage.now }
        ensures { IsTrue result ↔ ((share_of self.percent stage.now.queued ≡ stage.now.queued) × (runs_left self stage.now.runs ≡ stage.now.runs)) }
    {
        let queued = self.share_of(stage.queued);
        let runs = self.runs_left(stage.runs);
        queued == stage.queued && runs == stage.runs
    }
}
