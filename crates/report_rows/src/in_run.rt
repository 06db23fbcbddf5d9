//! What a stage is in one of two runs.
ghost use Rattle.std.specs.Prelude.{◌≡◌};
ghost use Rattle.report_rows.specs.Rows.{in_run, in_run_of, not_in_run};

use crate::standing::KeptStanding;
use propagate::StateRepresentation;
use run_comparison::Share;
use version_store::{StageView, Version};

/// What a stage is in one of two runs: how long its own action was queued and ran since the cause of its state, and what it came
/// to.
#[derive(Drop)]
pub struct InRun<'a> {
    pub queued: u64,
    pub ran: u64,
    pub standing: KeptStanding<'a>,
}

impl<'a> InRun<'a> {
    #[inline(always)]
    fn of<R: StateRepresentation>(view: &StageView<'a, R>) -> InRun<'a>
        ensures { result ≡ in_run_of view.now.version.now.graph view.now.place }
    {
        let share = Share::of(view);
        InRun {
            queued: share.queued,
            ran: share.ran,
            standing: KeptStanding::of(view),
        }
    }

    // No stage stands there.
    #[inline(always)]
    fn absent() -> InRun<'a>
        ensures { result ≡ not_in_run }
    {
        InRun {
            queued: 0,
            ran: 0,
            standing: KeptStanding::absent(),
        }
    }

    /// What the stage at a place is.
    #[inline(always)]
    pub(crate) fn at<R: StateRepresentation>(version: &'a Version<R>, place: u32) -> InRun<'a>
        ensures { result ≡ in_run version.now.graph place }
    {
        match version.stage(place) {
            Some(view) => InRun::of(&view),
            None => InRun::absent(),
        }
    }
}
