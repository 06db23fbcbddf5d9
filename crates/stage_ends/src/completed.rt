//! How a stage completed.
ghost use Rattle.std.specs.Prelude.{◌≡◌};
ghost use Rattle.stage_ends.specs.Ends.{completed_at, has_ended, has_struck, is_under_way, struck};

use crate::fate::Fate;
use propagate::StateRepresentation;
use stage_graph::Stage;
use stage_ops::Cause;
use version_store::StageView;

/// How a stage completed.
#[derive(Clone, Copy)]
pub(crate) struct Completed {
    pub(crate) moment: u64,
    pub(crate) cause: Cause,
    /// The tick at which its action starts by its operation; none where none starts.
    pub(crate) start: Option<u64>,
}

/// How a stage completed; none while it is pending.
pub(crate) fn completed_at<R: StateRepresentation>(view: &StageView<'_, R>) -> Option<Completed>
    ensures { result ≡ completed_at view.now.version.now.graph view.now.place }
{
    let moment = view.moment()?;
    Some(Completed {
        moment,
        cause: view.reason().cause,
        start: view.action_start(),
    })
}

impl Completed {
    /// Whether the end of an index completed the stage.
    pub(crate) fn is_by(&self, index: usize) -> bool
        ensures { result ≡ has_struck self.now.cause index }
    {
        match self.cause {
            Cause::Ended(struck) => struck == index,
            _ => false,
        }
    }

    /// What the end did that completed the stage.
    pub(crate) fn struck(&self, stage: &Stage) -> Fate
        ensures { result ≡ struck stage.now self.now.start self.now.moment }
    {
        match self.start {
            Some(start) if is_under_way(stage, start, self.moment) => Fate::CutOff {
                ran: self.moment.saturating_sub(start),
                of: stage.runs,
            },
            _ => Fate::Struck,
        }
    }
}

/// Whether at a tick an action had been triggered and had not ended.
fn is_under_way(stage: &Stage, start: u64, moment: u64) -> bool
    ensures { result ≡ is_under_way stage.now start moment }
{
    start.saturating_sub(stage.queued) <= moment && !has_ended(stage, start, moment)
}

/// Whether by a tick an action had ended.
fn has_ended(stage: &Stage, start: u64, moment: u64) -> bool
    ensures { result ≡ has_ended stage.now start moment }
{
    start <= moment && stage.runs <= moment - start
}
