//! A stage's own share of the time.
ghost use Rattle.std.specs.Prelude.{◌≡◌};
ghost use Rattle.run_comparison.specs.Differences.{order_of, same_share, share_of, ticks_of};

use propagate::StateRepresentation;
use version_store::StageView;

/// What stands for no change: more ticks than a change has.
const NO_CHANGE: u128 = 1 << 66;

/// How many ticks the own action of a stage was queued and ran since the cause of the stage's state: none where the action did
/// not run, and where the cause came after it.
#[derive(Clone, Copy, Debug, PartialEq, Eq)]
pub struct Share {
    pub queued: u64,
    pub ran: u64,
}

impl Share {
    /// That of a stage, as the line of its path tells it.
    pub fn of<R: StateRepresentation>(view: &StageView<'_, R>) -> Share
        ensures { result ≡ share_of view.now.version.now.graph view.now.place }
    {
        let reason = view.reason();
        Share {
            queued: reason.queued,
            ran: reason.ran,
        }
    }

    /// How many ticks both are in all.
    fn ticks(self) -> u128
        ensures { result ≡ ticks_of self }
    {
        u128::from(self.queued) + u128::from(self.ran)
    }
}

/// Whether both are of the same ticks.
pub(crate) fn same_share(one: Share, other: Share) -> bool
    ensures { result ≡ same_share one other }
{
    one.queued == other.queued && one.ran == other.ran
}

/// By which stages of both runs stand: the less, the more ticks the share of a stage differs by in all.
pub(crate) fn order_of(good: Share, bad: Share) -> u128
    ensures { result ≡ order_of good bad }
{
    NO_CHANGE.saturating_sub(good.ticks().abs_diff(bad.ticks()))
}
