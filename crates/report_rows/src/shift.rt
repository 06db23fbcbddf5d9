//! How a stage's moment differs from that in another version.
ghost use Rattle.std.specs.Prelude.{◌≡◌};
ghost use Rattle.report_rows.specs.Shifts.{shift_at, shift_between, shift_since};

use propagate::StateRepresentation;
use version_store::{Before, StageView};

/// How many ticks later or earlier a stage completes.
#[derive(Clone, Copy, Debug, PartialEq, Eq)]
pub enum Shift {
    /// It completes so many ticks later.
    Later(u64),
    /// It completes so many ticks sooner.
    Earlier(u64),
}

impl Shift {
    /// The shift between two numbers of ticks, as moments are, if they differ.
    pub fn between(old: u64, new: u64) -> Option<Shift>
        ensures { result ≡ shift_between old new }
    {
        if old < new {
            Some(Shift::Later(new - old))
        } else if new < old {
            Some(Shift::Earlier(old - new))
        } else {
            None
        }
    }

    /// The shift from a completion in the parent, if there is one, to one here.
    fn since(before: Before, moment: Option<u64>) -> Option<Shift>
        ensures { result ≡ shift_since before moment }
    {
        match (before, moment) {
            (Before::Done(_, old), Some(new)) => Shift::between(old, new),
            _ => None,
        }
    }

    /// The shift of a stage, if it completes at another moment than in the parent.
    pub fn of<R: StateRepresentation>(view: &StageView<'_, R>) -> Option<Shift>
        ensures { result ≡ shift_at view.now.version.now view.now.place }
    {
        Shift::since(view.before(), view.moment())
    }
}
