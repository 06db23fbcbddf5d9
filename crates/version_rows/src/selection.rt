//! Which stages have a row, where there is room.
ghost use Rattle.std.specs.Prelude.{◌≡◌};
ghost use Rattle.version_rows.specs.Candidates.{asked, is_asked, is_before_end, is_in, is_long};

use crate::candidate::{Candidate, Scope};
use timeline_svg::{Course, Window};

/// Which stages have a row, where there is room.
#[derive(Clone, Copy, Debug, PartialEq, Eq)]
pub struct Selection {
    pub scope: Scope,
    /// Those alone that had begun and had not completed before it.
    pub window: Window,
    /// How many ticks a stage takes at least from its trigger to its completion, where it is not on the path.
    pub least: u64,
}

/// Whether a stage is asked for by its ticks.
pub(crate) fn is_asked(selection: Selection, is_on_path: bool, created: u64, course: Course) -> bool
    ensures { result ≡ is_asked selection is_on_path created course }
{
    is_in(selection.window, created, course) && (is_on_path || is_long(selection.least, course))
}

fn is_in(window: Window, created: u64, course: Course) -> bool
    ensures { result ≡ is_in window created course }
{
    created <= window.last.unwrap_or(u64::MAX) && is_before_end(window, course)
}

fn is_before_end(window: Window, course: Course) -> bool
    ensures { result ≡ is_before_end window course }
{
    match course {
        Course::Service | Course::Pending => true,
        Course::Completed(run) => window.first.unwrap_or(0) <= run.completed,
    }
}

fn is_long(least: u64, course: Course) -> bool
    ensures { result ≡ is_long least course }
{
    match course {
        Course::Service | Course::Pending => true,
        Course::Completed(run) => least <= run.completed.saturating_sub(run.triggered),
    }
}

/// Those of the candidates that are asked for.
pub(crate) fn asked(mut candidates: Vec<Candidate>) -> Vec<Candidate>
    ensures { result.items ≡ asked candidates.items }
{
    candidates.retain(|candidate| candidate.is_asked);
    candidates
}
