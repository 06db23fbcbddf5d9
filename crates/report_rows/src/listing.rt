//! Which row a report has for the stage at a place, if any.
ghost use Rattle.std.specs.Prelude.{◌≡◌, is_some};
ghost use Rattle.report_rows.specs.Listings.{row_at, row_of};

use crate::against::{is_changed, shift_against};
use crate::row::{Row, change_against_row, change_row, shift_row, state_row, step_row, times_row};
use crate::shift::Shift;
use propagate::StateRepresentation;
use version_store::{StageView, Version};

/// What a report that lists stages says of each.
#[derive(Clone, Copy, Debug, PartialEq, Eq)]
pub(crate) enum Listing {
    /// Its operation, its rank, and what it is.
    States,
    /// When its action started, and how long it was queued and ran.
    Times,
    /// Why it completed when it did, or why it is pending.
    Steps,
    /// What it was in the parent, and what it is here.
    Changes,
    /// How much later or earlier than in the parent it completes, if it does.
    Shifts,
    /// What it is in another version and here, if it differs.
    ChangesAgainst,
    /// How much later or earlier than in another version it completes, if it does.
    ShiftsAgainst,
}

/// The row of a stage; `against` is the version that two of the listings compare with.
#[inline(always)]
fn row_of<'a, R: StateRepresentation>(
    listing: Listing,
    view: &StageView<'a, R>,
    against: &'a Version<R>,
) -> Option<Row<'a>>
    ensures { result ≡ row_of listing view.now.version.now against.now view.now.place view.now.stage.now }
{
    match listing {
        Listing::States => Some(state_row(view)),
        Listing::Times => Some(times_row(view)),
        Listing::Steps => Some(step_row(view)),
        Listing::Changes => Some(change_row(view)),
        Listing::Shifts => shift_row(view.stage, Shift::of(view)),
        Listing::ChangesAgainst => change_against_row(view, against),
        Listing::ShiftsAgainst => shift_row(view.stage, shift_against(view, against)),
    }
}

/// The row of the stage at a place.
#[inline(always)]
pub(crate) fn row_at<'a, R: StateRepresentation>(
    listing: Listing,
    version: &'a Version<R>,
    against: &'a Version<R>,
    place: u32,
) -> Option<Row<'a>>
    ensures { result ≡ row_at listing version.now against.now place }
{
    match version.stage(place) {
        Some(view) => row_of(listing, &view, against),
        None => None,
    }
}

/// Whether a stage has a row.
fn has_row_of<R: StateRepresentation>(
    listing: Listing,
    view: &StageView<'_, R>,
    against: &Version<R>,
) -> bool
    ensures { result ≡ is_some (row_of listing view.now.version.now against.now view.now.place view.now.stage.now) }
{
    match listing {
        Listing::States | Listing::Times | Listing::Steps | Listing::Changes => true,
        Listing::Shifts => Shift::of(view).is_some(),
        Listing::ChangesAgainst => is_changed(view, against),
        Listing::ShiftsAgainst => shift_against(view, against).is_some(),
    }
}

/// Whether the stage at a place has a row.
pub(crate) fn has_row<R: StateRepresentation>(
    listing: Listing,
    version: &Version<R>,
    against: &Version<R>,
    place: u32,
) -> bool
    ensures { result ≡ is_some (row_at listing version.now against.now place) }
{
    match version.stage(place) {
        Some(view) => has_row_of(listing, &view, against),
        None => false,
    }
}
