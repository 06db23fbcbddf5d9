//! What has no row.
ghost use Rattle.std.specs.Prelude.{◌≡◌};
ghost use Rattle.version_rows.specs.Drawings.{left_out};

use crate::room::Room;

/// How many stages have no row, of those in scope.
#[derive(Clone, Copy, Debug, PartialEq, Eq)]
pub struct LeftOut {
    /// Those whose ticks are not asked for.
    pub unasked: usize,
    /// Those of the others for which there is no room.
    pub for_room: usize,
}

/// What is left out of so many stages, where so many of them are asked for.
pub(crate) fn left_out(room: Room, count: usize, asked: usize) -> LeftOut
    ensures { result ≡ left_out room count asked }
{
    LeftOut {
        unasked: count.saturating_sub(asked),
        for_room: asked.saturating_sub(room.most_rows()),
    }
}
