//! Which ticks are shown.
ghost use Rattle.std.specs.Prelude.{◌≡◌};
ghost use Rattle.timeline_svg.specs.RowTexts.{shows};

use timeline::Scale;

/// The ticks that are shown: from the first one of the rows to their last one, where no other is named.
#[derive(Clone, Copy, Debug, PartialEq, Eq)]
pub struct Window {
    pub first: Option<u64>,
    pub last: Option<u64>,
}

/// Whether a scale has one of the ticks from one to another.
pub(crate) fn shows(scale: &Scale, from: u64, to: u64) -> bool
    ensures { result ≡ shows scale.now from to }
{
    from <= scale.last && scale.first <= to
}
