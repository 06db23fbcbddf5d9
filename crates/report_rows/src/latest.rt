//! How late an action may start.
ghost use Rattle.std.specs.Prelude.{◌≡◌};
ghost use Rattle.report_rows.specs.Rows.{latest_start};

/// The latest tick at which an action may start that started at this one and may run so much longer; none where that has no
/// end.
pub fn latest_start(start: u64, slack: Option<u64>) -> Option<u64>
    ensures { result ≡ latest_start start slack }
{
    match slack {
        Some(ticks) => Some(start.saturating_add(ticks)),
        None => None,
    }
}
