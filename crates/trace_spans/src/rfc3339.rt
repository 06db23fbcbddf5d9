//! Times as RFC 3339 writes them.
use std::fmt;

/// Nanoseconds since 1970, printed as RFC 3339 has them, in UTC.
#[derive(Clone, Copy)]
pub(crate) struct Instant(pub u64);

/// A day of the Gregorian calendar.
#[derive(Clone, Copy)]
struct Day {
    year: u64,
    month: u64,
    day: u64,
}

/// The day so many days after the first of January 1970.
///
/// Years begin in March here, so that the day that a leap year has more is the last one of its year.
fn day_after_1970(days: u64) -> Day {
    // from the first of March of the year 0
    let days = days.saturating_add(719_468);
    let era = days / 146_097;
    let of_era = days % 146_097;
    let year_of_era = (of_era.saturating_sub(of_era / 1_460) + of_era / 36_524).saturating_sub(
        of_era / 146_096,
    ) / 365;
    let of_year = of_era.saturating_sub(
        (365 * year_of_era + year_of_era / 4).saturating_sub(year_of_era / 100),
    );
    let month_from_march = of_year.saturating_mul(5).saturating_add(2) / 153;
    let before_month = month_from_march.saturating_mul(153).saturating_add(2) / 5;
    let month = if month_from_march < 10 {
        month_from_march + 3
    } else {
        month_from_march - 9
    };
    Day {
        year: year_of_era
            .saturating_add(era.saturating_mul(400))
            .saturating_add(u64::from(month <= 2)),
        month,
        day: of_year.saturating_sub(before_month).saturating_add(1),
    }
}

impl fmt::Display for Instant {
    fn fmt<W: fmt::Write>(&self, f: &mut fmt::Formatter<W>) -> fmt::Result {
        let seconds = self.0 / 1_000_000_000;
        let nanoseconds = self.0 % 1_000_000_000;
        let Day { year, month, day } = day_after_1970(seconds / 86_400);
        let (hour, minute, second) = (seconds / 3_600 % 24, seconds / 60 % 60, seconds % 60);
        write!(
            f,
            "{year:04}-{month:02}-{day:02}T{hour:02}:{minute:02}:{second:02}.{nanoseconds:09}Z"
        )
    }
}
