//! How long replies took.
ghost use Rattle.std.specs.Prelude.{◌≡◌, [], MatchOption};
ghost use Rattle.fleet_answer.specs.Quantiles.{AreTimesOf};

use fleet_summary::Histogram;

/// Quantiles of times, in ticks: each is the greatest time of its step.
#[derive(Clone, Copy, Debug, PartialEq, Eq)]
pub struct Times {
    pub p50: u64,
    pub p90: u64,
    pub p99: u64,
    pub longest: u64,
}

/// The quantiles of counted times; none where there is no time.
pub(crate) fn times_of(times: &Histogram) -> Option<Times>
    ensures { MatchOption result (times.now ≡ []) (AreTimesOf times.now) }
{
    Some(Times {
        p50: times.quantile(50)?,
        p90: times.quantile(90)?,
        p99: times.quantile(99)?,
        longest: times.quantile(100)?,
    })
}
