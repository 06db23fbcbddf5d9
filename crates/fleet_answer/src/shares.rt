//! What a group did on the paths of the slowest replies, and of all.
ghost use Rattle.std.specs.Prelude.{◌≡◌, ◌<◌, MatchOption, nat_le, if◌then◌else◌};
ghost use Rattle.fleet_summary.specs.Histogram.{capped, total_of};
ghost use Rattle.fleet_answer.specs.Shares.{AreSlowest, for_each, share_from, shares_of, slow_rank, sum_from};

use fleet_summary::{GroupCounts, Histogram};

/// What a group did on the paths of some replies: the ticks for each of them, rounded down.
#[derive(Clone, Copy, Debug, PartialEq, Eq)]
pub struct Share {
    pub ran: u64,
    pub queued: u64,
}

/// The same of the slowest replies, and of all.
#[derive(Clone, Copy, Debug, PartialEq, Eq)]
pub struct Shares {
    pub slowest: Share,
    pub all: Share,
}

/// Which replies are the slowest.
#[derive(Clone, Copy, Debug, PartialEq, Eq)]
pub struct Slowest {
    /// How many hundredths of the replies were asked for.
    pub percent: u8,
    /// The least step of their times.
    pub first: u32,
    /// How many replies have a time of that step, or of one above it.
    pub replies: u64,
    /// How many replies there are.
    pub all: u64,
}

/// A sum that ends at the greatest number of 64 bits.
fn capped(sum: u128) -> u64
    ensures { result ≡ capped sum }
{
    sum.min(u128::from(u64::MAX)) as u64
}

/// What stands at all steps of a histogram.
pub(crate) fn total_of(histogram: &Histogram) -> u64
    ensures { result ≡ capped (total_of histogram.now) }
{
    capped(histogram.total())
}

/// The number of a step, if it is this one or one above it.
fn number_from(first: u32, step: u32, number: u64) -> u128
    ensures { result ≡ (if nat_le first step then number else 0) }
{
    if first <= step { u128::from(number) } else { 0 }
}

/// What stands at a step and those above it.
fn sum_from(first: u32, histogram: &Histogram) -> u128
    ensures { result ≡ sum_from first histogram.now }
{
    let mut sum = 0;
    for (step, number) in histogram.by_step() {
        sum += number_from(first, *step, *number);
    }
    sum
}

/// How many ticks there are for each of some replies.
fn for_each(ticks: u128, replies: u64) -> u64
    ensures { result ≡ for_each ticks replies }
{
    let count = replies.max(1);
    capped(ticks / u128::from(count))
}

/// What a group came to for each of some replies.
fn share_from(first: u32, replies: u64, counts: &GroupCounts) -> Share
    ensures { result ≡ share_from first replies counts.now }
{
    Share {
        ran: for_each(sum_from(first, &counts.ran), replies),
        queued: for_each(sum_from(first, &counts.queued), replies),
    }
}

/// The same for each of the slowest replies, and of all.
pub(crate) fn shares_of(slowest: Slowest, counts: &GroupCounts) -> Shares
    ensures { result ≡ shares_of slowest counts.now }
{
    Shares {
        slowest: share_from(slowest.first, slowest.replies, counts),
        all: share_from(0, slowest.all, counts),
    }
}

/// The rank of the first of so many hundredths, the slowest.
fn slow_rank(percent: u8, times: &Histogram) -> u128
    ensures { result ≡ slow_rank percent (total_of times.now) }
{
    // With the numbers comes what a histogram's type says of them, so that the product fits.
    let _ = times.by_step();
    let others = u128::from(100_u8.saturating_sub(percent)) * times.total();
    others / 100 + 1
}

/// So many hundredths of the replies, the slowest, by the steps of their times: all whose times have the step of the first of them,
/// or one above it. None where none is among them.
pub(crate) fn slowest_of(percent: u8, times: &Histogram) -> Option<Slowest>
    ensures { MatchOption result (total_of times.now < slow_rank percent (total_of times.now)) (AreSlowest percent times.now) }
{
    let first = times.step_of_rank(slow_rank(percent, times))?;
    Some(Slowest {
        percent,
        first,
        replies: capped(sum_from(first, times)),
        all: capped(sum_from(0, times)),
    })
}
