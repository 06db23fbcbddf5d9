//! The step of the time of a rank.
ghost use Rattle.std.specs.Prelude.{◌≡◌, ◌^◌, ◌<◌, ◌≤◌, IfSome, MatchOption};
ghost use Rattle.fleet_summary.specs.Histogram.{IsHistogram, total_of};
ghost use Rattle.fleet_summary.specs.Quantiles.{IsStepOfRank};

use crate::steps::STEPS;
use std::collections::BTreeMap;

/// The sum of all numbers.
pub(crate) fn total_of(numbers: &BTreeMap<u32, u64>) -> u128
    requires { total_of numbers.now.entries < 2 ^ 128 }
    ensures { result ≡ total_of numbers.now.entries }
{
    let mut total = 0;
    for number in numbers.values() {
        total += u128::from(*number);
    }
    total
}

/// The step of the counted time of a rank, from 1.
pub(crate) fn step_of_rank(numbers: &BTreeMap<u32, u64>, rank: u128) -> Option<u32>
    requires sound { IsHistogram numbers.now.entries }
    requires fits { total_of numbers.now.entries < 2 ^ 128 }
    requires from_one { 1 ≤ rank }
    ensures step { MatchOption result (total_of numbers.now.entries < rank) (IsStepOfRank rank numbers.now.entries) }
    ensures counted { IfSome result (λ step. step < STEPS) }
{
    let mut reached = 0;
    for (step, number) in numbers {
        reached += u128::from(*number);
        if rank <= reached {
            return Some(*step);
        }
    }
    None
}
