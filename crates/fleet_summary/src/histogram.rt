//! Histograms of times: numbers by steps of times.
ghost use Rattle.std.specs.Prelude.{◌≡◌, ℕ, ◌+◌, ◌-◌, ◌*◌, ◌^◌, ◌<◌, ◌≤◌, ◌==◌, if◌then◌else◌, List, [], All, IfOk, IfSome, MatchOption, OnErr, OnOk, length};
ghost use Rattle.fleet_summary.specs.Histogram.{IsHistogram, IsJoin, capped, count_at, total_of};
ghost use Rattle.fleet_summary.specs.Quantiles.{IsHistogramOf, IsOfRank, IsStepOfRank, rank_of};
ghost use Rattle.fleet_summary.specs.Steps.{upper_end};

use crate::quantile::{step_of_rank, total_of};
use crate::steps::{STEPS, upper_end};
use std::alloc::{AllocError, Global};
use std::collections::BTreeMap;
use std::marker::Model;

/// A histogram of times: numbers by steps, as how many times have a step. A step has a number above 0, or none.
///
/// A sum of numbers ends at 2^64 - 1, so that it comes to the same in any order.
#[derive(Drop)]
pub struct Histogram {
    numbers: BTreeMap<u32, u64>,
}

impl Model for Histogram {
    ghost use Rattle.std.specs.Prelude.{ℕ, List};
    ghost use Rattle.fleet_summary.specs.Histogram.{IsHistogram};

    ghost Value = { List (ℕ × ℕ) };

    ghost view = { λ histogram. histogram.numbers.entries };

    ghost invariant = { λ histogram. IsHistogram histogram.numbers.entries };
}

impl Histogram {
    /// No numbers.
    pub fn new(alloc: Global) -> Histogram
        ensures { result ≡ [] }
    {
        Histogram {
            numbers: BTreeMap::new(alloc),
        }
    }

    /// Adds a number at a step.
    pub fn add(&mut self, step: u32, number: u64) -> Result<(), AllocError>
        requires { step < STEPS }
        ensures added { OnOk result ((other : ℕ) →
            count_at self.new other ≡ capped (count_at self.old other + (if other == step then number else 0))) }
        ensures sound { IsHistogram self.new }
        ensures err { OnErr result (self.new ≡ self.old) }
    {
        if number > 0 {
            let before = self.numbers.get(&step).copied().unwrap_or(0);
            self.numbers.insert(step, before.saturating_add(number))?;
        }
        Ok(())
    }

    /// Adds what stands at each step of another. Out of memory, a part of it may have been added.
    pub fn absorb(&mut self, other: &Histogram) -> Result<(), AllocError>
        ensures joined { OnOk result (IsJoin self.old other.now self.new) }
        ensures sound { IsHistogram self.new }
    {
        // With the field comes what its type says of it.
        let _ = &self.numbers;
        self.add_each(&other.numbers)
    }

    fn add_each(&mut self, numbers: &BTreeMap<u32, u64>) -> Result<(), AllocError>
        requires own { IsHistogram self.old }
        requires sound { IsHistogram numbers.now.entries }
        ensures joined { OnOk result (IsJoin self.old numbers.now.entries self.new) }
        ensures sound { IsHistogram self.new }
    {
        for (step, number) in numbers {
            self.add(*step, *number)?;
        }
        Ok(())
    }

    /// Both, joined: at each step the sum of the two numbers.
    pub fn join(&self, alloc: Global, other: &Histogram) -> Result<Histogram, AllocError>
        ensures joined { IfOk result (IsJoin self.now other.now) }
        ensures sound { IfOk result IsHistogram }
    {
        let mut joined = Histogram::new(alloc);
        joined.absorb(self)?;
        joined.absorb(other)?;
        Ok(joined)
    }

    /// The numbers, by their steps.
    pub fn by_step(&self) -> &BTreeMap<u32, u64>
        ensures numbers { result.now.entries ≡ self.now }
        ensures sound { IsHistogram result.now.entries }
    {
        &self.numbers
    }

    /// The number at a step.
    pub fn at(&self, step: u32) -> u64
        ensures { result ≡ count_at self.now step }
    {
        self.numbers.get(&step).copied().unwrap_or(0)
    }

    /// The sum of all numbers.
    pub fn total(&self) -> u128
        ensures { result ≡ total_of self.now }
    {
        total_of(&self.numbers)
    }

    /// The step of the counted time of a rank, from 1; none where fewer times are counted.
    pub fn step_of_rank(&self, rank: u128) -> Option<u32>
        requires { 1 ≤ rank }
        ensures { MatchOption result (total_of self.now < rank) (IsStepOfRank rank self.now) }
    {
        step_of_rank(&self.numbers, rank)
    }

    /// A quantile of the counted times: the least of them that at least so many hundredths are not above, told as the greatest
    /// time of its step. At 0 hundredths it is that of the least time.
    pub fn quantile(&self, hundredths: u8) -> Option<u64>
        requires { hundredths ≤ 100 }
        ensures step { MatchOption result (self.now ≡ []) (λ time. (step : ℕ) × (time ≡ upper_end step) ×
            IsStepOfRank (rank_of hundredths (total_of self.now)) self.now step) }
        ensures near { IfSome result (λ time. (times : List ℕ) (exact : ℕ) → All (λ other. other < 2 ^ 64) times →
            length times < 2 ^ 64 → IsHistogramOf times self.now → exact < 2 ^ 64 →
            IsOfRank (rank_of hundredths (length times)) times exact → (exact ≤ time) × (64 * (time - exact) ≤ exact)) }
    {
        let part = u128::from(hundredths) * total_of(&self.numbers);
        let step = step_of_rank(&self.numbers, part.div_ceil(100).max(1))?;
        Some(upper_end(step))
    }
}
