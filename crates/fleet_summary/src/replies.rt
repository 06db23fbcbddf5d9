//! How many replies there are, and how long they took.
ghost use Rattle.std.specs.Prelude.{◌≡◌, ℕ, ◌+◌, ◌==◌, if◌then◌else◌, [], OnOk};
ghost use Rattle.fleet_summary.specs.Histogram.{IsHistogram, IsJoin, capped, count_at};
ghost use Rattle.fleet_summary.specs.Steps.{step_of};

use crate::histogram::Histogram;
use crate::steps::step_of;
use std::alloc::{AllocError, Global};

/// The replies of traces.
#[derive(Drop)]
pub struct Replies {
    pub count: u64,
    /// How many of them failed.
    pub failed: u64,
    /// How many of them, failed or not, took how long.
    pub times: Histogram,
}

impl Replies {
    /// No reply.
    pub fn new(alloc: Global) -> Replies
        ensures { result ≡ record { count = 0; failed = 0; times = [] } }
    {
        Replies {
            count: 0,
            failed: 0,
            times: Histogram::new(alloc),
        }
    }

    /// Adds one reply. Out of memory, it may stand in a part of the numbers.
    pub fn add(&mut self, time: u64, has_failed: bool) -> Result<(), AllocError>
        ensures count { OnOk result (self.new.count ≡ capped (self.old.count + 1)) }
        ensures failed { OnOk result (self.new.failed ≡ capped (self.old.failed + (if has_failed then 1 else 0))) }
        ensures times { OnOk result ((step : ℕ) →
            count_at self.new.times step ≡ capped (count_at self.old.times step + (if step == step_of time then 1 else 0))) }
        ensures sound { IsHistogram self.new.times }
    {
        self.times.add(step_of(time), 1)?;
        self.count = self.count.saturating_add(1);
        self.failed = self.failed.saturating_add(u64::from(has_failed));
        Ok(())
    }

    /// Adds those of another. Out of memory, they may stand in a part of the numbers.
    pub fn absorb(&mut self, other: &Replies) -> Result<(), AllocError>
        ensures count { OnOk result (self.new.count ≡ capped (self.old.count + other.now.count)) }
        ensures failed { OnOk result (self.new.failed ≡ capped (self.old.failed + other.now.failed)) }
        ensures times { OnOk result (IsJoin self.old.times other.now.times self.new.times) }
        ensures sound { IsHistogram self.new.times }
    {
        self.times.absorb(&other.times)?;
        self.count = self.count.saturating_add(other.count);
        self.failed = self.failed.saturating_add(other.failed);
        Ok(())
    }
}
