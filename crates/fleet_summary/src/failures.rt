//! How many replies failed, and by what.
ghost use Rattle.std.specs.Prelude.{◌≡◌, ℕ, ◌+◌, ◌<◌, if◌then◌else◌, List, [], OnOk, option_copied};
ghost use Rattle.std.specs.Option.{option_map_or};
ghost use Rattle.std.specs.Ordering.{is_eq};
ghost use Rattle.fleet_summary.specs.declared.facts.Failure.{Failure};
ghost use Rattle.fleet_summary.specs.Histogram.{capped};
ghost use Rattle.fleet_summary.specs.Failures.{IsFailures, failed_by};
ghost use Rattle.fleet_summary.specs.Names.{failure_cmp};

use crate::facts::Failure;
use std::alloc::{AllocError, Global};
use std::collections::BTreeMap;
use std::marker::Model;

/// By which exceptions, and in which groups they arose, how many replies failed.
#[derive(Drop)]
pub struct FailureCounts {
    replies: BTreeMap<Failure, u64>,
}

impl Model for FailureCounts {
    ghost use Rattle.std.specs.Prelude.{ℕ, List};
    ghost use Rattle.fleet_summary.specs.declared.facts.Failure.{Failure};
    ghost use Rattle.fleet_summary.specs.Failures.{IsFailures};

    ghost Value = { List (Failure × ℕ) };

    ghost view = { λ failures. failures.replies.entries };

    ghost invariant = { λ failures. IsFailures failures.replies.entries };
}

impl FailureCounts {
    /// No failure.
    pub fn new(alloc: Global) -> FailureCounts
        ensures { result ≡ [] }
    {
        FailureCounts {
            replies: BTreeMap::new(alloc),
        }
    }

    /// How many replies failed, by what.
    pub fn by_failure(&self) -> &BTreeMap<Failure, u64>
        ensures replies { result.now.entries ≡ self.now }
        ensures failures { IsFailures result.now.entries }
    {
        &self.replies
    }

    /// How many replies failed by one.
    pub fn at(&self, failure: &Failure) -> u64
        ensures { result ≡ failed_by self.now failure.now }
    {
        self.replies.get(failure).copied().unwrap_or(0)
    }

    /// Adds a number of replies that failed by one.
    pub fn add(&mut self, alloc: Global, failure: &Failure, replies: u64) -> Result<(), AllocError>
        ensures added { OnOk result ((other : Failure) → failed_by self.new other ≡
            capped (failed_by self.old other + (if is_eq (failure_cmp other failure.now) then replies else 0))) }
        ensures failures { IsFailures self.new }
    {
        if replies > 0 {
            let before = self.replies.get(failure).copied().unwrap_or(0);
            let own = failure.copy(alloc)?;
            self.replies.insert(own, before.saturating_add(replies))?;
        }
        Ok(())
    }

    /// Adds what one reply failed by, if it did.
    pub fn add_one(&mut self, alloc: Global, failure: Option<&Failure>) -> Result<(), AllocError>
        ensures added { OnOk result ((other : Failure) → failed_by self.new other ≡ capped (failed_by self.old other
            + option_map_or (λ own. if is_eq (failure_cmp other own) then 1 else 0) (option_copied failure.entry) 0)) }
        ensures failures { IsFailures self.new }
    {
        // With the field comes what its type says of it.
        let _ = &self.replies;
        match failure {
            Some(failure) => self.add(alloc, failure, 1),
            None => Ok(()),
        }
    }

    /// Adds those of other traces. Out of memory, a part of them may have been added.
    pub fn absorb(&mut self, alloc: Global, other: &FailureCounts) -> Result<(), AllocError>
        ensures added { OnOk result ((failure : Failure) →
            failed_by self.new failure ≡ capped (failed_by self.old failure + failed_by other.now failure)) }
        ensures failures { IsFailures self.new }
    {
        let _ = &self.replies;
        self.add_each(alloc, &other.replies)
    }

    fn add_each(
        &mut self,
        alloc: Global,
        failures: &BTreeMap<Failure, u64>,
    ) -> Result<(), AllocError>
        requires own { IsFailures self.old }
        requires failures { IsFailures failures.now.entries }
        ensures added { OnOk result ((failure : Failure) →
            failed_by self.new failure ≡ capped (failed_by self.old failure + failed_by failures.now.entries failure)) }
        ensures failures { IsFailures self.new }
    {
        for (failure, replies) in failures {
            self.add(alloc, failure, *replies)?;
        }
        Ok(())
    }
}
