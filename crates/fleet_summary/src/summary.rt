//! What the replies of traces came to.
ghost use Rattle.std.specs.Prelude.{◌≡◌, ◌+◌, IfOk, OnOk};
ghost use Rattle.fleet_summary.specs.Histogram.{capped};
ghost use Rattle.fleet_summary.specs.Counters.{IsSound, IsSummaryJoin, Counter, amount, facts_at};

use crate::facts::TraceFacts;
use crate::failures::FailureCounts;
use crate::groups::Groups;
use crate::replies::Replies;
use std::alloc::{AllocError, Global};

/// What the replies of traces came to, each trace counted once.
///
/// Summaries of parts of the traces are joined, in any order: each number is the sum of those of the parts, and ends at
/// 2^64 - 1.
#[derive(Drop)]
pub struct Summary {
    pub replies: Replies,
    pub groups: Groups,
    pub failures: FailureCounts,
}

impl Summary {
    /// Of no trace.
    pub fn new(alloc: Global) -> Summary
        ensures none { (counter : Counter) → amount result counter ≡ 0 }
        ensures sound { IsSound result }
    {
        Summary {
            replies: Replies::new(alloc),
            groups: Groups::new(alloc),
            failures: FailureCounts::new(alloc),
        }
    }

    /// Of one trace.
    pub fn of(alloc: Global, facts: &TraceFacts) -> Result<Summary, AllocError>
        ensures of { IfOk result (λ summary. (counter : Counter) → amount summary counter ≡ capped (facts_at facts.now counter)) }
        ensures sound { IfOk result IsSound }
    {
        let mut summary = Summary::new(alloc);
        summary.add(alloc, facts)?;
        Ok(summary)
    }

    /// Histogram one more trace. Out of memory, it may be counted in part, and what a group came to be lost.
    pub fn add(&mut self, alloc: Global, facts: &TraceFacts) -> Result<(), AllocError>
        ensures added { OnOk result ((counter : Counter) → amount self.new counter ≡ capped (amount self.old counter + facts_at facts.now counter)) }
        ensures sound { OnOk result (IsSound self.new) }
    {
        self.replies.add(facts.time, facts.failure.is_some())?;
        self.groups.add_facts(alloc, facts.time, &facts.groups)?;
        self.failures.add_one(alloc, facts.failure.as_ref())?;
        Ok(())
    }

    /// Histogram the traces of another too. Out of memory, they may be counted in part, and what a group came to be lost.
    pub fn absorb(&mut self, alloc: Global, other: &Summary) -> Result<(), AllocError>
        ensures joined { OnOk result (IsSummaryJoin self.old other.now self.new) }
        ensures sound { OnOk result (IsSound self.new) }
    {
        self.replies.absorb(&other.replies)?;
        self.groups.absorb(alloc, &other.groups)?;
        self.failures.absorb(alloc, &other.failures)?;
        Ok(())
    }

    /// Both, joined.
    pub fn join(&self, alloc: Global, other: &Summary) -> Result<Summary, AllocError>
        ensures joined { IfOk result (IsSummaryJoin self.now other.now) }
        ensures sound { IfOk result IsSound }
    {
        let mut joined = Summary::new(alloc);
        joined.absorb(alloc, self)?;
        joined.absorb(alloc, other)?;
        Ok(joined)
    }
}
