//! What is counted of one group.
ghost use Rattle.std.specs.Prelude.{◌≡◌, ◌+◌, ◌<◌, IfOk, OnOk};
ghost use Rattle.fleet_summary.specs.Histogram.{capped};
ghost use Rattle.fleet_summary.specs.GroupCounters.{GroupCounter, IsGroup, group_amount, group_facts_at};

use crate::facts::GroupFacts;
use crate::histogram::Histogram;
use crate::steps::step_of;
use std::alloc::{AllocError, Global};

/// What a group came to in traces.
#[derive(Drop)]
pub struct GroupCounts {
    /// In how many traces it is.
    pub traces: u64,
    pub spans: u64,
    /// On the paths of how many replies it is.
    pub paths: u64,
    /// By how many ticks in all the replies come sooner if it takes no time.
    pub sooner: u64,
    /// The ticks of paths in which it ran, by steps of the replies' times.
    pub ran: Histogram,
    /// The ticks of paths in which it was queued, likewise.
    pub queued: Histogram,
    /// How many of the traces' replies take how long.
    pub times: Histogram,
    /// How many of them take how long if it takes no time.
    pub times_then: Histogram,
}

impl GroupCounts {
    /// Of no trace.
    pub fn new(alloc: Global) -> GroupCounts
        ensures { (counter : GroupCounter) → group_amount result counter ≡ 0 }
    {
        GroupCounts {
            traces: 0,
            spans: 0,
            paths: 0,
            sooner: 0,
            ran: Histogram::new(alloc),
            queued: Histogram::new(alloc),
            times: Histogram::new(alloc),
            times_then: Histogram::new(alloc),
        }
    }

    /// Of one trace, whose reply took a time.
    pub fn of(alloc: Global, time: u64, facts: &GroupFacts) -> Result<GroupCounts, AllocError>
        ensures { IfOk result (λ counts. (counter : GroupCounter) → group_amount counts counter ≡ capped (group_facts_at time facts.now counter)) }
    {
        let step = step_of(time);
        let mut counts = GroupCounts::new(alloc);
        counts.traces = 1;
        counts.spans = facts.spans;
        counts.paths = u64::from(facts.is_on_path);
        counts.sooner = time.saturating_sub(facts.time_then);
        counts.ran.add(step, facts.ran)?;
        counts.queued.add(step, facts.queued)?;
        counts.times.add(step, 1)?;
        counts.times_then.add(step_of(facts.time_then), 1)?;
        Ok(counts)
    }

    /// Adds those of other traces. Out of memory, they may stand in a part of the numbers.
    pub fn absorb(&mut self, other: &GroupCounts) -> Result<(), AllocError>
        ensures added { OnOk result ((counter : GroupCounter) →
            group_amount self.new counter ≡ capped (group_amount self.old counter + group_amount other.now counter)) }
        ensures group { OnOk result (0 < other.now.traces → IsGroup self.new) }
    {
        self.ran.absorb(&other.ran)?;
        self.queued.absorb(&other.queued)?;
        self.times.absorb(&other.times)?;
        self.times_then.absorb(&other.times_then)?;
        self.traces = self.traces.saturating_add(other.traces);
        self.spans = self.spans.saturating_add(other.spans);
        self.paths = self.paths.saturating_add(other.paths);
        self.sooner = self.sooner.saturating_add(other.sooner);
        Ok(())
    }
}
