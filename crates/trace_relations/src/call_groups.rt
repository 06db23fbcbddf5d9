//! Calls of one caller to the same, in groups.
ghost use Rattle.std.specs.Prelude.{◌≡◌, ◌++◌, [], ◌∷◌, ℕ, List, Bool, IfOk, OnOk, length};
ghost use Rattle.std.specs.List.Sorted.{IsNonDecreasingBy};
ghost use Rattle.trace_relations.specs.Ancestry.{start_at};
ghost use Rattle.trace_relations.specs.Attempts.{Attempts, CallsOf, first_try, tried_once, with_try};
ghost use Rattle.trace_relations.specs.ByStart.{AreInTurn};
ghost use Rattle.trace_relations.specs.FreePlaces.{AreFree};
ghost use Rattle.trace_relations.specs.GroupTakes.{HasTaken, IsFirstAfter, starts_after};
ghost use Rattle.trace_relations.specs.Groupings.{IsFreeGroup, number_in};
ghost use Rattle.trace_relations.specs.Groups.{AreGroups, IsFailed};
ghost use Rattle.trace_relations.specs.KeptAttempts.{calls_with};
ghost use Rattle.trace_relations.specs.Moments.{end_moment, interval_at};

use crate::attempts::Calls;
use crate::free_places::FreePlaces;
use crate::group_keys::{failing_callers, group_key};
use crate::grouping::Grouping;
use crate::moment::{Interval, Moment, interval_at};
use std::alloc::{AllocError, Global};

/// Calls of one caller to the same, in the order of starts, and which of them try no other.
#[derive(Drop)]
pub(crate) struct Group {
    calls: Vec<usize>,
    free: FreePlaces,
}

/// The groups of the calls that have callers of which a call failed.
#[derive(Drop)]
pub(crate) struct Groups {
    pub groups: Vec<Group>,
    /// In which group each span is.
    pub of_spans: Vec<Option<usize>>,
}

/// The groups of calls, in the order of starts.
pub(crate) fn groups_of(
    alloc: Global,
    calls: Calls<'_>,
    order: &[usize],
) -> Result<Groups, AllocError>
    ensures { IfOk result (AreGroups (calls_with calls.entry) order.now tried_once) }
{
    let failing = failing_callers(alloc, calls)?;
    let mut grouping = Grouping::new(alloc, calls.spans.len())?;
    for place in order {
        let key = group_key(alloc, calls, &failing, *place)?;
        grouping.add(alloc, key, *place)?;
    }
    Ok(grouping.into_groups())
}

/// Whether a call starts after a moment.
fn starts_after(intervals: &[Interval], end: Moment, call: usize) -> bool
    ensures { result ≡ starts_after intervals.now end call }
{
    end.is_before(interval_at(intervals, call).start_moment())
}

impl Group {
    /// A group of no calls.
    pub(crate) fn new(alloc: Global) -> Group
        ensures calls { result.calls.items ≡ [] }
        ensures free { IsFreeGroup result }
    {
        Group {
            calls: Vec::new(alloc),
            free: FreePlaces::new(alloc),
        }
    }

    /// Adds a call, which tries no other.
    pub(crate) fn add(&mut self, call: usize) -> Result<(), AllocError>
        ensures calls { OnOk result (self.new.calls.items ≡ self.old.calls.items ++ call ∷ []) }
        ensures free { IsFreeGroup self.old → OnOk result (IsFreeGroup self.new) }
    {
        self.calls.push(call)?;
        self.free.add()?;
        Ok(())
    }

    /// The number of the first call that starts after a moment.
    fn first_after(&self, intervals: &[Interval], end: Moment) -> usize
        ensures { IsNonDecreasingBy (start_at intervals.now) self.now.calls.items → IsFirstAfter intervals.now end self.now.calls.items result }
    {
        self.calls
            .partition_point(|call| !starts_after(intervals, end, *call))
    }

    /// Takes the first call that starts after a moment and tries no other.
    fn take_after(&mut self, intervals: &[Interval], end: Moment) -> Option<usize>
        ensures calls { self.new.calls.items ≡ self.old.calls.items }
        ensures taken { (free : ℕ → Bool) → IsNonDecreasingBy (start_at intervals.now) self.old.calls.items → AreFree self.old.free (length self.old.calls.items) free → HasTaken intervals.now end free self.old.calls.items result self.new.free }
    {
        let from = self.first_after(intervals, end);
        let number = self.free.take_from(from)?;
        self.calls.get(number).copied()
    }
}

impl Groups {
    /// The number of the group of a call.
    fn number_of(&self, call: usize) -> Option<usize>
        ensures { result ≡ number_in self.now.of_spans.items call }
    {
        match self.of_spans.get(call) {
            Some(number) => *number,
            None => None,
        }
    }

    /// Takes the call that tries another again, which has ended: the first of its group that starts after it and tries no
    /// other.
    pub(crate) fn take_after(
        &mut self,
        intervals: &[Interval],
        call: usize,
        end: Option<Moment>,
    ) -> Option<usize>
        requires { end ≡ end_moment (interval_at intervals.now call) }
        ensures first { (calls : CallsOf) (order : List ℕ) (attempts : Attempts) → calls.intervals ≡ intervals.now → AreInTurn intervals.now order → AreGroups calls order attempts self.old → IsFailed calls order call → result ≡ first_try calls order attempts call }
        ensures taken { (calls : CallsOf) (order : List ℕ) (attempts : Attempts) → calls.intervals ≡ intervals.now → AreInTurn intervals.now order → AreGroups calls order attempts self.old → IsFailed calls order call → AreGroups calls order (with_try attempts call result) self.new }
    {
        let end = end?;
        let number = self.number_of(call)?;
        let count = self.groups.len();
        if count <= number {
            return None;
        }
        self.groups[number].take_after(intervals, end)
    }
}
