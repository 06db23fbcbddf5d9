//! What is counted of each group.
ghost use Rattle.std.specs.Prelude.{◌≡◌, ℕ, ◌+◌, ◌<◌, if◌then◌else◌, List, [], None, OnOk, option_copied};
ghost use Rattle.std.specs.BTreeMap.{Updates, is_at};
ghost use Rattle.std.specs.Map.{lookup};
ghost use Rattle.std.specs.Ordering.{is_eq};
ghost use Rattle.fleet_summary.specs.Histogram.{capped};
ghost use Rattle.fleet_summary.specs.GroupCounters.{GroupCounter, group_amount};
ghost use Rattle.fleet_summary.specs.Groups.{IsGroups, amount_of, facts_of};
ghost use Rattle.fleet_summary.specs.Names.{name_cmp};

use crate::facts::GroupFacts;
use crate::group::GroupCounts;
use crate::name::Name;
use std::alloc::{AllocError, Global};
use std::collections::BTreeMap;
use std::marker::Model;

/// What each group came to in traces, by the groups' names.
#[derive(Drop)]
pub struct Groups {
    counts: BTreeMap<Name, GroupCounts>,
}

impl Model for Groups {
    ghost use Rattle.std.specs.Prelude.{ℕ, List};
    ghost use Rattle.fleet_summary.specs.declared.group.GroupCounts.{GroupCounts};
    ghost use Rattle.fleet_summary.specs.Groups.{IsGroups};

    ghost Value = { List (List ℕ × GroupCounts) };

    ghost view = { λ groups. groups.counts.entries };

    ghost invariant = { λ groups. IsGroups groups.counts.entries };
}

impl Groups {
    /// No group.
    pub fn new(alloc: Global) -> Groups
        ensures { result ≡ [] }
    {
        Groups {
            counts: BTreeMap::new(alloc),
        }
    }

    /// What the groups came to, by their names.
    pub fn by_name(&self) -> &BTreeMap<Name, GroupCounts>
        ensures counts { result.now.entries ≡ self.now }
        ensures groups { IsGroups result.now.entries }
    {
        &self.counts
    }

    /// What a group came to, if it is in a trace.
    pub fn get(&self, name: &Name) -> Option<&GroupCounts>
        ensures { option_copied result ≡ lookup (is_at (name_cmp name.now)) self.now }
    {
        self.counts.get(name)
    }

    /// Adds what a group came to in other traces. Out of memory, what it came to may be lost.
    pub fn add(
        &mut self,
        alloc: Global,
        name: &Name,
        counts: &GroupCounts,
    ) -> Result<(), AllocError>
        requires { 0 < counts.now.traces }
        ensures added { OnOk result ((other : List ℕ) (counter : GroupCounter) → amount_of self.new other counter ≡
            capped (amount_of self.old other counter + (if is_eq (name_cmp other name.now) then group_amount counts.now counter else 0))) }
        ensures groups { IsGroups self.new }
    {
        let mut own = taken(alloc, &mut self.counts, name);
        own.absorb(counts)?;
        let name = name.copy(alloc)?;
        self.counts.insert(name, own)?;
        Ok(())
    }

    /// Adds what the groups of one trace came to, whose reply took a time. Out of memory, a part of them may be lost.
    pub fn add_facts(
        &mut self,
        alloc: Global,
        time: u64,
        facts: &[GroupFacts],
    ) -> Result<(), AllocError>
        ensures added { OnOk result ((name : List ℕ) (counter : GroupCounter) →
            amount_of self.new name counter ≡ capped (amount_of self.old name counter + facts_of time facts.now name counter)) }
        ensures groups { IsGroups self.new }
    {
        // With the field comes what its type says of it.
        let _ = &self.counts;
        for group in facts {
            let counts = GroupCounts::of(alloc, time, group)?;
            self.add(alloc, &group.name, &counts)?;
        }
        Ok(())
    }

    /// Adds what the groups of other traces came to. Out of memory, a part of them may be lost.
    pub fn absorb(&mut self, alloc: Global, other: &Groups) -> Result<(), AllocError>
        ensures added { OnOk result ((name : List ℕ) (counter : GroupCounter) →
            amount_of self.new name counter ≡ capped (amount_of self.old name counter + amount_of other.now name counter)) }
        ensures groups { IsGroups self.new }
    {
        let _ = &self.counts;
        self.add_each(alloc, &other.counts)
    }

    fn add_each(
        &mut self,
        alloc: Global,
        groups: &BTreeMap<Name, GroupCounts>,
    ) -> Result<(), AllocError>
        requires own { IsGroups self.old }
        requires groups { IsGroups groups.now.entries }
        ensures added { OnOk result ((name : List ℕ) (counter : GroupCounter) →
            amount_of self.new name counter ≡ capped (amount_of self.old name counter + amount_of groups.now.entries name counter)) }
        ensures groups { IsGroups self.new }
    {
        for (name, counts) in groups {
            self.add(alloc, name, counts)?;
        }
        Ok(())
    }
}

// What is counted of a group, which is then counted no more.
fn taken(alloc: Global, groups: &mut BTreeMap<Name, GroupCounts>, name: &Name) -> GroupCounts
    requires { IsGroups groups.old.entries }
    ensures taken { (counter : GroupCounter) → group_amount result counter ≡ amount_of groups.old.entries name.now counter }
    ensures others { Updates name_cmp groups.old groups.new name.now None }
    ensures groups { IsGroups groups.new.entries }
{
    match groups.remove(name) {
        Some(own) => own,
        None => GroupCounts::new(alloc),
    }
}
