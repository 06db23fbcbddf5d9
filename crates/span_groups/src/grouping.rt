//! Which stages count to which group.
ghost use Rattle.std.specs.Prelude.{◌≡◌, option_copied};
ghost use Rattle.span_groups.specs.Grouping.{counted_at, counts_to, name_at, works_for};

use crate::making::StageOf;
use fleet_summary::Name;

/// Spans of a trace that are counted together.
#[derive(Drop)]
pub struct Group {
    /// The name of the group in each trace that has it.
    pub name: Name,
    /// How many spans it has.
    pub spans: u64,
}

/// To which group a stage counts.
#[derive(Clone, Copy, Debug, PartialEq, Eq)]
pub struct Counted {
    /// The group's number.
    pub group: usize,
    /// What the stage is to a span of the group.
    pub stage: StageOf,
}

/// The groups of a trace, and what the stage at each place counts to.
#[derive(Drop)]
pub struct Grouping {
    pub groups: Vec<Group>,
    pub stages: Vec<Option<Counted>>,
}

/// What the stage at a place counts to, if it counts to a group.
pub fn counted_at(stages: &[Option<Counted>], place: u32) -> Option<Counted>
    ensures { result ≡ counted_at stages.now place }
{
    match stages.get(place as usize) {
        Some(counted) => *counted,
        None => None,
    }
}

/// Whether the stage at a place counts to the group of a number.
pub fn counts_to(stages: &[Option<Counted>], group: usize, place: u32) -> bool
    ensures { result ≡ counts_to stages.now group place }
{
    match counted_at(stages, place) {
        Some(counted) => counted.group == group,
        None => false,
    }
}

/// Whether the stage at a place is work of the group of a number: whether it takes no time where the group takes none.
pub fn works_for(stages: &[Option<Counted>], group: usize, place: u32) -> bool
    ensures { result ≡ works_for stages.now group place }
{
    match counted_at(stages, place) {
        Some(counted) => counted.group == group && counted.stage.is_work,
        None => false,
    }
}

impl Grouping {
    /// The name of the group to which the stage at a place counts, if it counts to one.
    pub fn name_at(&self, place: u32) -> Option<&Name>
        ensures { option_copied result ≡ name_at self.now place }
    {
        let counted = counted_at(self.stages.as_slice(), place)?;
        let group = self.groups.get(counted.group)?;
        Some(&group.name)
    }
}
