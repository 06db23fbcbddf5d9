//! The groups of some names, and the number of each name's.
ghost use Rattle.std.specs.Prelude.{◌≡◌, ◌+◌, ◌++◌, ◌∷◌, [], ℕ, List, Some, IfOk, OnOk, if◌then◌else◌, is_some, slice_get, slice_set};
ghost use Rattle.std.specs.Option.{option_map_or};
ghost use Rattle.fleet_summary.specs.Histogram.{capped};
ghost use Rattle.span_groups.specs.declared.grouping.Group.{Group};
ghost use Rattle.span_groups.specs.Grouping.{name_of};
ghost use Rattle.span_groups.specs.Groups.{empty_group, number_known, AreKnown, IsOfNames};

use crate::grouping::Group;
use fleet_summary::Name;
use std::alloc::{AllocError, Global};
use std::collections::BTreeMap;

/// Groups of names so far.
#[derive(Drop)]
pub(crate) struct NamedGroups {
    /// The numbers of the groups, by their names.
    known: BTreeMap<Name, usize>,
    pub(crate) groups: Vec<Group>,
    /// The number of the group of each name.
    pub(crate) numbers: Vec<usize>,
}

/// The number of the group of a name, which is made where there is none, with no span yet.
fn number_of(
    alloc: Global,
    known: &mut BTreeMap<Name, usize>,
    groups: &mut Vec<Group>,
    name: &Name,
) -> Result<usize, AllocError>
    requires { AreKnown known.old.entries groups.old.items }
    ensures known { OnOk result (AreKnown known.new.entries groups.new.items) }
    ensures groups { OnOk result (groups.new.items ≡ (if is_some (number_known known.old.entries name.now)
        then groups.old.items else groups.old.items ++ empty_group name.now ∷ [])) }
    ensures number { IfOk result (λ number. name_of groups.new.items number ≡ Some name.now) }
{
    if let Some(number) = known.get(name) {
        return Ok(*number);
    }
    let number = groups.len();
    let own = name.copy(alloc)?;
    let shown = name.copy(alloc)?;
    groups.push(Group {
        name: shown,
        spans: 0,
    })?;
    known.insert(own, number)?;
    Ok(number)
}

/// Counts one more span to the group of a number.
fn count_span(groups: &mut Vec<Group>, number: usize)
    ensures { groups.new.items ≡ option_map_or (λ (group : Group). slice_set groups.old.items number (record group { spans = capped (group.spans + 1) }))
        (slice_get groups.old.items number) groups.old.items }
{
    if number < groups.len() {
        groups[number].spans = groups[number].spans.saturating_add(1);
    }
}

impl NamedGroups {
    /// Of no name.
    pub(crate) fn new(alloc: Global) -> NamedGroups
        ensures { IsOfNames [] result }
    {
        NamedGroups {
            known: BTreeMap::new(alloc),
            groups: Vec::new(alloc),
            numbers: Vec::new(alloc),
        }
    }

    /// With one name more.
    pub(crate) fn add(&mut self, alloc: Global, name: &Name) -> Result<(), AllocError>
        requires { AreKnown self.old.known.entries self.old.groups.items }
        ensures { OnOk result ((names : List (List ℕ)) → IsOfNames names self.old → IsOfNames (names ++ name.now ∷ []) self.new) }
    {
        let number = number_of(alloc, &mut self.known, &mut self.groups, name)?;
        // With its length a list says how long it is at most, and so how many spans a group has.
        let _ = self.numbers.len();
        self.numbers.push(number)?;
        count_span(&mut self.groups, number);
        Ok(())
    }
}

/// The groups of some names, one of each, and the number of each name's.
pub(crate) fn groups_of(alloc: Global, names: &[Name]) -> Result<NamedGroups, AllocError>
    ensures { IfOk result (IsOfNames names.now) }
{
    let mut groups = NamedGroups::new(alloc);
    for name in names {
        groups.add(alloc, name)?;
    }
    Ok(groups)
}
