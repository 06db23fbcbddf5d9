//! Groups, from their JSON.
ghost use Rattle.std.specs.Prelude.{ℕ, List, IfOk};
ghost use Rattle.serde_json.specs.View.{view};
ghost use Rattle.fleet_summary.specs.declared.group.GroupCounts.{GroupCounts};
ghost use Rattle.fleet_summary.specs.GroupCounters.{IsGroup};
ghost use Rattle.fleet_summary.specs.Groups.{IsGroups};
ghost use Rattle.fleet_text.specs.Back.{IsReadAs};
ghost use Rattle.fleet_text.specs.Says.{SaysGroup, SaysGroups};

use crate::members::{count_of, items_in, text_of};
use crate::order::is_last;
use crate::read_fault::ReadFault;
use crate::reading_histogram::histogram_of;
use fleet_summary::{GroupCounts, Groups, Name};
use serde_json::Value;
use std::alloc::Global;

/// A group, under its name.
fn group_in(alloc: Global, value: &Value) -> Result<(Name, GroupCounts), ReadFault>
    ensures sound { IfOk result (λ group. IsGroup group.1) }
    ensures said { IfOk result (SaysGroup (view value.now)) }
    ensures back { (group : List ℕ × GroupCounts) → IsGroup group.1 → SaysGroup (view value.now) group → IsReadAs result group }
{
    let name = text_of(alloc, value, "name")?;
    let counts = GroupCounts {
        traces: count_of(value, "traces")?,
        spans: count_of(value, "spans")?,
        paths: count_of(value, "paths")?,
        sooner: count_of(value, "sooner")?,
        ran: histogram_of(alloc, value, "ran")?,
        queued: histogram_of(alloc, value, "queued")?,
        times: histogram_of(alloc, value, "times")?,
        times_then: histogram_of(alloc, value, "timesThen")?,
    };
    if counts.traces > 0 {
        Ok((name, counts))
    } else {
        Err(ReadFault::Unsound)
    }
}

/// The groups.
pub(crate) fn groups_in(alloc: Global, value: &Value) -> Result<Groups, ReadFault>
    ensures sound { IfOk result IsGroups }
    ensures said { IfOk result (SaysGroups (view value.now)) }
    ensures back { (groups : List (List ℕ × GroupCounts)) → IsGroups groups → SaysGroups (view value.now) groups → IsReadAs result groups }
{
    let values = items_in(value)?;
    let mut groups = Groups::new(alloc);
    for group in values {
        let (name, counts) = group_in(alloc, group)?;
        if !is_last(groups.by_name(), &name) {
            return Err(ReadFault::Unsound);
        }
        groups.add(alloc, &name, &counts)?;
    }
    Ok(groups)
}
