//! Which spans have two stages.
ghost use Rattle.std.specs.Prelude.{◌≡◌, ◌||◌, ℕ, IfOk, OnOk, nat_eq};
ghost use Rattle.std.specs.HashSet.{contains_by};
ghost use Rattle.std.specs.List.{list_any};
ghost use Rattle.trace_stages.specs.TwoStages.{has_two, hosts, waits};

use std::alloc::{AllocError, Global};
use std::collections::HashSet;
use trace_relations::{Host, Relations};

/// Adds the spans in which others start.
fn add_hosts(places: &mut HashSet<usize>, all: &[Host]) -> Result<(), AllocError>
    ensures { OnOk result ((place : ℕ) → contains_by (nat_eq place) places.new ≡ contains_by (nat_eq place) places.old || list_any (hosts place) all.now) }
{
    for host in all {
        if let Host::Inside(place) = host {
            places.insert(*place)?;
        }
    }
    Ok(())
}

/// Adds the spans that wait for others.
fn add_waiting(places: &mut HashSet<usize>, all: &[Option<usize>]) -> Result<(), AllocError>
    ensures { OnOk result ((place : ℕ) → contains_by (nat_eq place) places.new ≡ contains_by (nat_eq place) places.old || list_any (waits place) all.now) }
{
    for parent in all {
        if let Some(place) = parent {
            places.insert(*place)?;
        }
    }
    Ok(())
}

/// The spans that have two stages.
pub(crate) fn all_with_two(
    alloc: Global,
    hosts: &[Host],
    waiting: &[Option<usize>],
) -> Result<HashSet<usize>, AllocError>
    ensures { IfOk result (λ places. (place : ℕ) → contains_by (nat_eq place) places ≡ has_two hosts.now waiting.now place) }
{
    let mut places = HashSet::new(alloc);
    add_hosts(&mut places, hosts)?;
    add_waiting(&mut places, waiting)?;
    Ok(places)
}
