//! The trials of a stage: those by which it has a value before those by which it fails, and of either the soonest first.
ghost use Rattle.std.specs.Prelude.{◌≡◌, ◌↔◌, IfOk, None, IsPermutation};
ghost use Rattle.std.specs.List.Sorted.{IsNonDecreasingBy, IsStableByKey};
ghost use Rattle.std.specs.Ordering.{nat_cmp};
ghost use Rattle.stage_graph.specs.Plain.{stage_at};
ghost use Rattle.time_sweep.specs.Sweep.{failures, sweep, trial_moment, values, IsRanked, IsSweep};

use crate::haste::Haste;
use crate::trial::Trial;
use crate::trials::trials;
use level_pool::Runner;
use propagate::StateRepresentation;
use std::alloc::{AllocError, Global};
use version_store::{QueryFault, Version};

/// The trials by which the target has a value, in order.
pub fn values_of(mut found: Vec<Trial>) -> Vec<Trial>
    ensures { result.items ≡ values found.items }
{
    found.retain(|trial| trial.has_value());
    found
}

/// Those by which it fails, in order.
fn failures_of(mut found: Vec<Trial>) -> Vec<Trial>
    ensures { result.items ≡ failures found.items }
{
    found.retain(|trial| !trial.has_value());
    found
}

/// The trials, the soonest first.
fn soonest_first(mut found: Vec<Trial>) -> Result<Vec<Trial>, AllocError>
    ensures permutation { IfOk result (λ ordered. IsPermutation found.items ordered.items) }
    ensures ordered { IfOk result (λ ordered. IsNonDecreasingBy trial_moment ordered.items) }
    ensures by_place { IfOk result (λ ordered. IsStableByKey trial_moment nat_cmp found.items ordered.items) }
{
    found.sort_by_key(|trial| trial.moment)?;
    Ok(found)
}

/// The trials, in the order of a sweep.
fn ranked(alloc: Global, found: Vec<Trial>) -> Result<Vec<Trial>, AllocError>
    ensures { IfOk result (λ ranked. IsRanked found.items ranked.items) }
{
    let all = Vec::from_slice(alloc, found.as_slice())?;
    let failures = soonest_first(failures_of(all))?;
    let mut ranked = soonest_first(values_of(found))?;
    ranked.extend_from_slice(failures.as_slice())?;
    Ok(ranked)
}

/// For each stage whose action, if it were so much faster, would make the target complete sooner: how and when that would be.
/// Those by which the target has a value come before those by which it fails; of either the soonest comes first, and of several
/// at one tick the one at the least place. The runner makes the trials beside each other.
pub fn sweep_of<R: StateRepresentation, W: Runner>(
    alloc: Global,
    version: &Version<R>,
    target: u32,
    haste: Haste,
    runner: &W,
) -> Result<Vec<Trial>, QueryFault>
    ensures swept { IfOk result (λ found. found.items ≡ sweep version.now.graph haste target) }
    ensures sorted { IfOk result (λ found. IsSweep version.now.graph haste target found.items) }
    ensures no_stage { (result ≡ Err QueryFault.NoStage) ↔ (stage_at version.now.graph.places target ≡ None) }
{
    if version.graph().stage(target).is_none() {
        return Err(QueryFault::NoStage);
    }
    let found = trials(alloc, version, target, haste, runner)?;
    let ordered = ranked(alloc, found)?;
    Ok(ordered)
}
