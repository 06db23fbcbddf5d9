//! The slacks of all stages that a target can wait for.
ghost use Rattle.std.specs.Prelude.{◌≡◌, ◌↔◌, All, IfOk, IsOk, IsPermutation, None, filter_map};
ghost use Rattle.std.specs.List.Sorted.{IsNonDecreasingBy, IsStableByKey};
ghost use Rattle.std.specs.Ordering.{nat_cmp};
ghost use Rattle.stage_graph.specs.Plain.{stage_at, IsLive};
ghost use Rattle.level_pool.specs.Runs.{IsPlainMap};
ghost use Rattle.version_store.specs.Queries.{start_in, state_of};
ghost use Rattle.time_sweep.specs.Starts.{IsStart};
ghost use Rattle.stage_slack.specs.Found.{slack_in, Gives};
ghost use Rattle.stage_slack.specs.Slacks.{is_within, kept, order_key, slack_at, slacks, IsSlack};

use crate::search::most_ticks;
use crate::slack::Slack;
use level_pool::Runner;
use propagate::StateRepresentation;
use std::alloc::{AllocError, Global};
use time_sweep::{TrialStart, waited_for};
use version_store::{NoStage, QueryFault, Version};

/// What stands for the ticks of a slack that has no end: as many as no other has.
const NO_END: u64 = 1 << 40;

/// The tick at which the action of a stage started, if it did.
fn action_start<R: StateRepresentation>(version: &Version<R>, place: u32) -> Option<u64>
    requires { IsLive version.now.graph.places place }
    ensures { result ≡ start_in (state_of version.now.graph place) }
{
    match version.start(place) {
        Ok(start) => start,
        Err(NoStage) => unreachable!(),
    }
}

/// The slack of the stage at a place, if it has an action that started.
fn slack_at<R: StateRepresentation>(
    alloc: Global,
    version: &Version<R>,
    start: &TrialStart<'_>,
    place: u32,
) -> Result<Option<Slack>, AllocError>
    requires { IsStart version.now.graph start.now }
    ensures { Gives (slack_at version.now.graph start.now.target) place result }
{
    let Some(stage) = version.graph().stage(place) else {
        return Ok(None);
    };
    if stage.action.is_none() {
        return Ok(None);
    }
    let Some(began) = action_start(version, place) else {
        return Ok(None);
    };
    let mut changes = start.room(alloc)?;
    let ticks = most_ticks(alloc, version, start, stage, &mut changes)?;
    Ok(Some(Slack {
        place,
        ticks,
        start: began,
    }))
}

/// The slack at each of these places, or that memory ran out for it. The runner finds them beside each other.
fn tried<R: StateRepresentation, W: Runner>(
    alloc: Global,
    version: &Version<R>,
    start: &TrialStart<'_>,
    places: &[u32],
    runner: &W,
) -> Result<Vec<Result<Option<Slack>, AllocError>>, AllocError>
    requires { IsStart version.now.graph start.now }
    ensures { IfOk result (λ tried. IsPlainMap (Gives (slack_at version.now.graph start.now.target)) places.now tried.items) }
{
    let answer = runner.run(
        alloc,
        places,
        &|place: u32| -> Result<Option<Slack>, AllocError>
            requires { IsStart version.now.graph start.now }
            ensures { Gives (slack_at version.entry.now.graph start.entry.now.target) place result }
        { slack_at(alloc, version, start, place) },
    );
    match answer {
        Ok(tried) => Ok(tried),
        Err(_) => Err(AllocError),
    }
}

/// Whether these are no more ticks than the most, if any are named.
fn is_within(within: Option<u64>, ticks: Option<u64>) -> bool
    ensures { result ≡ is_within within ticks }
{
    match (within, ticks) {
        (None, _) => true,
        (Some(_), None) => false,
        (Some(most), Some(ticks)) => ticks <= most,
    }
}

/// The slack, if it is within the most ticks.
fn kept(within: Option<u64>, slack: &Option<Slack>) -> Option<Slack>
    ensures { result ≡ kept within slack.now }
{
    match slack {
        Some(slack) if is_within(within, slack.ticks) => Some(*slack),
        _ => None,
    }
}

/// The slack that was found, if it is within the most ticks, and memory didn't run out for it.
fn kept_of(
    within: Option<u64>,
    one: &Result<Option<Slack>, AllocError>,
) -> Result<Option<Slack>, AllocError>
    ensures kept { IfOk result (λ kept. kept ≡ slack_in within one.now) }
    ensures well { IfOk result (λ kept. IsOk one.now) }
{
    match one {
        Ok(slack) => Ok(kept(within, slack)),
        Err(_) => Err(AllocError),
    }
}

/// The slacks that were found, if memory ran out for none of them.
fn found_among(
    alloc: Global,
    within: Option<u64>,
    tried: Vec<Result<Option<Slack>, AllocError>>,
) -> Result<Vec<Slack>, AllocError>
    ensures found { IfOk result (λ found. found.items ≡ filter_map (slack_in within) tried.items) }
    ensures all { IfOk result (λ found. All (λ one. IsOk one) tried.items) }
{
    let mut found = Vec::new(alloc);
    for one in tried.as_slice() {
        if let Some(slack) = kept_of(within, one)? {
            found.push(slack)?;
        }
    }
    Ok(found)
}

/// The slacks, the least first.
fn least_first(mut found: Vec<Slack>) -> Result<Vec<Slack>, AllocError>
    ensures permutation { IfOk result (λ ordered. IsPermutation found.items ordered.items) }
    ensures ordered { IfOk result (λ ordered. IsNonDecreasingBy order_key ordered.items) }
    ensures by_place { IfOk result (λ ordered. IsStableByKey order_key nat_cmp found.items ordered.items) }
{
    found.sort_by_key(|slack| slack.ticks.unwrap_or(NO_END))?;
    Ok(found)
}

/// How many ticks longer the action of a stage may run before the target completes otherwise, with another outcome or at
/// another moment: of each stage that the target can wait for and whose action started, and where `within` names ticks only
/// of those that have no more. The least slack comes first, and of several that are the same the one at the least place; those
/// that have no end come last. The runner finds them beside each other.
///
/// Errors: `NoStage` where the target is not live; `Memory`.
pub fn slacks_of<R: StateRepresentation, W: Runner>(
    alloc: Global,
    version: &Version<R>,
    target: u32,
    within: Option<u64>,
    runner: &W,
) -> Result<Vec<Slack>, QueryFault>
    ensures slacks { IfOk result (λ found. found.items ≡ slacks version.now.graph target within) }
    ensures each { IfOk result (λ found. All (IsSlack version.now.graph target) found.items) }
    ensures ordered { IfOk result (λ found. IsNonDecreasingBy order_key found.items) }
    ensures no_stage { (result ≡ Err QueryFault.NoStage) ↔ (stage_at version.now.graph.places target ≡ None) }
{
    // With its length a graph says that it is sound, as every graph is.
    let _ = version.graph().len();
    let places = waited_for(alloc, version, target)?;
    let start = TrialStart::of(alloc, version, target)?;
    let tried = tried(alloc, version, &start, places.as_slice(), runner)?;
    let found = found_among(alloc, within, tried)?;
    let ordered = least_first(found)?;
    Ok(ordered)
}
