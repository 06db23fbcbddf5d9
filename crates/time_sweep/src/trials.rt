//! All trials of a stage.
ghost use Rattle.std.specs.Prelude.{◌≡◌, ◌≤◌, All, IfOk, IsOk, None, true, false, OnOk, filter_map, length};
ghost use Rattle.std.specs.List.{range_with_len, flat_map};
ghost use Rattle.stage_graph.specs.Plain.{IsLive};
ghost use Rattle.level_pool.specs.Runs.{IsPlainMap};
ghost use Rattle.time_sweep.specs.Sweep.{completion_of, sooner_trial, trial_at, trials};
ghost use Rattle.time_sweep.specs.Known.{AreRanksFor};
ghost use Rattle.time_sweep.specs.Starts.{IsStart};
ghost use Rattle.time_sweep.specs.Tried.{part_of, trials_in, AreParts, GiveAll};

use crate::ancestors::ranks_of;
use crate::as_it_is::completion_of;
use crate::changes::Changes;
use crate::haste::Haste;
use crate::known::known_rank;
use crate::parts::{Parts, part_of, size_of_parts};
use crate::trial::Trial;
use crate::trial_start::TrialStart;
use level_pool::{OneThread, Plan, Runner};
use propagate::StateRepresentation;
use stage_ops::Done;
use std::alloc::{AllocError, Global};
use version_store::Version;

/// The fewest trials for which a runner that chooses the number of its threads may start any. Of fewer only a chain's would be made
/// sooner by threads.
const LEAST_FOR_THREADS: usize = 512;

/// A trial by which a stage would complete sooner.
fn sooner_trial(place: u32, old: &Option<Done>, new: &Option<Done>) -> Option<Trial>
    ensures { result ≡ sooner_trial place old.now new.now }
{
    match (old, new) {
        (Some(old), Some(new)) if new.moment < old.moment => Some(Trial {
            place,
            outcome: new.outcome,
            moment: new.moment,
        }),
        _ => None,
    }
}

/// Whether a stage is pending in the version.
fn is_pending<R: StateRepresentation>(version: &Version<R>, target: u32) -> bool
    requires { IsLive version.now.graph.places target }
    ensures { result ≡ true → completion_of version.now.graph target ≡ None }
{
    completion_of(version, target).is_none()
}

/// The trial at a place, where a stage with an action stands there and the target would complete sooner.
fn trial_at<R: StateRepresentation>(
    alloc: Global,
    version: &Version<R>,
    start: &TrialStart<'_>,
    haste: Haste,
    place: u32,
    changes: &mut Changes,
) -> Result<Option<Trial>, AllocError>
    requires start { IsStart version.now.graph start.now }
    requires room { length changes.old.at.items ≡ length start.now.before.items }
    ensures room { OnOk result (length changes.new.at.items ≡ length start.now.before.items) }
    ensures trial { IfOk result (λ trial. trial ≡ trial_at version.now.graph haste start.now.target place) }
{
    let Some(stage) = version.graph().stage(place) else {
        return Ok(None);
    };
    if stage.action.is_none() {
        return Ok(None);
    }
    let fast = haste.hastened(stage)?;
    let old = completion_of(version, start.target);
    let new = start.completion_with(alloc, version, &fast, changes)?;
    Ok(sooner_trial(place, &old, &new))
}

/// Whether a trial has to be made at a place: where a stage with an action stands that doesn't stay as it is, and whose rank is
/// known, as it is wherever the target can wait for the stage.
fn is_tried<R: StateRepresentation>(
    version: &Version<R>,
    ranks: &[Option<u32>],
    target: u32,
    haste: Haste,
    place: u32,
) -> bool
    requires { AreRanksFor version.now.graph.places target ranks.now }
    ensures { result ≡ false → trial_at version.now.graph haste target place ≡ None }
{
    let graph = version.graph();
    // With its length a graph says that it is sound, as every graph is.
    let _ = graph.len();
    if known_rank(ranks, place).is_none() {
        return false;
    }
    let Some(stage) = graph.stage(place) else {
        return false;
    };
    if stage.action.is_none() {
        return false;
    }
    !haste.keeps(stage)
}

/// The places at which a trial has to be made, in order.
fn tried_places<R: StateRepresentation>(
    alloc: Global,
    version: &Version<R>,
    ranks: &[Option<u32>],
    target: u32,
    haste: Haste,
) -> Result<Vec<u32>, AllocError>
    requires { AreRanksFor version.now.graph.places target ranks.now }
    ensures trials { IfOk result (λ places. filter_map (trial_at version.now.graph haste target) places.items ≡ trials version.now.graph haste target) }
    ensures few { IfOk result (λ places. length places.items ≤ 65536) }
{
    let mut places = Vec::new(alloc);
    for place in 0..version.graph().len() as u32 {
        if is_tried(version, ranks, target, haste, place) {
            places.push(place)?;
        }
    }
    Ok(places)
}

/// The numbers from 0 up to a count of trials.
fn numbers(alloc: Global, count: u32) -> Result<Vec<u32>, AllocError>
    ensures { IfOk result (λ numbers. numbers.items ≡ range_with_len 0 count) }
{
    let mut numbers = Vec::with_capacity(alloc, count as usize)?;
    for number in 0..count {
        numbers.push(number)?;
    }
    Ok(numbers)
}

/// The trials at some places, made one after the other: none of them keeps anything but what it found.
fn trials_among<R: StateRepresentation>(
    alloc: Global,
    version: &Version<R>,
    start: &TrialStart<'_>,
    haste: Haste,
    places: &[u32],
) -> Result<Vec<Trial>, AllocError>
    requires { IsStart version.now.graph start.now }
    ensures { IfOk result (λ found. found.items ≡ filter_map (trial_at version.now.graph haste start.now.target) places.now) }
{
    // Where no part begins no trials are made, and no list of changes.
    if places.is_empty() {
        return Ok(Vec::new(alloc));
    }
    let mut changes = start.room(alloc)?;
    let mut found = Vec::new(alloc);
    for place in places {
        if let Some(trial) = trial_at(alloc, version, start, haste, *place, &mut changes)? {
            found.push(trial)?;
        }
    }
    Ok(found)
}

/// The trials that are made at the trial of this number.
fn trials_of_part<R: StateRepresentation>(
    alloc: Global,
    version: &Version<R>,
    parts: &Parts<'_>,
    number: u32,
) -> Result<Vec<Trial>, AllocError>
    requires { AreParts version.now.graph parts.now }
    ensures { GiveAll (λ number. filter_map (trial_at version.now.graph parts.now.haste parts.now.start.target) (part_of parts.now.places.items parts.now.size number)) number result }
{
    let places = part_of(parts.places.as_slice(), parts.size, number);
    trials_among(alloc, version, &parts.start, parts.haste, places)
}

/// What is made at each of these numbers of trials, or that memory ran out for it. The runner makes them beside each other.
fn tried<R: StateRepresentation, W: Runner>(
    alloc: Global,
    version: &Version<R>,
    parts: &Parts<'_>,
    numbers: &[u32],
    runner: &W,
) -> Result<Vec<Result<Vec<Trial>, AllocError>>, AllocError>
    requires { AreParts version.now.graph parts.now }
    ensures { IfOk result (λ tried. IsPlainMap (GiveAll (λ number. filter_map (trial_at version.now.graph parts.now.haste parts.now.start.target) (part_of parts.now.places.items parts.now.size number))) numbers.now tried.items) }
{
    let answer = runner.run(
        alloc,
        numbers,
        &|number: u32| -> Result<Vec<Trial>, AllocError>
            requires { AreParts version.now.graph parts.now }
            ensures { GiveAll (λ number. filter_map (trial_at version.entry.now.graph parts.entry.now.haste parts.entry.now.start.target) (part_of parts.entry.now.places.items parts.entry.now.size number)) number result }
        { trials_of_part(alloc, version, parts, number) },
    );
    match answer {
        Ok(tried) => Ok(tried),
        Err(_) => Err(AllocError),
    }
}

/// The same, with no thread for few trials where the runner leaves open how many it starts.
fn tried_by<R: StateRepresentation, W: Runner>(
    alloc: Global,
    version: &Version<R>,
    parts: &Parts<'_>,
    numbers: &[u32],
    runner: &W,
) -> Result<Vec<Result<Vec<Trial>, AllocError>>, AllocError>
    requires { AreParts version.now.graph parts.now }
    ensures { IfOk result (λ tried. IsPlainMap (GiveAll (λ number. filter_map (trial_at version.now.graph parts.now.haste parts.now.start.target) (part_of parts.now.places.items parts.now.size number))) numbers.now tried.items) }
{
    match runner.plan() {
        Plan::Pooled { rt } => {
            if numbers.len() < LEAST_FOR_THREADS {
                return tried(alloc, version, parts, numbers, &OneThread::new(rt));
            }
        }
        Plan::OneThread { gate: _ } => {}
        Plan::Scoped {
            rt: _,
            workers: _,
            gate: _,
        } => {}
    }
    tried(alloc, version, parts, numbers, runner)
}

/// The trials that were found, if memory ran out for none of the pieces.
fn found_among(
    alloc: Global,
    tried: &[Result<Vec<Trial>, AllocError>],
) -> Result<Vec<Trial>, AllocError>
    ensures found { IfOk result (λ found. found.items ≡ flat_map trials_in tried.now) }
    ensures all { IfOk result (λ found. All (λ one. IsOk one) tried.now) }
{
    let mut found = Vec::new(alloc);
    for one in tried {
        match one {
            Ok(trials) => found.extend_from_slice(trials.as_slice())?,
            Err(_) => return Err(AllocError),
        }
    }
    Ok(found)
}

/// All trials by which the target would complete sooner, by place.
pub(crate) fn trials<R: StateRepresentation, W: Runner>(
    alloc: Global,
    version: &Version<R>,
    target: u32,
    haste: Haste,
    runner: &W,
) -> Result<Vec<Trial>, AllocError>
    requires { IsLive version.now.graph.places target }
    ensures { IfOk result (λ found. found.items ≡ trials version.now.graph haste target) }
{
    // A stage that is pending completes no sooner.
    if is_pending(version, target) {
        return Ok(Vec::new(alloc));
    }
    let ranks = ranks_of(alloc, version, target)?;
    let places = tried_places(alloc, version, ranks.as_slice(), target, haste)?;
    // Without trials no states are needed.
    if places.is_empty() {
        return Ok(Vec::new(alloc));
    }
    let start = TrialStart::with_ranks(alloc, version, target, ranks)?;
    let size = size_of_parts(places.len());
    // A runner judges by the number of its pieces in how many threads it makes them. So there is one for each trial, and the
    // first of a part makes the part's trials, over one list of changes.
    let numbers = numbers(alloc, places.len() as u32)?;
    let parts = Parts {
        start,
        places,
        size,
        haste,
    };
    let tried = tried_by(alloc, version, &parts, numbers.as_slice(), runner)?;
    found_among(alloc, tried.as_slice())
}
