//! How a target completes in the graph in which other stages stand at some places: changed ones, which keep their names and
//! their feeds.
ghost use Rattle.std.specs.Prelude.{◌≡◌, ◌+◌, ◌<◌, ◌≤◌, ◌||◌, ◌&&◌, ◌==◌, ◌^◌, ℕ, true, All, IfOk, OnOk, Some, IfNone, IfSome, is_some, not, length, option_copied, slice_set, ◌++◌, ◌∷◌, []};
ghost use Rattle.stage_graph.specs.Plain.{stage_at, feeds_at, dependents, IsLive};
ghost use Rattle.stage_graph.specs.Sound.{IsSoundStage};
ghost use Rattle.stage_graph.specs.Walk.{rank};
ghost use Rattle.rank_order.specs.Lists.{is_among};
ghost use Rattle.stage_ops.specs.Among.{IsSoundAmong};
ghost use Rattle.stage_ops.specs.Evaluation.{at};
ghost use Rattle.stage_ops.specs.Java.{java_step};
ghost use Rattle.stage_ops.specs.States.{seen_of, state_at, IsBy};
ghost use Rattle.rank_order.specs.Marks.{is_marked, AreMarks};
ghost use Rattle.propagate.specs.Completions.{differ};
ghost use Rattle.propagate.specs.Reach.{come_to, has_read, AreStates};
ghost use Rattle.time_sweep.specs.Changed.{state_in, states_in, IsEachOnce};
ghost use Rattle.time_sweep.specs.HandedOn.{handed_at, AreHandedOn, IsDoneByOne};
ghost use Rattle.time_sweep.specs.Known.{is_below, rank_in, AreRanksFor, IsKnown};
ghost use Rattle.time_sweep.specs.Standing.{AreStanding};
ghost use Rattle.time_sweep.specs.Sweep.{completion_of};
ghost use Rattle.time_sweep.specs.WithStage.{with_stages, AreFitting};

use crate::changed::{first_marks, stage_among};
use crate::changes::{Changes, Now};
use crate::known::{done_in, handed_at, known_rank, reads_in};
use crate::sooner::{sooner_done, ticks_sooner};
use crate::standing::{Standing, standing_at};
use propagate::{KeptState, StateRepresentation, has_read};
use rank_order::Marks;
use stage_graph::{Graph, Stage};
use stage_ops::{Done, JavaOps, Meter, Reads, StageOps};
use std::alloc::{AllocError, Global};
use version_store::Version;

/// The marker of the meter of a trial.
#[derive(Drop)]
pub(crate) struct OneTrial;

/// The stage at a place whose rank is known.
#[inline(always)]
pub(crate) fn stage_at<'a, R: StateRepresentation>(
    version: &Version<R>,
    ranks: &[Option<u32>],
    standing: &[Option<Standing<'a>>],
    place: u32,
) -> Option<&'a Stage>
    requires known { IsKnown ranks.now place }
    requires standing { AreStanding version.now.graph.places ranks.now standing.now }
    ensures stage { option_copied result ≡ stage_at version.now.graph.places place }
    ensures sound { IfSome result (λ stage. IsSoundStage version.now.graph.places place stage.now) }
{
    match standing_at(standing, place) {
        Some(one) => Some(one.stage),
        None => None,
    }
}

/// The dependents of a stage whose rank is known.
#[inline(always)]
pub(crate) fn dependents_of<'a, R: StateRepresentation>(
    version: &Version<R>,
    ranks: &[Option<u32>],
    standing: &[Option<Standing<'a>>],
    place: u32,
) -> &'a [u32]
    requires live { IsLive version.now.graph.places place }
    requires known { IsKnown ranks.now place }
    requires standing { AreStanding version.now.graph.places ranks.now standing.now }
    ensures { result.now ≡ dependents version.now.graph.places place }
{
    match standing_at(standing, place) {
        Some(one) => one.dependents,
        None => unreachable!(),
    }
}

/// Whether the stage at a place whose rank is known has read one of its feeds in the version.
fn is_reader<R: StateRepresentation>(
    version: &Version<R>,
    before: &[KeptState],
    ranks: &[Option<u32>],
    standing: &[Option<Standing<'_>>],
    feed: u32,
    place: u32,
) -> bool
    requires feed { is_among feed (feeds_at version.now.graph.places place) ≡ true }
    requires known { IsKnown ranks.now place }
    requires standing { AreStanding version.now.graph.places ranks.now standing.now }
    ensures { result ≡ has_read version.now.graph.places (state_at before.now) feed place }
{
    let reads = reads_in(before, place);
    // A stage with both pins reads nothing.
    if let Reads::Nothing = reads {
        return false;
    }
    match stage_at(version, ranks, standing, place) {
        Some(stage) => has_read(stage, reads, feed),
        None => false,
    }
}

/// The rank of a dependent of a place, if the rank is known and the dependent has read the place.
pub(crate) fn reader_rank<R: StateRepresentation>(
    version: &Version<R>,
    before: &[KeptState],
    ranks: &[Option<u32>],
    standing: &[Option<Standing<'_>>],
    place: u32,
    dependent: u32,
) -> Option<u32>
    requires feed { is_among place (feeds_at version.now.graph.places dependent) ≡ true }
    requires standing { AreStanding version.now.graph.places ranks.now standing.now }
    ensures known { is_some result ≡ (is_some (rank_in ranks.now dependent) && has_read version.now.graph.places (state_at before.now) place dependent) }
    ensures rank { IfSome result (λ rank. rank_in ranks.now dependent ≡ Some rank) }
{
    let rank = known_rank(ranks, dependent)?;
    if is_reader(version, before, ranks, standing, place, dependent) {
        Some(rank)
    } else {
        None
    }
}

/// Marks the dependents of a place that have read it in the version, of those with a known rank, among which are all that
/// the target can wait for. Each other one of these stays as it is: a dependent comes after the place, so the trial has not
/// computed it yet, and what a stage doesn't read doesn't change its state.
fn tell<R: StateRepresentation>(
    marks: &mut Marks,
    version: &Version<R>,
    before: &[KeptState],
    ranks: &[Option<u32>],
    standing: &[Option<Standing<'_>>],
    target: u32,
    place: u32,
) -> Result<(), AllocError>
    requires live { IsLive version.now.graph.places place }
    requires known { IsKnown ranks.now place }
    requires ranks { AreRanksFor version.now.graph.places target ranks.now }
    requires standing { AreStanding version.now.graph.places ranks.now standing.now }
    requires marks { AreMarks (rank version.now.graph.places) marks.old }
    ensures marked { OnOk result ((other : ℕ) → is_marked (rank version.now.graph.places) marks.new other
        ≡ (is_marked (rank version.now.graph.places) marks.old other
        || (is_among place (feeds_at version.now.graph.places other) && (is_some (rank_in ranks.now other) && has_read version.now.graph.places (state_at before.now) place other)))) }
    ensures marks { OnOk result (AreMarks (rank version.now.graph.places) marks.old → AreMarks (rank version.now.graph.places) marks.new) }
{
    let dependents = dependents_of(version, ranks, standing, place);
    for dependent in dependents {
        if marks.has(*dependent) {
            continue;
        }
        if let Some(rank) = reader_rank(version, before, ranks, standing, place, *dependent) {
            marks.add(rank, *dependent)?;
        }
    }
    Ok(())
}

/// The same, if the place has changed.
fn tell_if<R: StateRepresentation>(
    is_told: bool,
    marks: &mut Marks,
    version: &Version<R>,
    before: &[KeptState],
    ranks: &[Option<u32>],
    standing: &[Option<Standing<'_>>],
    target: u32,
    place: u32,
) -> Result<(), AllocError>
    requires live { IsLive version.now.graph.places place }
    requires known { IsKnown ranks.now place }
    requires ranks { AreRanksFor version.now.graph.places target ranks.now }
    requires standing { AreStanding version.now.graph.places ranks.now standing.now }
    requires marks { AreMarks (rank version.now.graph.places) marks.old }
    ensures marked { OnOk result ((other : ℕ) → is_marked (rank version.now.graph.places) marks.new other
        ≡ (is_marked (rank version.now.graph.places) marks.old other
        || (is_told && (is_among place (feeds_at version.now.graph.places other) && (is_some (rank_in ranks.now other) && has_read version.now.graph.places (state_at before.now) place other))))) }
    ensures marks { OnOk result (AreMarks (rank version.now.graph.places) marks.old → AreMarks (rank version.now.graph.places) marks.new) }
{
    if is_told {
        return tell(marks, version, before, ranks, standing, target, place);
    }
    Ok(())
}

/// The stage at a place whose rank is known, of the graph with the changed stages.
#[inline(always)]
fn stage_in<'a, R: StateRepresentation>(
    version: &Version<R>,
    ranks: &[Option<u32>],
    standing: &[Option<Standing<'a>>],
    changed: &'a [Stage],
    place: u32,
) -> Option<&'a Stage>
    requires fit { AreFitting version.now.graph.places changed.now }
    requires known { IsKnown ranks.now place }
    requires standing { AreStanding version.now.graph.places ranks.now standing.now }
    ensures stage { option_copied result ≡ stage_at (with_stages version.now.graph changed.now).places place }
    ensures sound { IfSome result (λ stage. IsSoundStage version.now.graph.places place stage.now) }
{
    match stage_among(changed, place) {
        Some(stage) => Some(stage),
        None => stage_at(version, ranks, standing, place),
    }
}

/// The state that a stage comes to, by the states of its feeds.
#[inline(always)]
fn state_of<R: StateRepresentation>(
    alloc: Global,
    graph: &Graph<R>,
    stage: &Stage,
    now: &Now,
    meter: &mut Meter<OneTrial>,
) -> Result<KeptState, AllocError>
    requires each { length now.now.changes.now.at.items ≡ length now.now.before.now }
    requires sound { IsSoundAmong (length now.now.before.now) stage.now }
    requires moments { All (λ state. IsBy (2 ^ 62) (seen_of state)) (states_in now.now.before.now now.now.changes.now.at.items now.now.changes.now.list.items) }
    requires room { meter.old + 1 < 2 ^ 64 }
    ensures state { IfOk result (λ state. state ≡ come_to (java_step graph.now.mode) (Some stage.now) (state_in now.now.before.now now.now.changes.now.at.items now.now.changes.now.list.items)) }
    ensures counted { OnOk result (meter.new ≡ meter.old + 1) }
{
    let pass = meter.pass(stage.place);
    let state = JavaOps.compute(graph.mode(), stage, &pass, now);
    KeptState::new(alloc, &state)
}

/// The state that the stage at a place comes to, in the graph with the changed stages.
#[inline(always)]
fn state_in<R: StateRepresentation>(
    alloc: Global,
    version: &Version<R>,
    before: &[KeptState],
    ranks: &[Option<u32>],
    standing: &[Option<Standing<'_>>],
    changed: &[Stage],
    place: u32,
    changes: &Changes,
    meter: &mut Meter<OneTrial>,
) -> Result<KeptState, AllocError>
    requires live { IsLive version.now.graph.places place }
    requires known { IsKnown ranks.now place }
    requires standing { AreStanding version.now.graph.places ranks.now standing.now }
    requires fit { AreFitting version.now.graph.places changed.now }
    requires count { length before.now ≡ length version.now.graph.places }
    requires each { length changes.now.at.items ≡ length version.now.graph.places }
    requires moments { All (λ state. IsBy (2 ^ 62) (seen_of state)) (states_in before.now changes.now.at.items changes.now.list.items) }
    requires room { meter.old + 1 < 2 ^ 64 }
    ensures state { IfOk result (λ state. state ≡ come_to (java_step version.now.graph.mode) (stage_at (with_stages version.now.graph changed.now).places place)
        (state_in before.now changes.now.at.items changes.now.list.items)) }
    ensures counted { OnOk result (meter.new ≡ meter.old + 1) }
{
    match stage_in(version, ranks, standing, changed, place) {
        Some(stage) => state_of(
            alloc,
            version.graph(),
            stage,
            &Now { before, changes },
            meter,
        ),
        None => unreachable!(),
    }
}

/// Computes the stage at a place, and marks those of its dependents that have read it, if they can tell the difference.
fn advance<R: StateRepresentation>(
    alloc: Global,
    version: &Version<R>,
    before: &[KeptState],
    ranks: &[Option<u32>],
    standing: &[Option<Standing<'_>>],
    changed: &[Stage],
    target: u32,
    place: u32,
    marks: &mut Marks,
    changes: &mut Changes,
    meter: &mut Meter<OneTrial>,
) -> Result<(), AllocError>
    requires live { IsLive version.now.graph.places place }
    requires known { IsKnown ranks.now place }
    requires ranks { AreRanksFor version.now.graph.places target ranks.now }
    requires standing { AreStanding version.now.graph.places ranks.now standing.now }
    requires marks { AreMarks (rank version.now.graph.places) marks.old }
    requires fit { AreFitting version.now.graph.places changed.now }
    requires count { length before.now ≡ length version.now.graph.places }
    requires each { length changes.old.at.items ≡ length version.now.graph.places }
    requires few { length changes.old.list.items < length version.now.graph.places }
    requires moments { All (λ state. IsBy (2 ^ 62) (seen_of state)) (states_in before.now changes.old.at.items changes.old.list.items) }
    requires room { meter.old + 1 < 2 ^ 64 }
    ensures at { OnOk result (changes.new.at.items ≡ slice_set changes.old.at.items place (length changes.old.list.items)) }
    ensures list { OnOk result (changes.new.list.items ≡ changes.old.list.items ++ record {
      place = place;
      state = come_to (java_step version.now.graph.mode) (stage_at (with_stages version.now.graph changed.now).places place)
          (state_in before.now changes.old.at.items changes.old.list.items);
    } ∷ []) }
    ensures marked { OnOk result ((other : ℕ) → is_marked (rank version.now.graph.places) marks.new other
        ≡ (is_marked (rank version.now.graph.places) marks.old other
        || (differ (seen_of (state_in before.now changes.old.at.items changes.old.list.items place))
        (seen_of (come_to (java_step version.now.graph.mode) (stage_at (with_stages version.now.graph changed.now).places place)
        (state_in before.now changes.old.at.items changes.old.list.items)))
        && (is_among place (feeds_at version.now.graph.places other) && (is_some (rank_in ranks.now other) && has_read version.now.graph.places (state_at before.now) place other))))) }
    ensures marks { OnOk result (AreMarks (rank version.now.graph.places) marks.old → AreMarks (rank version.now.graph.places) marks.new) }
    ensures counted { OnOk result (meter.new ≡ meter.old + 1) }
{
    let graph = version.graph();
    // With its length a graph says that it is sound, and so how many places it has at most.
    let _ = graph.len();
    let state = state_in(
        alloc, version, before, ranks, standing, changed, place, changes, meter,
    )?;
    let is_told = Now { before, changes }.at(place).differs(&state);
    changes.set(place, state)?;
    tell_if(
        is_told, marks, version, before, ranks, standing, target, place,
    )?;
    Ok(())
}

/// How the stage at a place completes in a trial so far.
fn done_now(before: &[KeptState], changes: &Changes, place: u32) -> Option<Done>
    requires { place < length before.now }
    ensures { result ≡ (state_in before.now changes.now.at.items changes.now.list.items place).done }
{
    let now = Now { before, changes };
    now.at(place).state().done
}

/// How the target completes where one place alone differs, which completes sooner and is else the same to dependents, and it
/// is known how much of that reaches the target; else none.
#[inline(always)]
fn done_by_one(
    is_sought: bool,
    is_alone: bool,
    before: &[KeptState],
    handed: &[Option<u64>],
    target: u32,
    place: u32,
    changes: &Changes,
) -> Option<Done>
    requires { place < length before.now }
    ensures sought { IfSome result (λ _. is_sought ≡ true) }
    ensures alone { IfSome result (λ _. is_alone ≡ true) }
    ensures done { IfSome result (IsDoneByOne before.now handed.now target place (state_in before.now changes.now.at.items changes.now.list.items place)) }
{
    if !is_sought {
        return None;
    }
    if !is_alone {
        return None;
    }
    let most = handed_at(handed, place)?;
    let was = done_in(before, place)?;
    let now = done_now(before, changes, place)?;
    let gain = ticks_sooner(&was, &now)?;
    let old = done_in(before, target)?;
    let reaching = gain.min(most);
    Some(sooner_done(reaching, old))
}

/// Whether such a place is sought further: not after one that was alone, and of which it is known how much reaches the target. As
/// that has not completed sooner, what comes of it hardly will.
#[inline(always)]
fn is_sought_further(is_sought: bool, is_alone: bool, handed: &[Option<u64>], place: u32) -> bool
    ensures { result ≡ (is_sought && not (is_alone && is_some (handed_at handed.now place))) }
{
    if !is_sought {
        return false;
    }
    if !is_alone {
        return true;
    }
    handed_at(handed, place).is_none()
}

/// Whether the rank of the first place is below that of the second.
fn is_below(ranks: &[Option<u32>], one: u32, other: u32) -> bool
    ensures { result ≡ is_below (rank_in ranks.now one) (rank_in ranks.now other) }
{
    match (known_rank(ranks, one), known_rank(ranks, other)) {
        (Some(one), Some(other)) => one < other,
        _ => false,
    }
}

/// Computes the stages that can be reached from the changed ones, as far as their ranks are known: by rank, so each of them
/// once, and no more of them once the target's state is found. Where all that is left to compute comes of one place, and it is
/// known how much of what that completes sooner reaches the target, gives how the target completes, and computes no more. The
/// meter counts them.
fn settle<R: StateRepresentation>(
    alloc: Global,
    version: &Version<R>,
    before: &[KeptState],
    ranks: &[Option<u32>],
    standing: &[Option<Standing<'_>>],
    handed: &[Option<u64>],
    changed: &[Stage],
    target: u32,
    changes: &mut Changes,
    meter: &mut Meter<OneTrial>,
) -> Result<Option<Done>, AllocError>
    requires fit { AreFitting version.now.graph.places changed.now }
    requires states { AreStates (java_step version.now.graph.mode) version.now.graph.places before.now }
    requires ranks { AreRanksFor version.now.graph.places target ranks.now }
    requires standing { AreStanding version.now.graph.places ranks.now standing.now }
    requires handed { AreHandedOn (java_step version.now.graph.mode) version.now.graph.places ranks.now target handed.now }
    requires each { length changes.old.at.items ≡ length version.now.graph.places }
    requires room { meter.old ≤ 2 ^ 63 }
    ensures each { OnOk result (length changes.new.at.items ≡ length version.now.graph.places) }
    ensures settled { IfOk result (λ early. IfNone early (state_in before.now changes.new.at.items changes.new.list.items target
        ≡ at (java_step version.now.graph.mode) (with_stages version.now.graph changed.now).places target)) }
    ensures early { IfOk result (λ early. IfSome early (λ done. Some done ≡ completion_of (with_stages version.now.graph changed.now) target)) }
    ensures once { OnOk result (IsEachOnce changes.new.list.items) }
    ensures counted { OnOk result (meter.new ≡ meter.old + length changes.new.list.items) }
{
    let graph = version.graph();
    // With its length a graph says that it is sound, as every graph is.
    let _ = graph.len();
    changes.clear();
    let mut marks = first_marks(alloc, ranks, changed)?;
    let mut is_sought = true;
    while let Some(place) = marks.pop_first() {
        if is_below(ranks, target, place) {
            return Ok(None);
        }
        let is_alone = marks.is_empty();
        advance(
            alloc, version, before, ranks, standing, changed, target, place, &mut marks, changes,
            meter,
        )?;
        if place == target {
            return Ok(None);
        }
        if let Some(done) = done_by_one(
            is_sought, is_alone, before, handed, target, place, changes,
        ) {
            return Ok(Some(done));
        }
        is_sought = is_sought_further(is_sought, is_alone, handed, place);
    }
    Ok(None)
}

/// How the target completes in the graph with the changed stages; none where it would be pending. No stage is computed
/// twice: the meter counts the computed ones, and these are as many places as the changes have.
pub(crate) fn changed_completion<R: StateRepresentation>(
    alloc: Global,
    version: &Version<R>,
    before: &[KeptState],
    ranks: &[Option<u32>],
    standing: &[Option<Standing<'_>>],
    handed: &[Option<u64>],
    changed: &[Stage],
    target: u32,
    changes: &mut Changes,
    meter: &mut Meter<OneTrial>,
) -> Result<Option<Done>, AllocError>
    requires live { IsLive version.now.graph.places target }
    requires fit { AreFitting version.now.graph.places changed.now }
    requires states { AreStates (java_step version.now.graph.mode) version.now.graph.places before.now }
    requires ranks { AreRanksFor version.now.graph.places target ranks.now }
    requires standing { AreStanding version.now.graph.places ranks.now standing.now }
    requires handed { AreHandedOn (java_step version.now.graph.mode) version.now.graph.places ranks.now target handed.now }
    requires each { length changes.old.at.items ≡ length version.now.graph.places }
    requires room { meter.old ≤ 2 ^ 63 }
    ensures each { OnOk result (length changes.new.at.items ≡ length version.now.graph.places) }
    ensures done { IfOk result (λ done. done ≡ completion_of (with_stages version.now.graph changed.now) target) }
    ensures once { OnOk result (IsEachOnce changes.new.list.items) }
    ensures counted { OnOk result (meter.new ≡ meter.old + length changes.new.list.items) }
{
    let early = settle(
        alloc, version, before, ranks, standing, handed, changed, target, changes, meter,
    )?;
    match early {
        Some(done) => Ok(Some(done)),
        None => Ok(done_now(before, changes, target)),
    }
}
