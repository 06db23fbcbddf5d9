//! The rescues of a reply by single changes of the stages that it can wait for.
ghost use Rattle.std.specs.Prelude.{◌≡◌, ◌↔◌, ◌≤◌, All, IfOk, IsOk, IsPermutation, None, is_some, length, sum_by};
ghost use Rattle.std.specs.List.{flat_map};
ghost use Rattle.std.specs.List.Sorted.{IsNonDecreasingBy, IsStableByKey};
ghost use Rattle.std.specs.Ordering.{nat_cmp};
ghost use Rattle.stage_graph.specs.Plain.{stage_at};
ghost use Rattle.level_pool.specs.Runs.{IsPlainMap};
ghost use Rattle.time_sweep.specs.Starts.{IsStart};
ghost use Rattle.time_sweep.specs.Sweep.{completion_of};
ghost use Rattle.reply_rescue.specs.Found.{Gives, count_in, saved_in};
ghost use Rattle.reply_rescue.specs.Replies.{reply_of};
ghost use Rattle.reply_rescue.specs.Rescues.{rescue_moment, rescues, saves, trials, trials_at, IsRescue};

use crate::reply::reply_of;
use crate::rescue::{Rescue, Rescues};
use crate::trials::{Sought, rescues_at};
use act_expr::Value;
use level_pool::Runner;
use propagate::StateRepresentation;
use std::alloc::{AllocError, Global};
use time_sweep::{TrialStart, completion_of, waited_for};
use version_store::{QueryFault, Version};

/// Whether a stage has a value, by the tick if one is given.
fn has_reply<R: StateRepresentation>(version: &Version<R>, target: u32, by: Option<u64>) -> bool
    ensures { result ≡ is_some (reply_of by (completion_of version.now.graph target)) }
{
    let done = completion_of(version, target);
    reply_of(by, &done).is_some()
}

/// What the trials at each of these places give, or that memory ran out for it. The runner makes them beside each other.
fn tried<R: StateRepresentation, W: Runner>(
    alloc: Global,
    version: &Version<R>,
    sought: &Sought<'_>,
    places: &[u32],
    runner: &W,
) -> Result<Vec<Result<Rescues, AllocError>>, AllocError>
    requires { IsStart version.now.graph sought.now.start }
    ensures { IfOk result (λ tried. IsPlainMap (Gives (trials_at version.now.graph sought.now.value) (saves version.now.graph sought.now.start.target sought.now.by)) places.now tried.items) }
{
    let answer = runner.run(
        alloc,
        places,
        &|place: u32| -> Result<Rescues, AllocError>
            requires { IsStart version.now.graph sought.now.start }
            ensures { Gives (trials_at version.entry.now.graph sought.entry.now.value) (saves version.entry.now.graph sought.entry.now.start.target sought.entry.now.by) place result }
        { rescues_at(alloc, version, sought, place) },
    );
    match answer {
        Ok(tried) => Ok(tried),
        Err(_) => Err(AllocError),
    }
}

/// What the trials found at all places together, if memory ran out for none of them.
fn found_among(alloc: Global, tried: &[Result<Rescues, AllocError>]) -> Result<Rescues, AllocError>
    requires few { length tried.now ≤ 65536 }
    requires counts { All (λ one. count_in one ≤ 64) tried.now }
    ensures tried { IfOk result (λ found. found.tried ≡ sum_by count_in tried.now) }
    ensures saved { IfOk result (λ found. found.saved.items ≡ flat_map saved_in tried.now) }
    ensures all { IfOk result (λ found. All (λ one. IsOk one) tried.now) }
{
    let mut count = 0;
    let mut saved = Vec::new(alloc);
    for one in tried {
        match one {
            Ok(found) => {
                count += found.tried;
                saved.extend_from_slice(found.saved.as_slice())?;
            }
            Err(_) => return Err(AllocError),
        }
    }
    Ok(Rescues {
        tried: count,
        saved,
    })
}

/// The rescues, the soonest first.
fn soonest_first(mut saved: Vec<Rescue>) -> Result<Vec<Rescue>, AllocError>
    ensures permutation { IfOk result (λ ordered. IsPermutation saved.items ordered.items) }
    ensures ordered { IfOk result (λ ordered. IsNonDecreasingBy rescue_moment ordered.items) }
    ensures by_trial { IfOk result (λ ordered. IsStableByKey rescue_moment nat_cmp saved.items ordered.items) }
{
    saved.sort_by_key(|rescue| rescue.moment)?;
    Ok(saved)
}

/// The single changes by which a target would have completed with a value, by the tick if one is given: of each stage that
/// the target can wait for, that its action takes no time; that it is not queued; where its exception arose in it, that it
/// completed with this value instead, or if an end had set the exception, that this end is taken away; and for each of its
/// timeouts that it is taken away, and that it has twice the delay. A trial that would leave its stage as it is is not made,
/// and none is where the target has a value in time.
///
/// The soonest comes first, and of several at one tick the one at the least place, and of one stage in the order above. The
/// runner makes the trials beside each other.
///
/// Errors: `NoStage` where the target is not live; `Memory`.
pub fn rescues_of<R: StateRepresentation, W: Runner>(
    alloc: Global,
    version: &Version<R>,
    target: u32,
    by: Option<u64>,
    value: Value,
    runner: &W,
) -> Result<Rescues, QueryFault>
    ensures tried { IfOk result (λ found. found.tried ≡ length (trials version.now.graph target by value)) }
    ensures rescues { IfOk result (λ found. found.saved.items ≡ rescues version.now.graph target by value) }
    ensures each { IfOk result (λ found. All (IsRescue version.now.graph target by value) found.saved.items) }
    ensures ordered { IfOk result (λ found. IsNonDecreasingBy rescue_moment found.saved.items) }
    ensures no_stage { (result ≡ Err QueryFault.NoStage) ↔ (stage_at version.now.graph.places target ≡ None) }
{
    // With its length a graph says that it is sound, as every graph is.
    let _ = version.graph().len();
    let places = waited_for(alloc, version, target)?;
    if has_reply(version, target, by) {
        return Ok(Rescues {
            tried: 0,
            saved: Vec::new(alloc),
        });
    }
    let start = TrialStart::of(alloc, version, target)?;
    let sought = Sought { start, by, value };
    let tried = tried(alloc, version, &sought, places.as_slice(), runner)?;
    let found = found_among(alloc, tried.as_slice())?;
    let saved = soonest_first(found.saved)?;
    Ok(Rescues {
        tried: found.tried,
        saved,
    })
}
