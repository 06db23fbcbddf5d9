//! What a stage hands on of how much sooner one of its feeds completes.
ghost use Rattle.std.specs.Prelude.{◌≡◌, ◌⊎◌, [], ◌∷◌, Contains, IfSome, IsTrue, true};
ghost use Rattle.act_expr.specs.declared.outcome.Mode.{Mode};
ghost use Rattle.stage_ops.specs.Java.{java_step};
ghost use Rattle.stage_ops.specs.Sources.{is_exceptional};
ghost use Rattle.stage_ops.specs.States.{seen_at, state_at};
ghost use Rattle.stage_ops.specs.Usual.{IsPlain};
ghost use Rattle.stage_ops.specs.declared.state.Reads.TheVariants.{Sources};
ghost use Rattle.time_sweep.specs.Forms.{later_beside, rest_of, takes_one, waits_for_all};
ghost use Rattle.time_sweep.specs.Sooner.{HandsOn};

use crate::known::done_in;
use act_expr::Outcome;
use propagate::KeptState;
use stage_graph::{Op, Stage};
use stage_ops::Reads;

/// A feed of a stage, and how many of the ticks that it completes sooner the stage hands on at most.
#[derive(Clone, Copy)]
pub(crate) struct HandedOn {
    pub(crate) feed: u32,
    pub(crate) most: u64,
}

/// Whether a stage has neither a pin nor an end.
fn is_plain(stage: &Stage) -> bool
    ensures { IsTrue result → IsPlain stage.now }
{
    stage.pin_result.is_none() && stage.pin_moment.is_none() && stage.ends.as_slice().is_empty()
}

/// Whether the stage waits for one source, or the first of several.
fn takes_one(op: &Op) -> bool
    ensures { result ≡ takes_one op.now }
{
    match op {
        Op::Async | Op::Manual | Op::Completed(_) | Op::Failed(_) => false,
        Op::ThenCombine | Op::ThenAcceptBoth | Op::RunAfterBoth | Op::AllOf => false,
        _ => true,
    }
}

/// Whether the stage waits for all of its sources.
fn waits_for_all(op: &Op) -> bool
    ensures { result ≡ waits_for_all op.now }
{
    match op {
        Op::ThenCombine | Op::ThenAcceptBoth | Op::RunAfterBoth | Op::AllOf => true,
        _ => false,
    }
}

fn is_exceptional(outcome: &Outcome) -> bool
    ensures { result ≡ is_exceptional outcome.now }
{
    match outcome {
        Outcome::Value(_) => false,
        Outcome::Bare(_) | Outcome::Wrapped(_) => true,
    }
}

/// The later one of two places, by when their stages completed.
fn later_of(before: &[KeptState], one: u32, other: u32) -> u32
    ensures { (result ≡ one) ⊎ (result ≡ other) }
{
    match (done_in(before, one), done_in(before, other)) {
        (Some(first), Some(second)) if second.moment < first.moment => one,
        _ => other,
    }
}

/// One of some sources: the last to complete, where all have completed.
fn last_of(before: &[KeptState], sources: &[u32]) -> Option<u32>
    ensures { IfSome result (Contains sources.now) }
{
    let first = sources.first()?;
    let mut last = *first;
    for place in sources {
        last = later_of(before, last, *place);
    }
    Some(last)
}

/// The later of a moment and of how a source completed, if it has, and is not the one at this place.
fn later_beside(rest: u64, before: &[KeptState], feed: u32, place: u32) -> u64
    ensures { result ≡ later_beside rest (seen_at (state_at before.now)) feed place }
{
    if place == feed {
        return rest;
    }
    match done_in(before, place) {
        Some(done) => rest.max(done.moment),
        None => rest,
    }
}

/// The creation of a stage, or the last completion of its sources at other places if it is later.
fn rest_of(before: &[KeptState], created: u64, sources: &[u32], feed: u32) -> u64
    ensures { result ≡ rest_of created (seen_at (state_at before.now)) feed sources.now }
{
    let mut rest = created;
    for place in sources {
        rest = later_beside(rest, before, feed, *place);
    }
    rest
}

/// What a stage hands on of its only source.
fn of_only(stage: &Stage, before: &[KeptState], feed: u32) -> Option<HandedOn>
    requires plain { IsPlain stage.now }
    requires takes { takes_one stage.now.op ≡ true }
    requires only { stage.now.sources ≡ feed ∷ [] }
    ensures hands_on { IfSome result (λ handed. (mode : Mode) → (java_step mode stage.now (seen_at (state_at before.now))).reads ≡ Sources
        → HandsOn (java_step mode) stage.now (seen_at (state_at before.now)) handed.feed handed.most) }
    ensures source { IfSome result (λ handed. Contains stage.now.sources handed.feed) }
{
    match done_in(before, feed) {
        Some(done) => {
            let most = done.moment.saturating_sub(stage.created);
            Some(HandedOn { feed, most })
        }
        None => None,
    }
}

/// The same of a stage that waits for one source, where it has no more.
fn of_one(stage: &Stage, before: &[KeptState]) -> Option<HandedOn>
    requires plain { IsPlain stage.now }
    requires takes { takes_one stage.now.op ≡ true }
    ensures hands_on { IfSome result (λ handed. (mode : Mode) → (java_step mode stage.now (seen_at (state_at before.now))).reads ≡ Sources
        → HandsOn (java_step mode) stage.now (seen_at (state_at before.now)) handed.feed handed.most) }
    ensures source { IfSome result (λ handed. Contains stage.now.sources handed.feed) }
{
    match stage.sources.as_slice() {
        [feed] => of_only(stage, before, *feed),
        _ => None,
    }
}

/// What a stage that waits for all of its sources hands on of one of them, if that has a value.
fn of_source(stage: &Stage, before: &[KeptState], feed: u32) -> Option<HandedOn>
    requires plain { IsPlain stage.now }
    requires waits { waits_for_all stage.now.op ≡ true }
    requires source { Contains stage.now.sources feed }
    ensures hands_on { IfSome result (λ handed. (mode : Mode) → (java_step mode stage.now (seen_at (state_at before.now))).reads ≡ Sources
        → HandsOn (java_step mode) stage.now (seen_at (state_at before.now)) handed.feed handed.most) }
    ensures source { IfSome result (λ handed. Contains stage.now.sources handed.feed) }
{
    let done = done_in(before, feed)?;
    if is_exceptional(&done.outcome) {
        return None;
    }
    let rest = rest_of(before, stage.created, stage.sources.as_slice(), feed);
    let most = done.moment.saturating_sub(rest);
    Some(HandedOn { feed, most })
}

/// What such a stage hands on of the last of its sources.
fn of_all(stage: &Stage, before: &[KeptState]) -> Option<HandedOn>
    requires plain { IsPlain stage.now }
    requires waits { waits_for_all stage.now.op ≡ true }
    ensures hands_on { IfSome result (λ handed. (mode : Mode) → (java_step mode stage.now (seen_at (state_at before.now))).reads ≡ Sources
        → HandsOn (java_step mode) stage.now (seen_at (state_at before.now)) handed.feed handed.most) }
    ensures source { IfSome result (λ handed. Contains stage.now.sources handed.feed) }
{
    let feed = last_of(before, stage.sources.as_slice())?;
    of_source(stage, before, feed)
}

/// What a stage hands on of the source that it waits for last.
fn of_stage(stage: &Stage, before: &[KeptState]) -> Option<HandedOn>
    ensures hands_on { IfSome result (λ handed. (mode : Mode) → (java_step mode stage.now (seen_at (state_at before.now))).reads ≡ Sources
        → HandsOn (java_step mode) stage.now (seen_at (state_at before.now)) handed.feed handed.most) }
    ensures source { IfSome result (λ handed. Contains stage.now.sources handed.feed) }
{
    if is_plain(stage) {
        if waits_for_all(&stage.op) {
            return of_all(stage, before);
        }
        if takes_one(&stage.op) {
            return of_one(stage, before);
        }
    }
    None
}

/// The same of a stage that has read this; none where it has picked an inner stage.
pub(crate) fn of_reader(stage: &Stage, reads: Reads, before: &[KeptState]) -> Option<HandedOn>
    ensures reads { IfSome result (λ _. reads ≡ Sources) }
    ensures hands_on { IfSome result (λ handed. (mode : Mode) → (java_step mode stage.now (seen_at (state_at before.now))).reads ≡ Sources
        → HandsOn (java_step mode) stage.now (seen_at (state_at before.now)) handed.feed handed.most) }
    ensures source { IfSome result (λ handed. Contains stage.now.sources handed.feed) }
{
    match reads {
        Reads::Sources => of_stage(stage, before),
        Reads::Nothing | Reads::Picked(_) => None,
    }
}
