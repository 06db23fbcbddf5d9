//! Evaluation from scratch: the state and the rank of each stage, which is computed once and after its feeds.
//!
//! All lists are allocated before the first stage is computed, so a failed allocation leaves the meter as it was.
ghost use Rattle.std.specs.Prelude.{◌≡◌, ℕ, ◌+◌, ◌<◌, ◌≤◌, ◌^◌, All, IfOk, OnOk, OnErr, length, count_by, is_some};
ghost use Rattle.stage_graph.specs.Plain.{feeds_of};
ghost use Rattle.stage_ops.specs.Among.{IsSoundAmong};
ghost use Rattle.stage_graph.specs.Walk.{above_all, IsRanked};
ghost use Rattle.stage_ops.specs.States.{seen_at, state_at, IsBy, seen_of};
ghost use Rattle.scratch_eval.specs.Answers.{AreAnswers, TellOneDuration, rank_at, states_of};

use crate::answers::{Answer, Answers};
use act_expr::Mode;
use stage_graph::{Graph, Representation, Stage, ranked_order};
use stage_ops::{Look, Meter, StageOps};
use std::alloc::{AllocError, Global};

/// 1 above the greatest rank of these feeds, and 0 of none.
fn rank_above(answers: &Answers, feeds: &[u32]) -> u32
    requires { (place : ℕ) → rank_at answers.now place ≤ 2 ^ 20 }
    ensures { result ≡ above_all (rank_at answers.now) feeds.now }
{
    let mut above = 0;
    for feed in feeds {
        above = above.max(answers.rank_or_zero(*feed) + 1);
    }
    above
}

/// The answer of one stage, from those of its feeds.
fn answer_stage<N, O: StageOps<N>>(
    mode: Mode,
    stage: &Stage,
    ops: &O,
    meter: &mut Meter<N>,
    answers: &Answers,
) -> Answer
    requires sound { IsSoundAmong (length (states_of answers.now)) stage.now }
    requires moments { All (λ state. IsBy (2 ^ 62) (seen_of state)) (states_of answers.now) }
    requires ranks { (place : ℕ) → rank_at answers.now place ≤ 2 ^ 20 }
    requires room { meter.old + 1 < 2 ^ 64 }
    ensures state { result.state ≡ O.step ops.now mode stage.now (seen_at (state_at (states_of answers.now))) }
    ensures rank { result.rank ≡ above_all (rank_at answers.now) (feeds_of stage.now) }
    ensures counted { meter.new ≡ meter.old + 1 }
{
    let pass = meter.pass(stage.place);
    let of_sources = rank_above(answers, stage.sources.as_slice());
    let of_inner = rank_above(answers, stage.inner.as_slice());
    Answer {
        state: ops.compute(mode, stage, &pass, answers),
        rank: of_sources.max(of_inner),
    }
}

/// Evaluates a ranked graph from scratch, each live stage once. Its answers are those of the definitions, `at` and `rank`;
/// by `JavaOps`, where no action is queued, they are also those of the definitions with one duration and no start.
pub fn evaluate<R: Representation, N, O: StageOps<N>>(
    alloc: Global,
    graph: &Graph<R>,
    ops: &O,
    meter: &mut Meter<N>,
) -> Result<Answers, AllocError>
    requires ranked { IsRanked graph.now.places }
    requires room { meter.old ≤ 2 ^ 63 }
    ensures answers { IfOk result (AreAnswers (O.step ops.now graph.now.mode) graph.now.places) }
    ensures one_duration { IfOk result (TellOneDuration (O.step ops.now graph.now.mode) graph.now.mode graph.now.places) }
    ensures counted { OnOk result (meter.new ≡ meter.old + count_by is_some graph.now.places) }
    ensures err { OnErr result (meter.new ≡ meter.old) }
{
    let order = ranked_order(alloc, graph)?;
    let mut answers = Answers::empty(alloc, graph.len())?;
    for place in order.as_slice() {
        if let Some(stage) = graph.stage(*place) {
            let answer = answer_stage(graph.mode(), stage, ops, meter, &answers);
            answers.set(*place, answer);
        }
    }
    Ok(answers)
}
