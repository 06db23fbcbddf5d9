//! Completions that come so many ticks sooner.
ghost use Rattle.std.specs.Prelude.{◌≡◌, ◌-◌, IfSome};
ghost use Rattle.std.specs.Option.{option_map};
ghost use Rattle.stage_ops.specs.States.{seen};
ghost use Rattle.propagate.specs.Completions.{same_completion, same_outcome};
ghost use Rattle.time_sweep.specs.Sooner.{sooner_completion, sooner_done};

use act_expr::Outcome;
use stage_ops::Done;

/// Whether both are the same value, or the same exception in the same form.
fn is_same_outcome(one: &Outcome, other: &Outcome) -> bool
    ensures { result ≡ same_outcome one.now other.now }
{
    *one == *other
}

/// Whether a completion comes so many ticks sooner than another one, and is else the same to dependents.
fn is_sooner(was: &Done, now: &Done, ticks: u64) -> bool
    ensures { result ≡ same_completion (sooner_completion ticks (seen was.now)) (seen now.now) }
{
    let moment = was.moment.saturating_sub(ticks);
    is_same_outcome(&was.outcome, &now.outcome) && moment == now.moment && was.from == now.from
}

/// How many ticks sooner a completion comes than another one, to which it is else the same to dependents; none where it is not.
pub(crate) fn ticks_sooner(was: &Done, now: &Done) -> Option<u64>
    ensures { IfSome result (λ ticks. seen now.now ≡ sooner_completion ticks (seen was.now)) }
{
    let ticks = was.moment.saturating_sub(now.moment);
    if is_sooner(was, now, ticks) {
        Some(ticks)
    } else {
        None
    }
}

/// When an action starts that starts so many ticks sooner.
fn sooner_start(ticks: u64, start: Option<u64>) -> Option<u64>
    ensures { result ≡ option_map (λ start. start - ticks) start }
{
    match start {
        Some(start) => Some(start.saturating_sub(ticks)),
        None => None,
    }
}

/// The completion, so many ticks sooner.
pub(crate) fn sooner_done(ticks: u64, done: Done) -> Done
    ensures { result ≡ sooner_done ticks done }
{
    Done {
        outcome: done.outcome,
        moment: done.moment.saturating_sub(ticks),
        from: done.from,
        start: sooner_start(ticks, done.start),
    }
}
