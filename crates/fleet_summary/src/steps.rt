//! Steps of times: 64 to each doubling, so that a time is known to a 64th by its step.
ghost use Rattle.std.specs.Prelude.{◌≡◌, ℕ, ◌-◌, ◌*◌, ◌^◌, ◌<◌, ◌≤◌};
ghost use Rattle.fleet_summary.specs.Steps.{step_of, upper_end};

/// How many steps there are.
pub const STEPS: u32 = 3776;

/// The step of a time: its highest bit and the six below it.
pub fn step_of(time: u64) -> u32
    ensures value { result ≡ step_of time }
    ensures counted { result < STEPS }
    ensures reached { time ≤ upper_end result }
    ensures near { 64 * (upper_end result - time) ≤ time }
    ensures ordered { (later : ℕ) → later < 2 ^ 64 → time ≤ later → result ≤ step_of later }
{
    let below = 57_u32.saturating_sub(time.leading_zeros());
    64 * below + (time >> below) as u32
}

/// The greatest time of a step.
pub fn upper_end(step: u32) -> u64
    requires { step < STEPS }
    ensures value { result ≡ upper_end step }
    ensures own { step_of result ≡ step }
    ensures greatest { (later : ℕ) → later < 2 ^ 64 → result < later → step < step_of later }
{
    let below = (step / 64).saturating_sub(1);
    let least = u64::from(step - 64 * below) << below;
    least + ((1 << below) - 1)
}
