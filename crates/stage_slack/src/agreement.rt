//! Whether two completions have the same outcome and the same moment.
ghost use Rattle.std.specs.Prelude.{◌≡◌};
ghost use Rattle.propagate.specs.Completions.{same_outcome};
ghost use Rattle.stage_slack.specs.Slacks.{agree};

use act_expr::Outcome;
use stage_ops::Done;

/// Whether both are the same value, or the same exception in the same form.
fn is_same_outcome(one: &Outcome, other: &Outcome) -> bool
    ensures { result ≡ same_outcome one.now other.now }
{
    *one == *other
}

/// Whether both have the same outcome and the same moment, or both are pending.
pub(crate) fn agree(one: &Option<Done>, other: &Option<Done>) -> bool
    ensures { result ≡ agree one.now other.now }
{
    match (one, other) {
        (None, None) => true,
        (Some(one), Some(other)) => {
            is_same_outcome(&one.outcome, &other.outcome) && one.moment == other.moment
        }
        _ => false,
    }
}
