//! Failures, from their JSON.
ghost use Rattle.std.specs.Prelude.{◌^◌, ◌<◌, ℕ, List, IfOk};
ghost use Rattle.serde_json.specs.View.{view};
ghost use Rattle.fleet_summary.specs.declared.facts.Failure.{Failure};
ghost use Rattle.fleet_summary.specs.Failures.{IsFailures};
ghost use Rattle.fleet_text.specs.Back.{IsReadAs};
ghost use Rattle.fleet_text.specs.Says.{SaysFailure, SaysFailures};

use crate::members::{count_of, items_in, text_of};
use crate::order::is_last;
use crate::read_fault::ReadFault;
use fleet_summary::{Failure, FailureCounts};
use serde_json::Value;
use std::alloc::Global;

/// How many replies failed by one.
fn failure_in(alloc: Global, value: &Value) -> Result<(Failure, u64), ReadFault>
    ensures some { IfOk result (λ failure. 0 < failure.1) }
    ensures fits { IfOk result (λ failure. failure.1 < 2 ^ 64) }
    ensures said { IfOk result (SaysFailure (view value.now)) }
    ensures back { (failure : Failure × ℕ) → 0 < failure.1 → SaysFailure (view value.now) failure → IsReadAs result failure }
{
    let failure = Failure {
        exception: text_of(alloc, value, "exception")?,
        group: text_of(alloc, value, "group")?,
    };
    let replies = count_of(value, "replies")?;
    if replies > 0 {
        Ok((failure, replies))
    } else {
        Err(ReadFault::Unsound)
    }
}

/// The failures.
pub(crate) fn failures_in(alloc: Global, value: &Value) -> Result<FailureCounts, ReadFault>
    ensures sound { IfOk result IsFailures }
    ensures said { IfOk result (SaysFailures (view value.now)) }
    ensures back { (failures : List (Failure × ℕ)) → IsFailures failures → SaysFailures (view value.now) failures → IsReadAs result failures }
{
    let values = items_in(value)?;
    let mut failures = FailureCounts::new(alloc);
    for failure in values {
        let (failure, replies) = failure_in(alloc, failure)?;
        if !is_last(failures.by_failure(), &failure) {
            return Err(ReadFault::Unsound);
        }
        failures.add(alloc, &failure, replies)?;
    }
    Ok(failures)
}
