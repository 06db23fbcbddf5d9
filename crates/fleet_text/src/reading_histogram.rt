//! A histogram, from its JSON.
ghost use Rattle.std.specs.Prelude.{◌≡◌, ◌^◌, ◌<◌, ℕ, List, Ok, IfOk};
ghost use Rattle.serde_json.specs.View.{view};
ghost use Rattle.fleet_summary.specs.declared.steps.TheConstants.{STEPS};
ghost use Rattle.fleet_summary.specs.Histogram.{IsHistogram};
ghost use Rattle.fleet_text.specs.Back.{IsReadAs};
ghost use Rattle.fleet_text.specs.Says.{SaysEntry, SaysHistogram, SaysIn};

use crate::members::{count_in, items_in, member_of};
use crate::order::is_last;
use crate::read_fault::ReadFault;
use fleet_summary::{Histogram, STEPS};
use serde_json::Value;
use std::alloc::Global;

/// A step and its number.
fn entry_in(value: &Value) -> Result<(u32, u64), ReadFault>
    ensures step { IfOk result (λ entry. entry.0 < STEPS) }
    ensures some { IfOk result (λ entry. 0 < entry.1) }
    ensures fits { IfOk result (λ entry. entry.1 < 2 ^ 64) }
    ensures said { IfOk result (SaysEntry (view value.now)) }
    ensures back { (entry : ℕ × ℕ) → entry.0 < STEPS → 0 < entry.1 → SaysEntry (view value.now) entry → result ≡ Ok entry }
{
    let [step, number] = items_in(value)? else {
        return Err(ReadFault::Member);
    };
    let step = count_in(step)?;
    let number = count_in(number)?;
    if step < u64::from(STEPS) && number > 0 {
        Ok((step as u32, number))
    } else {
        Err(ReadFault::Unsound)
    }
}

fn histogram_in(alloc: Global, value: &Value) -> Result<Histogram, ReadFault>
    ensures sound { IfOk result IsHistogram }
    ensures said { IfOk result (SaysHistogram (view value.now)) }
    ensures back { (histogram : List (ℕ × ℕ)) → IsHistogram histogram → SaysHistogram (view value.now) histogram → IsReadAs result histogram }
{
    let entries = items_in(value)?;
    let mut histogram = Histogram::new(alloc);
    for entry in entries {
        let (step, number) = entry_in(entry)?;
        if !is_last(histogram.by_step(), &step) {
            return Err(ReadFault::Unsound);
        }
        histogram.add(step, number)?;
    }
    Ok(histogram)
}

/// The histogram of that name.
pub(crate) fn histogram_of(alloc: Global, value: &Value, name: &str) -> Result<Histogram, ReadFault>
    ensures sound { IfOk result IsHistogram }
    ensures said { IfOk result (SaysIn SaysHistogram name.now (view value.now)) }
    ensures back { (histogram : List (ℕ × ℕ)) → IsHistogram histogram → SaysIn SaysHistogram name.now (view value.now) histogram → IsReadAs result histogram }
{
    histogram_in(alloc, member_of(value, name)?)
}
