//! The order of groups.
ghost use Rattle.std.specs.Prelude.{◌≡◌, IfOk};
ghost use Rattle.std.specs.List.Sorted.{IsNonDecreasingBy, IsPermutation, IsStableByKey};
ghost use Rattle.std.specs.Ordering.{nat_cmp};
ghost use Rattle.fleet_answer.specs.Rows.{order_of};

use crate::rows::GroupRow;
use std::alloc::AllocError;

/// The rows, the largest gain first.
pub(crate) fn by_gain(mut rows: Vec<GroupRow>) -> Result<Vec<GroupRow>, AllocError>
    ensures permutation { IfOk result (λ ranked. IsPermutation rows.items ranked.items) }
    ensures ordered { IfOk result (λ ranked. IsNonDecreasingBy order_of ranked.items) }
    ensures stable { IfOk result (λ ranked. IsStableByKey order_of nat_cmp rows.items ranked.items) }
{
    rows.sort_by_key(|row| u64::MAX - row.sooner)?;
    Ok(rows)
}
