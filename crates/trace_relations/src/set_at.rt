//! What is kept for places.
ghost use Rattle.std.specs.Prelude.{◌≡◌, IfOk, None, replicate, slice_set};
ghost use Rattle.trace_relations.specs.Sets.{set_for};

use std::alloc::{AllocError, Global};

/// Sets the value at a place, if there is such a place.
pub(crate) fn set_at<T: Copy>(values: &mut Vec<T>, place: usize, value: T)
    ensures { values.new.items ≡ slice_set values.old.items place value }
{
    if place < values.len() {
        values[place] = value;
    }
}

/// Sets the value at a place, if one is told.
pub(crate) fn set_for<T: Copy>(values: &mut Vec<T>, place: Option<usize>, value: T)
    ensures { values.new.items ≡ set_for values.old.items place value }
{
    if let Some(place) = place {
        set_at(values, place, value);
    }
}

/// Nothing yet for so many places.
pub(crate) fn nothing_for(alloc: Global, count: usize) -> Result<Vec<Option<usize>>, AllocError>
    ensures { IfOk result (λ values. values.items ≡ replicate count None) }
{
    vec![in alloc; None; count]
}
