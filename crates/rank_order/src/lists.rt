//! Lists that are extended in place.
ghost use Rattle.std.specs.Prelude.{◌≡◌, ◌<◌, ◌≤◌, ◌∷◌, ◌++◌, [], ℕ, length, slice_index_or, IfOk, OnOk};

use share_tree::{Again, KeepFault, Keeps};
use std::alloc::AllocError;

/// Adds one more item to a list; no list of places is full.
pub(crate) fn add<T: Again, K: Keeps<T>>(list: &mut K, item: T) -> Result<(), AllocError>
    requires { length (K.items list.old) < 65536 }
    ensures { OnOk result (K.items list.new ≡ K.items list.old ++ item ∷ []) }
{
    match list.add(item) {
        Ok(()) => Ok(()),
        Err(KeepFault::Memory) => Err(AllocError),
        Err(KeepFault::Full) => unreachable!(),
    }
}

/// The list, extended with copies of the item up to a length.
pub(crate) fn grown<T: Again, K: Keeps<T>>(
    list: &K,
    item: &T,
    count: usize,
) -> Result<K, AllocError>
    requires shorter { length (K.items list.now) ≤ count }
    requires few { count ≤ 65536 }
    ensures long { IfOk result (λ longer. length (K.items longer) ≡ count) }
    ensures each { IfOk result (λ longer. (place : ℕ) → slice_index_or (K.items longer) place item.now ≡ slice_index_or (K.items list.now) place item.now) }
{
    let mut longer = list.again()?;
    for _place in list.len()..count {
        add(&mut longer, item.again()?)?;
    }
    Ok(longer)
}
