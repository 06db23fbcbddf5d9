//! Items of a list, written at many places.
ghost use Rattle.std.specs.Prelude.{◌≡◌, ◌<◌, length, All, OnOk};
ghost use Rattle.propagate.specs.Written.{written};

use share_tree::{Again, Keeps};
use std::alloc::AllocError;

/// Writes other items at some places, one after the other, and takes them out of where they are; a place without another item stays as
/// it is.
#[inline(always)]
pub(crate) fn write_each<T: Again, K: Keeps<T>>(
    list: &mut K,
    places: &[u32],
    others: &mut [Option<T>],
) -> Result<(), AllocError>
    requires within { All (λ place. place < length (K.items list.old)) places.now }
    requires each { length others.old ≡ length places.now }
    ensures { OnOk result (K.items list.new ≡ written (K.items list.old) places.now others.old) }
{
    for (at, place) in places.iter().enumerate() {
        if let Some(item) = others[at].take() {
            list.write(*place as usize, item)?;
        }
    }
    Ok(())
}
