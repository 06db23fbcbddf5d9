//! A flag for each place, which is raised where it is among some places.
ghost use Rattle.std.specs.Prelude.{◌≡◌, IfOk, slice_set, true};
ghost use Rattle.place_flags.specs.Flags.{AreFlags, is_flagged};

use std::alloc::{AllocError, Global};

/// For each of so many places whether it is among these.
pub fn flags_of(alloc: Global, count: usize, places: &[u32]) -> Result<Vec<bool>, AllocError>
    ensures { IfOk result (λ flags. AreFlags flags.items count places.now) }
{
    let mut flags = vec![in alloc; false; count]?;
    for place in places {
        raise(flags.as_mut_slice(), *place);
    }
    Ok(flags)
}

fn raise(flags: &mut [bool], place: u32)
    ensures { flags.new ≡ slice_set flags.old place true }
{
    let place = place as usize;
    if place < flags.len() {
        flags[place] = true;
    }
}

/// Whether a place is flagged.
pub fn is_flagged(flags: &[bool], place: u32) -> bool
    ensures { result ≡ is_flagged flags.now place }
{
    match flags.get(place as usize) {
        Some(flag) => *flag,
        None => false,
    }
}
