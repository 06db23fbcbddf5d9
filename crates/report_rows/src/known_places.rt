//! Places to look in.
ghost use Rattle.std.specs.Prelude.{ℕ, List, [], ◌∷◌, ◌++◌, IfOk, OnOk};
ghost use Rattle.report_rows.specs.Known.{Knows};

use std::alloc::{AllocError, Global};
use std::collections::HashSet;

/// No place is known.
pub(crate) fn none_known(alloc: Global) -> HashSet<u32>
    ensures { Knows result [] }
{
    HashSet::new(alloc)
}

// Gets to know a place.
fn learn(known: &mut HashSet<u32>, place: u32) -> Result<(), AllocError>
    ensures { (places : List ℕ) → Knows known.old places → OnOk result (Knows known.new (places ++ place ∷ [])) }
{
    known.insert(place)?;
    Ok(())
}

/// These places are known, and no others.
pub(crate) fn known_places(alloc: Global, places: &[u32]) -> Result<HashSet<u32>, AllocError>
    ensures { IfOk result (λ known. Knows known places.now) }
{
    let mut known = none_known(alloc);
    for place in places {
        learn(&mut known, *place)?;
    }
    Ok(known)
}
