//! Spans that are known.
ghost use Rattle.std.specs.Prelude.{◌≡◌, ℕ, List, [], ◌∷◌, ◌++◌, OnOk, nat_eq};
ghost use Rattle.std.specs.List.{list_any};
ghost use Rattle.trace_stages.specs.KnownSpans.{Knows};

use std::alloc::{AllocError, Global};
use std::collections::HashSet;

/// No span is known.
pub(crate) fn none_known(alloc: Global) -> HashSet<usize>
    ensures { Knows result [] }
{
    HashSet::new(alloc)
}

/// As many as a table may have room for to be used again: to empty a larger one takes longer than to make one.
const SMALL_ROOM: usize = 16;

/// No span is known any more; a small table is used again.
pub(crate) fn forget(alloc: Global, known: &mut HashSet<usize>)
    ensures { Knows known.new [] }
{
    if known.capacity() > SMALL_ROOM {
        *known = HashSet::new(alloc);
    } else {
        known.clear();
    }
}

/// Whether a span is known.
pub(crate) fn knows(known: &HashSet<usize>, place: usize) -> bool
    ensures { (places : List ℕ) → Knows known.now places → result ≡ list_any (nat_eq place) places }
{
    known.contains(&place)
}

/// Gets to know a span.
pub(crate) fn learn(known: &mut HashSet<usize>, place: usize) -> Result<(), AllocError>
    ensures { (places : List ℕ) → Knows known.old places → OnOk result (Knows known.new (places ++ place ∷ [])) }
{
    known.insert(place)?;
    Ok(())
}
