//! The changed stages of a trial: each at its own place, in the order of their places.
ghost use Rattle.std.specs.Prelude.{◌≡◌, ◌&&◌, ◌||◌, ◌==◌, ℕ, IfOk, OnOk, is_some, option_copied};
ghost use Rattle.rank_order.specs.Marks.{is_marked, AreMarks};
ghost use Rattle.time_sweep.specs.Known.{rank_in, AreRanksBy};
ghost use Rattle.time_sweep.specs.WithStage.{is_changed, stage_among, Ascend};

use crate::known::known_rank;
use rank_order::Marks;
use stage_graph::Stage;
use std::alloc::{AllocError, Global};

/// The one that stands at a place, found by a binary search.
fn searched(changed: &[Stage], place: u32) -> Option<&Stage>
    requires { Ascend changed.now }
    ensures { option_copied result ≡ stage_among changed.now place }
{
    match changed.binary_search_by_key(&place, |stage| stage.place) {
        Ok(at) => Some(&changed[at]),
        Err(_) => None,
    }
}

/// The one that stands at a place, if one does. Most trials change one stage alone, which is not searched for.
#[inline(always)]
pub(crate) fn stage_among(changed: &[Stage], place: u32) -> Option<&Stage>
    requires { Ascend changed.now }
    ensures { option_copied result ≡ stage_among changed.now place }
{
    let first = changed.first()?;
    if first.place == place {
        return Some(first);
    }
    if changed.len() == 1 {
        return None;
    }
    searched(changed, place)
}

/// Marks a place, if its rank is known.
#[inline(always)]
fn mark(marks: &mut Marks, ranks: &[Option<u32>], place: u32) -> Result<(), AllocError>
    ensures marked { OnOk result ((order : ℕ → ℕ) → AreRanksBy order ranks.now → (other : ℕ) → is_marked order marks.new other
        ≡ (is_marked order marks.old other || (is_some (rank_in ranks.now place) && other == place))) }
    ensures marks { OnOk result ((order : ℕ → ℕ) → AreRanksBy order ranks.now → AreMarks order marks.old → AreMarks order marks.new) }
{
    match known_rank(ranks, place) {
        Some(rank) => marks.insert(rank, place),
        None => Ok(()),
    }
}

/// The marks of a trial at its beginning: of the changed stages those whose rank is known have to be computed.
pub(crate) fn first_marks(
    alloc: Global,
    ranks: &[Option<u32>],
    changed: &[Stage],
) -> Result<Marks, AllocError>
    ensures marked { IfOk result (λ marks. (order : ℕ → ℕ) → AreRanksBy order ranks.now
        → (place : ℕ) → is_marked order marks place ≡ (is_some (rank_in ranks.now place) && is_changed changed.now place)) }
    ensures marks { IfOk result (λ marks. (order : ℕ → ℕ) → AreRanksBy order ranks.now → AreMarks order marks) }
{
    let mut marks = Marks::new(alloc);
    for stage in changed {
        mark(&mut marks, ranks, stage.place)?;
    }
    Ok(marks)
}
