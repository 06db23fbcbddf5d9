//! Which of the candidates have a row, and in which order.
ghost use Rattle.std.specs.Prelude.{◌≤◌, IfOk, IsPermutation, length};
ghost use Rattle.std.specs.List.Sorted.{IsNonDecreasingBy, IsStableByKey};
ghost use Rattle.std.specs.Ordering.{nat_cmp};
ghost use Rattle.version_rows.specs.Candidates.{IsChosen, order_in, rest_in};
ghost use Rattle.version_rows.specs.Rooms.{most_rows};

use crate::candidate::Candidate;
use crate::room::Room;
use std::alloc::AllocError;

/// Those of the candidates that have a row, by start and place.
pub(crate) fn chosen(candidates: Vec<Candidate>, room: Room) -> Result<Vec<Candidate>, AllocError>
    ensures chosen { IfOk result (λ chosen. IsChosen room candidates.items chosen.items) }
    ensures few { IfOk result (λ chosen. length chosen.items ≤ most_rows room) }
{
    let mut ranked = by_rest(candidates)?;
    let most = room.most_rows();
    ranked.truncate(most);
    let chosen = by_order(ranked)?;
    Ok(chosen)
}

fn by_rest(mut candidates: Vec<Candidate>) -> Result<Vec<Candidate>, AllocError>
    ensures same { IfOk result (λ ranked. IsPermutation candidates.items ranked.items) }
    ensures by_rest { IfOk result (λ ranked. IsNonDecreasingBy rest_in ranked.items) }
    ensures by_place { IfOk result (λ ranked. IsStableByKey rest_in nat_cmp candidates.items ranked.items) }
{
    candidates.sort_by_key(|candidate| candidate.rest)?;
    Ok(candidates)
}

fn by_order(mut candidates: Vec<Candidate>) -> Result<Vec<Candidate>, AllocError>
    ensures same { IfOk result (λ chosen. IsPermutation candidates.items chosen.items) }
    ensures by_start { IfOk result (λ chosen. IsNonDecreasingBy order_in chosen.items) }
{
    candidates.sort_by_key(|candidate| candidate.order)?;
    Ok(candidates)
}
