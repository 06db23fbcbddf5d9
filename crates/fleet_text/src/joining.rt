//! The parts of traces, joined.
ghost use Rattle.std.specs.Prelude.{◌≡◌, ◌≢◌, ◌<◌, ℕ, ◌∷◌, All, Err, IfOk, MatchOption, length, map, slice_index_or};
ghost use Rattle.fleet_summary.specs.Counters.{IsSound};
ghost use Rattle.fleet_text.specs.Parts.{IsJoinOf, basis_of, summary_of};
ghost use Rattle.fleet_text.specs.declared.join_fault.JoinFault.TheVariants.{OtherBasis};
ghost use Rattle.fleet_text.specs.declared.part.PartSummary.{PartSummary};

use crate::basis::Basis;
use crate::join_fault::JoinFault;
use crate::part::PartSummary;
use fleet_summary::Summary;
use std::alloc::{AllocError, Global};

/// The first of some parts whose numbers are of something else.
fn first_other(basis: &Basis, parts: &[PartSummary]) -> Option<usize>
    ensures { MatchOption result (All (λ part. basis_of part ≡ basis.now) parts.now)
        (λ index. (index < length parts.now) × ((or : PartSummary) → basis_of (slice_index_or parts.now index or) ≢ basis.now)) }
{
    for index in 0..parts.len() {
        if !parts[index].basis.is_same(basis) {
            return Some(index);
        }
    }
    None
}

/// The join of a summary and some parts' summaries.
fn join_each(alloc: Global, first: &Summary, parts: &[PartSummary]) -> Result<Summary, AllocError>
    ensures joined { IfOk result (IsJoinOf (first.now ∷ map summary_of parts.now)) }
    ensures sound { IfOk result IsSound }
{
    let mut joined = Summary::new(alloc);
    joined.absorb(alloc, first)?;
    for part in parts {
        joined.absorb(alloc, &part.summary)?;
    }
    Ok(joined)
}

/// The summaries of a first part and the others, joined: each number is the sum of those of all parts. The order of the parts
/// makes no difference.
///
/// Errors: `OtherBasis` with the place of the first of the others whose numbers are of something else; `Memory`.
pub fn join_parts(
    alloc: Global,
    first: &PartSummary,
    others: &[PartSummary],
) -> Result<PartSummary, JoinFault>
    ensures joined { IfOk result (λ joined. IsJoinOf (map summary_of (first.now ∷ others.now)) joined.summary) }
    ensures sound { IfOk result (λ joined. IsSound joined.summary) }
    ensures basis { IfOk result (λ joined. All (λ part. basis_of part ≡ joined.basis) (first.now ∷ others.now)) }
    ensures other { (index : ℕ) → result ≡ Err (OtherBasis index) →
        (index < length others.now) × ((or : PartSummary) → basis_of (slice_index_or others.now index or) ≢ basis_of first.now) }
{
    match first_other(&first.basis, others) {
        Some(index) => Err(JoinFault::OtherBasis(index)),
        None => Ok(PartSummary {
            basis: first.basis.copy(alloc)?,
            summary: join_each(alloc, &first.summary, others)?,
        }),
    }
}
