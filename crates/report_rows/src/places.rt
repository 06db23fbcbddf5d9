//! The places of the stages that a report looks at.
ghost use Rattle.std.specs.Prelude.{◌≡◌, IfOk};
ghost use Rattle.stage_graph.specs.Plain.{all_places};
ghost use Rattle.report_rows.specs.Listings.{rows_at};
ghost use Rattle.report_rows.specs.declared.listing.Listing.TheVariants.{Shifts};

use propagate::StateRepresentation;
use stage_graph::{Graph, Representation};
use std::alloc::{AllocError, Global};
use version_store::Version;

/// All places of a graph, the empty ones among them.
pub(crate) fn all_places<R: Representation>(
    alloc: Global,
    graph: &Graph<R>,
) -> Result<Vec<u32>, AllocError>
    ensures { IfOk result (λ places. places.items ≡ all_places graph.now.places) }
{
    let mut places = Vec::with_capacity(alloc, graph.len())?;
    for place in 0..graph.len() as u32 {
        places.push(place)?;
    }
    Ok(places)
}

// Whether so few stages are touched that it takes less to bring them into the order of their places than to look at all.
fn are_few_touched<R: StateRepresentation>(version: &Version<R>) -> bool {
    version.touched().len() < version.graph().len() / 16
}

/// Places, in order, among which are those of all stages that complete at another moment than in the parent. A stage that
/// the edits don't touch completes as it did, so where few are touched only these are looked at.
pub(crate) fn shifted_places<R: StateRepresentation>(
    alloc: Global,
    version: &Version<R>,
) -> Result<Vec<u32>, AllocError>
    ensures { IfOk result (λ places. rows_at Shifts version.now version.now places.items ≡ rows_at Shifts version.now version.now (all_places version.now.graph.places)) }
{
    if are_few_touched(version) {
        touched_places(alloc, version)
    } else {
        all_places(alloc, version.graph())
    }
}

// Those of the touched stages.
fn touched_places<R: StateRepresentation>(
    alloc: Global,
    version: &Version<R>,
) -> Result<Vec<u32>, AllocError>
    ensures { IfOk result (λ places. rows_at Shifts version.now version.now places.items ≡ rows_at Shifts version.now version.now (all_places version.now.graph.places)) }
{
    // With the touched stages the version says that all others are as in its parent.
    let _ = version.touched();
    version.touched_by_place(alloc)
}
