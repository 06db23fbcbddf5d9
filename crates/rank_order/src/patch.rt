//! The order of a changed graph, from that of the graph before.
ghost use Rattle.std.specs.Prelude.{◌≡◌, IfOk, IfErr, OnOk};
ghost use Rattle.stage_graph.specs.Walk.{IsRanked};
ghost use Rattle.stage_graph.specs.Kept.{IsChangeBy};
ghost use Rattle.rank_order.specs.Orders.{order_of};
ghost use Rattle.rank_order.specs.Moved.{emptied, moved_by, moved_places, IsPatchFault};

use crate::fault::PatchFault;
use crate::lists::grown;
use crate::order::Order;
use crate::representation::OrderRepresentation;
use crate::rewire::patched_dependents;
use crate::settle::patched_ranks;
use share_tree::{Again, Held};
use stage_graph::{Edit, Edits, Graph, Representation};
use std::alloc::{AllocError, Global};
use std::ops::Deref;

/// The place, if nothing stands there.
fn emptied<R: Representation>(graph: &Graph<R>, place: Option<u32>) -> Option<u32>
    ensures { result ≡ emptied graph.now.places place }
{
    let place = place?;
    match graph.stage(place) {
        Some(_) => None,
        None => Some(place),
    }
}

/// The place of the stage that an edit adds or rewires, or of the one that it removes.
fn moved_by<R: Representation>(old: &Graph<R>, changed: &Graph<R>, edit: &Edit) -> Option<u32>
    ensures { result ≡ moved_by old.now.places changed.now.places edit.now }
{
    match edit {
        Edit::Add(spec) => changed.id_of(spec.name.as_str()),
        Edit::Rewire { name, .. } => changed.id_of(name.as_str()),
        Edit::Remove(name) => emptied(changed, old.id_of(name.as_str())),
        _ => None,
    }
}

/// The places whose feeds the edits may have changed.
fn moved_places<R: Representation>(
    alloc: Global,
    old: &Graph<R>,
    changed: &Graph<R>,
    edits: &[Edit],
) -> Result<Vec<u32>, AllocError>
    ensures { IfOk result (λ places. places.items ≡ moved_places old.now.places changed.now.places edits.now) }
{
    edits
        .iter()
        .filter_map(|edit| moved_by(old, changed, edit))
        .collect(alloc)
}

impl<R: OrderRepresentation> Order<R> {
    /// The order of the graph that a list of edits makes of this order's graph. The work grows with the moved stages,
    /// with the stages above them, which are ranked again for each moved one, and with the dependents of their feeds,
    /// and not with the rest of the graph. This order stays as it is.
    pub fn patch(
        &self,
        alloc: Global,
        changed: &Held<Graph<R>>,
        edits: &Edits,
    ) -> Result<Order<R>, PatchFault>
        requires { IsChangeBy edits.now self.now.graph changed.now }
        ensures ranked { OnOk result (IsRanked changed.now.places) }
        ensures order { IfOk result (λ order. order ≡ order_of changed.now) }
        ensures fault { IfErr result (IsPatchFault edits.now changed.now.places) }
    {
        let old = self.graph.deref();
        let new = changed.deref();
        // With its length a graph says that it is sound, as every graph is.
        let _ = old.len();
        let count = new.len();
        let moved = moved_places(alloc, old, new, edits.as_slice())?;
        let dependents = patched_dependents(alloc, &self.dependents, old, new, &moved)?;
        let before = grown(&self.ranks, &0, count)?;
        let ranks = match patched_ranks(alloc, &before, &dependents, new, &moved) {
            Ok(ranks) => ranks,
            Err(fault) => return Err(fault),
        };
        Ok(Order {
            graph: changed.again()?,
            ranks,
            dependents,
        })
    }
}
