//! The order of a whole graph.
ghost use Rattle.std.specs.Prelude.{◌≡◌, ◌≤◌, length, map, IfOk};
ghost use Rattle.stage_graph.specs.Walk.{rank, IsRanked};
ghost use Rattle.stage_graph.specs.Plain.{all_places};
ghost use Rattle.rank_order.specs.Orders.{order_of};

use crate::dependent_lists::dependents_of;
use crate::lists::{add, grown};
use crate::order::Order;
use crate::ranks::rank_by_feeds;
use crate::representation::OrderRepresentation;
use share_tree::{Again, Held, Keeps};
use stage_graph::{Graph, ranked_order};
use std::alloc::{AllocError, Global};
use std::ops::Deref;

/// The ranks of a ranked graph's places, each found after those of its feeds.
fn ranks_of<R: OrderRepresentation>(alloc: Global, graph: &Graph<R>) -> Result<R::Ranks, AllocError>
    requires { IsRanked graph.now.places }
    ensures { IfOk result (λ ranks. R.Ranks.items ranks ≡ map (rank graph.now.places) (all_places graph.now.places)) }
{
    let order = ranked_order(alloc, graph)?;
    let mut ranks = grown(&R::Ranks::empty(alloc), &0, graph.len())?;
    for place in order.as_slice() {
        let rank = rank_by_feeds(&ranks, graph, *place);
        ranks.write(*place as usize, rank)?;
    }
    Ok(ranks)
}

/// The list of these ranks.
fn list_of_ranks<R: OrderRepresentation>(
    alloc: Global,
    ranks: &[u32],
) -> Result<R::Ranks, AllocError>
    requires { length ranks.now ≤ 65536 }
    ensures { IfOk result (λ list. R.Ranks.items list ≡ ranks.now) }
{
    let mut list = R::Ranks::empty(alloc);
    for rank in ranks {
        add(&mut list, *rank)?;
    }
    Ok(list)
}

impl<R: OrderRepresentation> Order<R> {
    /// The order of a ranked graph: one pass over its stages in depth-first order for the ranks, and one for the dependents.
    pub fn build(alloc: Global, graph: &Held<Graph<R>>) -> Result<Order<R>, AllocError>
        requires { IsRanked graph.now.places }
        ensures { IfOk result (λ order. order ≡ order_of graph.now) }
    {
        let ranks = ranks_of(alloc, graph.deref())?;
        Order::of(alloc, graph, ranks)
    }

    /// The order of a ranked graph whose ranks are known, by place: one pass over its stages for the dependents.
    pub fn with_ranks(
        alloc: Global,
        graph: &Held<Graph<R>>,
        ranks: &[u32],
    ) -> Result<Order<R>, AllocError>
        requires ranked { IsRanked graph.now.places }
        requires ranks { ranks.now ≡ map (rank graph.now.places) (all_places graph.now.places) }
        ensures { IfOk result (λ order. order ≡ order_of graph.now) }
    {
        // With its length a graph says that it is sound, and so how many places it has at most.
        let _ = graph.len();
        let ranks = list_of_ranks::<R>(alloc, ranks)?;
        Order::of(alloc, graph, ranks)
    }

    /// The order of a ranked graph with these ranks.
    fn of(alloc: Global, graph: &Held<Graph<R>>, ranks: R::Ranks) -> Result<Order<R>, AllocError>
        requires ranked { IsRanked graph.now.places }
        requires ranks { R.Ranks.items ranks ≡ map (rank graph.now.places) (all_places graph.now.places) }
        ensures { IfOk result (λ order. order ≡ order_of graph.now) }
    {
        let dependents = dependents_of::<R>(alloc, graph.deref())?;
        Ok(Order {
            graph: graph.again()?,
            ranks,
            dependents,
        })
    }
}
