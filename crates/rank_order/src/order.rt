//! Orders: ranks and dependents of a graph's places.
ghost use Rattle.std.specs.Prelude.{◌≡◌, None, MatchResult};
ghost use Rattle.stage_graph.specs.Plain.{stage_at, IsLive, dependents};
ghost use Rattle.stage_graph.specs.Walk.{rank};
ghost use Rattle.rank_order.specs.Orders.{IsOrder, at_live};

use crate::dependent_lists::dependents_at;
use crate::ranks::rank_at;
use crate::representation::OrderRepresentation;
use share_tree::Held;
use stage_graph::{Graph, NoStage};
use std::marker::Model;

/// The rank of each place of a ranked graph, and the dependents of each place.
#[derive(Drop)]
pub struct Order<R: OrderRepresentation> {
    pub(crate) graph: Held<Graph<R>>,
    pub(crate) ranks: R::Ranks,
    pub(crate) dependents: R::Dependents,
}

impl<R: OrderRepresentation> Model for Order<R> {
    ghost use Rattle.rank_order.specs.Orders.{PlainOrder, IsOrder};

    ghost Value = { PlainOrder };

    ghost use Rattle.std.specs.Coded.{codes};
    ghost use Rattle.act_expr.specs.ExpressionCode.{coded_expression};

    ghost coded = { Prim.hlevel (codes, coded_expression) };

    ghost view = { λ order. record { graph = order.graph; ranks = R.Ranks.items order.ranks; dependents = R.Dependents.items order.dependents } };

    ghost invariant = { λ order. IsOrder (record { graph = order.graph; ranks = R.Ranks.items order.ranks; dependents = R.Dependents.items order.dependents }) };
}

impl<R: OrderRepresentation> Order<R> {
    /// The rank of the stage at a place: 0 without feeds, else 1 above the greatest rank of a feed. Allocates nothing.
    #[inline(always)]
    pub fn rank(&self, place: u32) -> Result<u32, NoStage>
        ensures rank { result ≡ at_live (stage_at self.now.graph.places place) (rank self.now.graph.places place) }
        ensures order { IsOrder self.now }
    {
        match self.graph.stage(place) {
            Some(_) => Ok(rank_at(&self.ranks, place)),
            None => Err(NoStage),
        }
    }

    /// The dependents of the stage at a place: the places with it as a feed, in order. Allocates nothing.
    #[inline(always)]
    pub fn dependents(&self, place: u32) -> Result<&[u32], NoStage>
        ensures { MatchResult result (λ its_dependents. (its_dependents.now ≡ dependents self.now.graph.places place) × IsLive self.now.graph.places place) (λ fault. stage_at self.now.graph.places place ≡ None) }
    {
        match self.graph.stage(place) {
            Some(_) => Ok(dependents_at(&self.dependents, place)),
            None => Err(NoStage),
        }
    }
}
