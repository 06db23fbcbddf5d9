//! Where a version comes from.
ghost use Rattle.std.specs.Prelude.{◌≡◌, Some, option_copied};
ghost use Rattle.std.specs.Option.{option_map};
ghost use Rattle.stage_graph.specs.Plain.{stage_at};
ghost use Rattle.version_store.specs.Queries.{before, state_of};

use crate::before::Before;
use crate::evaluated::Evaluated;
use propagate::{KeptState, StateRepresentation};
use share_tree::{Again, Held};
use stage_graph::{Edits, Graph};
use std::alloc::AllocError;
use std::marker::Model;

/// Where a version comes from: its parent, by number and graph, and the edits that were applied to it.
#[derive(Drop)]
pub(crate) struct Origin<R: StateRepresentation> {
    number: u32,
    graph: Held<Evaluated<R>>,
    edits: Held<Edits>,
}

impl<R: StateRepresentation> Model for Origin<R> {
    ghost use Rattle.version_store.specs.Plain.{Origin as PlainOrigin};

    ghost Value = { PlainOrigin };

    ghost use Rattle.std.specs.Coded.{codes};
    ghost use Rattle.act_expr.specs.ExpressionCode.{coded_expression};

    ghost coded = { Prim.hlevel (codes, coded_expression) };

    ghost view = { λ origin. record { number = origin.number; graph = origin.graph; edits = origin.edits } };
}

impl<R: StateRepresentation> Origin<R> {
    pub(crate) fn new(number: u32, graph: Held<Evaluated<R>>, edits: Held<Edits>) -> Origin<R>
        ensures { result ≡ record { number = number; graph = graph; edits = edits } }
    {
        Origin {
            number,
            graph,
            edits,
        }
    }

    /// The number of the parent.
    pub(crate) fn number(&self) -> u32
        ensures { result ≡ self.now.number }
    {
        self.number
    }

    /// The graph of the parent.
    pub(crate) fn graph(&self) -> &Graph<R>
        ensures { result.now ≡ self.now.graph }
    {
        self.graph.graph()
    }

    /// What a stage held in the parent's graph.
    pub(crate) fn before(&self, place: u32) -> Before
        ensures { result ≡ before (Some self.now) place }
    {
        self.graph.holds(place)
    }

    /// The state of the stage at a place of the parent's graph, where it is stored; none where no stage stood.
    #[inline(always)]
    pub(crate) fn kept(&self, place: u32) -> Option<&KeptState>
        ensures { option_copied result ≡ option_map (λ stage. state_of self.now.graph place) (stage_at self.now.graph.places place) }
    {
        self.graph.kept(place)
    }

    /// The edits.
    pub(crate) fn edits(&self) -> &Held<Edits>
        ensures { result.now ≡ self.now.edits }
    {
        &self.edits
    }
}

impl<R: StateRepresentation> Again for Origin<R> {
    fn again(&self) -> Result<Origin<R>, AllocError> {
        Ok(Origin {
            number: self.number,
            graph: self.graph.again()?,
            edits: self.edits.again()?,
        })
    }
}
