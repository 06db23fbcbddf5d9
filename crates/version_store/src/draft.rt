//! Drafts: a version's graph with edits applied, before it is a version itself.
ghost use Rattle.std.specs.Prelude.{◌≡◌, Some, IfOk};
ghost use Rattle.version_store.specs.Plain.{numbered};
ghost use Rattle.version_store.specs.Drafts.{IsMadeBy};
ghost use Rattle.version_store.specs.Queries.{KeepsOthers, touched_in};

use crate::evaluated::Evaluated;
use crate::origin::Origin;
use crate::version::Version;
use propagate::StateRepresentation;
use share_tree::{Again, Held};
use stage_graph::{Edits, Graph, Places};
use std::alloc::AllocError;
use std::marker::Model;

/// A version's graph with edits applied, which has no number yet.
#[derive(Drop)]
pub struct Draft<R: StateRepresentation> {
    origin: Origin<R>,
    graph: Held<Evaluated<R>>,
    touched: Held<Places>,
}

impl<R: StateRepresentation> Model for Draft<R> {
    ghost use Rattle.version_store.specs.Plain.{PlainDraft};

    ghost Value = { PlainDraft };

    ghost use Rattle.std.specs.Coded.{codes};
    ghost use Rattle.act_expr.specs.ExpressionCode.{coded_expression};

    ghost coded = { Prim.hlevel (codes, coded_expression) };

    ghost use Rattle.std.specs.Prelude.{◌≡◌, Some};
    ghost use Rattle.version_store.specs.Drafts.{IsMadeBy};
    ghost use Rattle.version_store.specs.Queries.{KeepsOthers, touched_in};

    ghost view = { λ draft. record { origin = draft.origin; graph = draft.graph } };

    ghost invariant = { λ draft. IsMadeBy draft.origin draft.graph × (KeepsOthers draft.origin draft.graph × (draft.touched ≡ touched_in (Some draft.origin) draft.graph)) };
}

impl<R: StateRepresentation> Draft<R> {
    pub(crate) fn new(
        origin: Origin<R>,
        graph: Held<Evaluated<R>>,
        touched: Held<Places>,
    ) -> Draft<R>
        requires made { IsMadeBy origin graph }
        requires others { KeepsOthers origin graph }
        requires touched { touched ≡ touched_in (Some origin) graph }
        ensures { result ≡ record { origin = origin; graph = graph } }
    {
        Draft {
            origin,
            graph,
            touched,
        }
    }

    /// The number of the version that was edited.
    pub fn base(&self) -> u32
        ensures { result ≡ self.now.origin.number }
    {
        self.origin.number()
    }

    /// The graph of the version that was edited.
    pub fn base_graph(&self) -> &Graph<R>
        ensures { result.now ≡ self.now.origin.graph }
    {
        self.origin.graph()
    }

    /// The edits.
    pub fn edit(&self) -> &Held<Edits>
        ensures edits { result.now ≡ self.now.origin.edits }
        ensures made { IsMadeBy self.now.origin self.now.graph }
    {
        self.origin.edits()
    }

    /// The draft as the version of a number.
    pub fn numbered(&self, number: u32) -> Result<Version<R>, AllocError>
        ensures { IfOk result (λ version. version ≡ numbered self.now number) }
    {
        let graph = self.graph.again()?;
        let origin = self.origin.again()?;
        let touched = self.touched.again()?;
        Ok(Version::made(number, graph, origin, touched))
    }
}
