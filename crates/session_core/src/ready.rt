//! Commits that are prepared.
ghost use Rattle.std.specs.Prelude.{◌≡◌};

use share_tree::Held;
use stage_graph::Edits;
use std::marker::Model;
use version_store::{StateRepresentation, Version};

/// A commit that is prepared, with the version to come.
#[derive(Drop)]
pub struct Ready<R: StateRepresentation> {
    pub(crate) who: u32,
    pub(crate) session: u32,
    pub(crate) base: u32,
    pub(crate) edit: Held<Edits>,
    pub(crate) version: Version<R>,
}

impl<R: StateRepresentation> Model for Ready<R> {
    ghost use Rattle.std.specs.Coded.{codes};
    ghost use Rattle.act_expr.specs.ExpressionCode.{coded_expression};
    ghost use Rattle.session_core.specs.Ready.{PlainReady};

    ghost Value = { PlainReady };

    ghost coded = { Prim.hlevel (codes, coded_expression) };

    ghost view = { λ ready. record { who = ready.who; session = ready.session; base = ready.base; edits = ready.edit; version = ready.version } };
}

impl<R: StateRepresentation> Ready<R> {
    /// The version to come.
    pub fn version(&self) -> &Version<R>
        ensures { result.now ≡ self.now.version }
    {
        &self.version
    }
}
