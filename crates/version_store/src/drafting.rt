//! Drafting a version.
ghost use Rattle.std.specs.Prelude.{◌≡◌, ◌≤◌, ◌+◌, ◌^◌, Some, IfOk, OnErr, length};
ghost use Rattle.version_store.specs.Drafts.{Drafts, IsCountAfter};
ghost use Rattle.version_store.specs.Queries.{touched_in};

use crate::draft::Draft;
use crate::origin::Origin;
use crate::version::Version;
use level_pool::Runner;
use propagate::StateRepresentation;
use share_tree::{Again, Held};
use stage_graph::{Edits, Fault};
use stage_ops::Meter;
use std::alloc::Global;
use std::marker::Sync;

/// The marker of the meter of a draft that nobody counts.
#[derive(Drop)]
struct OneDraft;

impl<R: StateRepresentation> Version<R> {
    /// The draft that a list of edits makes of the version. Only the stages that the edits touch are computed, each
    /// once, and the meter rises by their number.
    ///
    /// Errors: the refusals of the edits, as by [`stage_graph::Graph::apply`], after which the meter is unchanged,
    /// and out of memory.
    pub fn draft<N: Sync, W: Runner>(
        &self,
        alloc: Global,
        edits: &Held<Edits>,
        runner: &W,
        meter: &mut Meter<N>,
    ) -> Result<Draft<R>, Fault>
        requires { meter.old ≤ 2 ^ 63 }
        ensures drafts { Drafts self.now edits.now result }
        ensures counted { IfOk result (λ draft. meter.new ≡ meter.old + length (touched_in (Some draft.origin) draft.graph)) }
        ensures refused { OnErr result (IsCountAfter edits.now self.now.graph meter.old meter.new) }
    {
        let edited = match self.evaluated().edited(alloc, edits, runner, meter) {
            Ok(edited) => edited,
            Err(fault) => return Err(fault),
        };
        let graph = Held::new(alloc, edited.graph)?;
        let touched = Held::new(alloc, edited.touched)?;
        let origin = Origin::new(self.number(), self.evaluated().again()?, edits.again()?);
        Ok(Draft::new(origin, graph, touched))
    }

    /// The same draft, for which nobody asks how many stages are computed. All programs that go this way have one compiled form
    /// of what computes a draft.
    ///
    /// Errors: as [`Version::draft`].
    pub fn drafted<W: Runner>(
        &self,
        alloc: Global,
        edits: &Held<Edits>,
        runner: &W,
    ) -> Result<Draft<R>, Fault>
        ensures { Drafts self.now edits.now result }
    {
        let mut meter = Meter::new(OneDraft);
        self.draft(alloc, edits, runner, &mut meter)
    }
}
