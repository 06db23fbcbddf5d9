//! A view of one live stage of a version.
ghost use Rattle.std.specs.Prelude.{◌≡◌, Some, IfOk, option_copied};
ghost use Rattle.std.specs.Coded.{codes};
ghost use Rattle.act_expr.specs.ExpressionCode.{coded_expression};
ghost use Rattle.stage_graph.specs.Plain.{stage_at, dependents};
ghost use Rattle.stage_graph.specs.Walk.{rank};
ghost use Rattle.stage_ops.specs.Java.{java_step};
ghost use Rattle.stage_ops.specs.Joins.{joined};
ghost use Rattle.scratch_eval.specs.Blame.{chain};
ghost use Rattle.scratch_eval.specs.Path.{IsPath, path, reason_at};
ghost use Rattle.version_store.specs.Queries.{state_of, outcome_in, moment_in, start_in, before, held_as};
ghost use Rattle.version_store.specs.Starts.{action_start_at};

use crate::before::Before;
use crate::version::Version;
use act_expr::Outcome;
use propagate::{KeptState, StateRepresentation};
use stage_graph::{Places, Stage};
use stage_ops::{Join, Reason, State, join};
use std::alloc::{AllocError, Global};

/// A live stage of a version, looked up once. All that the version answers about a stage it answers here, and no answer
/// can be missing.
pub struct StageView<'a, R: StateRepresentation> {
    pub version: &'a Version<R>,
    pub place: u32,
    pub stage: &'a Stage,
    pub ghost stands: { stage_at version.now.graph.places place ≡ Some stage.now } by { Prim.hlevel (codes, coded_expression) },
}

impl<'a, R: StateRepresentation> Clone for StageView<'a, R> {
    fn clone(&self) -> Result<StageView<'a, R>, AllocError> {
        Ok(*self)
    }
}

impl<'a, R: StateRepresentation> Copy for StageView<'a, R> {}

impl<'a, R: StateRepresentation> StageView<'a, R> {
    /// The state of the stage.
    #[inline(always)]
    pub fn state(&self) -> State
        ensures { result ≡ state_of self.now.version.now.graph self.now.place }
    {
        self.version.evaluated().state_at(self.place)
    }

    /// The state of the stage, where it is stored.
    #[inline(always)]
    pub fn kept(&self) -> &'a KeptState
        ensures { result.now ≡ state_of self.now.version.now.graph self.now.place }
    {
        self.version.evaluated().kept_at(self.place).unwrap()
    }

    /// The outcome of the stage; none while it is pending.
    #[inline(always)]
    pub fn outcome(&self) -> Option<Outcome>
        ensures { result ≡ outcome_in (state_of self.now.version.now.graph self.now.place) }
    {
        match self.state().done {
            Some(done) => Some(done.outcome),
            None => None,
        }
    }

    /// The tick at which the stage completed; none while it is pending.
    #[inline(always)]
    pub fn moment(&self) -> Option<u64>
        ensures { result ≡ moment_in (state_of self.now.version.now.graph self.now.place) }
    {
        match self.state().done {
            Some(done) => Some(done.moment),
            None => None,
        }
    }

    /// The tick at which the action of the stage started; none while the stage is pending, and if no action of its own
    /// led to its outcome.
    #[inline(always)]
    pub fn start(&self) -> Option<u64>
        ensures { result ≡ start_in (state_of self.now.version.now.graph self.now.place) }
    {
        match self.state().done {
            Some(done) => done.start,
            None => None,
        }
    }

    /// What `join` answers on the stage.
    pub fn join(&self) -> Join
        ensures { result ≡ joined (state_of self.now.version.now.graph self.now.place) }
    {
        join(&self.state())
    }

    /// The rank of the stage: 0 without feeds, else 1 above the greatest rank of a feed.
    #[inline(always)]
    pub fn rank(&self) -> u32
        ensures { result ≡ rank self.now.version.now.graph.places self.now.place }
    {
        self.version.evaluated().rank(self.place).unwrap()
    }

    /// The places whose stages have the stage among their feeds, each once, in order.
    #[inline(always)]
    pub fn dependents(&self) -> &'a [u32]
        ensures { result.now ≡ dependents self.now.version.now.graph.places self.now.place }
    {
        self.version.evaluated().dependents(self.place).unwrap()
    }

    /// What the stage was in the parent.
    pub fn before(&self) -> Before
        ensures { result ≡ before self.now.version.now.origin self.now.place }
    {
        self.version.held_before(self.place)
    }

    /// The state of the stage in the parent, where it is stored; none where it was not there, or the version has no parent.
    #[inline(always)]
    pub fn kept_before(&self) -> Option<&'a KeptState>
        ensures { held_as (option_copied result) ≡ before self.now.version.now.origin self.now.place }
    {
        self.version.kept_before(self.place)
    }

    /// The cause of the stage's state: why it completed when it did, or why it is pending.
    pub fn reason(&self) -> Reason
        ensures { result ≡ reason_at self.now.version.now.graph self.now.place }
    {
        self.version.evaluated().reason(self.place).unwrap()
    }

    /// The tick at which the action of the stage starts by its operation, from what its feeds came to, whatever its pins
    /// and ends; none where none starts.
    pub fn action_start(&self) -> Option<u64>
        ensures { result ≡ action_start_at self.now.version.now.graph self.now.place }
    {
        self.version.evaluated().action_start(self.place)
    }

    /// The stage's chain of blame: empty unless it completed exceptionally, else the stage itself, and then the chain of
    /// the source whose exception it handed on.
    pub fn blame(&self, alloc: Global) -> Result<Places, AllocError>
        ensures { IfOk result (λ places. places ≡ chain (java_step self.now.version.now.graph.mode) self.now.version.now.graph.places self.now.place) }
    {
        self.version.evaluated().blame(alloc, self.place)
    }

    /// The stage's path: the stage itself, and then the path of the feed that its cause names. It looks only at the stages
    /// on the path and at their feeds.
    pub fn path(&self, alloc: Global) -> Result<Places, AllocError>
        ensures path { IfOk result (λ places. places ≡ path self.now.version.now.graph self.now.place) }
        ensures adds_up { IfOk result (IsPath self.now.version.now.graph self.now.place) }
    {
        self.version.evaluated().path(alloc, self.place)
    }
}
