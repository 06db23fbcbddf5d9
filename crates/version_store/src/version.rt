//! Versions: a graph under its number.
ghost use Rattle.std.specs.Prelude.{◌≡◌, ◌+◌, ◌*◌, ◌^◌, ◌≤◌, None, Some, IfOk, IfSome, MatchResult, option_copied};
ghost use Rattle.std.specs.Option.{option_map};
ghost use Rattle.stage_graph.specs.Plain.{place_named, stage_at, dependents, IsLive};
ghost use Rattle.stage_graph.specs.Walk.{IsRanked, rank};
ghost use Rattle.stage_ops.specs.Joins.{joined};
ghost use Rattle.stage_ops.specs.Java.{java_step};
ghost use Rattle.scratch_eval.specs.Answers.{NoneQueued};
ghost use Rattle.scratch_eval.specs.Path.{IsPath, path, reason_at};
ghost use Rattle.scratch_eval.specs.Queries.{AnswersOrMemory, chain_at, list_at};
ghost use Rattle.version_store.specs.Plain.{opening_version, numbered, parent_of};
ghost use Rattle.version_store.specs.Queries.{state_of, told, found, outcome_in, moment_in, start_in, before, held_as, touched_by_place, touched_in, touched_of, KeepsOthers};

use crate::before::Before;
use crate::evaluated::Evaluated;
use crate::origin::Origin;
use crate::view::StageView;
use act_expr::Outcome;
use propagate::{KeptState, StateRepresentation};
use scratch_eval::QueryFault;
use share_tree::{Again, Held};
use stage_graph::{Graph, NoStage, Places};
use stage_ops::{Join, Reason, State};
use std::alloc::{AllocError, Global};
use std::marker::Model;

/// A graph under its number.
#[derive(Drop)]
pub struct Version<R: StateRepresentation> {
    number: u32,
    graph: Held<Evaluated<R>>,
    origin: Option<Origin<R>>,
    touched: Held<Places>,
}

impl<R: StateRepresentation> Model for Version<R> {
    ghost use Rattle.version_store.specs.Plain.{PlainVersion};

    ghost Value = { PlainVersion };

    ghost use Rattle.std.specs.Coded.{codes};
    ghost use Rattle.act_expr.specs.ExpressionCode.{coded_expression};

    ghost coded = { Prim.hlevel (codes, coded_expression) };

    ghost use Rattle.std.specs.Prelude.{◌≡◌, IfSome};
    ghost use Rattle.version_store.specs.Queries.{KeepsOthers, touched_in};

    ghost view = { λ version. record { number = version.number; graph = version.graph; origin = version.origin } };

    ghost invariant = { λ version. (version.touched ≡ touched_in version.origin version.graph) × IfSome version.origin (λ origin. KeepsOthers origin version.graph) };
}

impl<R: StateRepresentation> Again for Version<R> {
    fn again(&self) -> Result<Version<R>, AllocError> {
        Ok(Version {
            number: self.number,
            graph: self.graph.again()?,
            origin: self.origin.again()?,
            touched: self.touched.again()?,
        })
    }
}

impl<R: StateRepresentation> Version<R> {
    /// The graph as version 0.
    pub fn load(alloc: Global, graph: Graph<R>) -> Result<Version<R>, AllocError>
        requires { IsRanked graph.places }
        ensures { IfOk result (λ version. version ≡ opening_version graph) }
    {
        Ok(Version {
            number: 0,
            graph: Held::new(alloc, Evaluated::load(alloc, graph)?)?,
            origin: None,
            touched: Held::new(alloc, Places::new(alloc))?,
        })
    }

    /// The version that a draft becomes.
    pub(crate) fn made(
        number: u32,
        graph: Held<Evaluated<R>>,
        origin: Origin<R>,
        touched: Held<Places>,
    ) -> Version<R>
        requires touched { touched ≡ touched_in (Some origin) graph }
        requires others { KeepsOthers origin graph }
        ensures { result ≡ numbered (record { origin = origin; graph = graph }) number }
    {
        Version {
            number,
            graph,
            origin: Some(origin),
            touched,
        }
    }

    /// The graph with the states of its stages.
    #[inline(always)]
    pub(crate) fn evaluated(&self) -> &Held<Evaluated<R>>
        ensures { result.now ≡ self.now.graph }
    {
        &self.graph
    }

    /// The version's number.
    pub fn number(&self) -> u32
        ensures { result ≡ self.now.number }
    {
        self.number
    }

    /// The number of the version's parent, if it has one.
    pub fn parent(&self) -> Option<u32>
        ensures { result ≡ parent_of self.now }
    {
        match &self.origin {
            Some(origin) => Some(origin.number()),
            None => None,
        }
    }

    /// The version's graph.
    #[inline(always)]
    pub fn graph(&self) -> &Graph<R>
        ensures graph { result.now ≡ self.now.graph }
        ensures ranked { IsRanked self.now.graph.places }
    {
        self.graph.graph()
    }

    /// Where the stage of a name stands.
    pub fn id_of(&self, name: &str) -> Result<u32, NoStage>
        ensures { result ≡ found (place_named self.now.graph.places name.now) }
    {
        match self.graph().id_of(name) {
            Some(place) => Ok(place),
            None => Err(NoStage),
        }
    }

    /// The live stage at a place; none at an empty place and past the end.
    #[inline(always)]
    pub fn stage(&self, place: u32) -> Option<StageView<'_, R>>
        ensures version { IfSome result (λ view. view.version.now ≡ self.now) }
        ensures place { IfSome result (λ view. view.place ≡ place) }
        ensures stage { option_map (λ view. view.stage.now) result ≡ stage_at self.now.graph.places place }
    {
        match self.graph().stage(place) {
            Some(stage) => Some(StageView {
                version: self,
                place,
                stage,
            }),
            None => None,
        }
    }

    /// The state of the stage at a place.
    pub fn state(&self, place: u32) -> Result<State, NoStage>
        ensures { result ≡ told self.now.graph place (state_of self.now.graph place) }
    {
        Ok(self.stage(place).ok_or(NoStage)?.state())
    }

    /// The outcome of the stage at a place; none while it is pending.
    pub fn outcome(&self, place: u32) -> Result<Option<Outcome>, NoStage>
        ensures { result ≡ told self.now.graph place (outcome_in (state_of self.now.graph place)) }
    {
        Ok(self.stage(place).ok_or(NoStage)?.outcome())
    }

    /// The tick at which the stage at a place completed; none while it is pending. It is 2^42 at most, and 2^41 more for
    /// each rank; where no action is queued, it is half of that at most.
    pub fn moment(&self, place: u32) -> Result<Option<u64>, NoStage>
        ensures moment { result ≡ told self.now.graph place (moment_in (state_of self.now.graph place)) }
        ensures bound { IfOk result (λ moment. IfSome moment (λ tick. tick ≤ 2 ^ 42 + rank self.now.graph.places place * 2 ^ 41)) }
        ensures unqueued { NoneQueued self.now.graph.places → IfOk result (λ moment. IfSome moment (λ tick. tick ≤ 2 ^ 41 + rank self.now.graph.places place * 2 ^ 40)) }
    {
        // With its length a graph says that it is sound, as every graph is.
        let _ = self.graph().len();
        self.completed(place)
    }

    /// The tick at which the stage at a place completed.
    fn completed(&self, place: u32) -> Result<Option<u64>, NoStage>
        ensures { result ≡ told self.now.graph place (moment_in (state_of self.now.graph place)) }
    {
        Ok(self.stage(place).ok_or(NoStage)?.moment())
    }

    /// The tick at which the action of the stage at a place started; none while the stage is pending, and if no
    /// action of its own led to its outcome.
    pub fn start(&self, place: u32) -> Result<Option<u64>, NoStage>
        ensures { result ≡ told self.now.graph place (start_in (state_of self.now.graph place)) }
    {
        Ok(self.stage(place).ok_or(NoStage)?.start())
    }

    /// What `join` answers on the stage at a place.
    pub fn join(&self, place: u32) -> Result<Join, NoStage>
        ensures { result ≡ told self.now.graph place (joined (state_of self.now.graph place)) }
    {
        Ok(self.stage(place).ok_or(NoStage)?.join())
    }

    /// The rank of the stage at a place: 0 without feeds, else 1 above the greatest rank of a feed.
    pub fn rank(&self, place: u32) -> Result<u32, NoStage>
        ensures { result ≡ told self.now.graph place (rank self.now.graph.places place) }
    {
        Ok(self.stage(place).ok_or(NoStage)?.rank())
    }

    /// The places whose stages have the stage at a place among their feeds, each once, in order.
    pub fn dependents(&self, place: u32) -> Result<&[u32], NoStage>
        ensures { MatchResult result
            (λ its_dependents. (its_dependents.now ≡ dependents self.now.graph.places place) × IsLive self.now.graph.places place)
            (λ _. stage_at self.now.graph.places place ≡ None) }
    {
        Ok(self.stage(place).ok_or(NoStage)?.dependents())
    }

    /// The stages that the version's edits touch: those that the edits name, and those that read one whose outcome,
    /// moment or blamed source is not that of the parent; by rank, and then by place. There are none of version 0.
    /// All other stages are the same in the parent.
    pub fn touched(&self) -> &[u32]
        ensures touched { result.now ≡ touched_of self.now }
        ensures others { IfSome self.now.origin (λ origin. KeepsOthers origin self.now.graph) }
    {
        self.touched.as_slice()
    }

    /// The same stages, ordered by place only.
    pub fn touched_by_place(&self, alloc: Global) -> Result<Vec<u32>, AllocError>
        ensures { IfOk result (λ places. places.items ≡ touched_by_place self.now) }
    {
        let mut places = Vec::from_slice(alloc, self.touched())?;
        places.sort_unstable();
        Ok(places)
    }

    /// The chain of blame of the stage at a place: empty unless it completed exceptionally, else the stage itself, and
    /// then the chain of the source whose exception it handed on.
    pub fn blame(&self, alloc: Global, place: u32) -> Result<Places, QueryFault>
        ensures { AnswersOrMemory (chain_at (java_step self.now.graph.mode) self.now.graph.places place) result }
    {
        match self.stage(place) {
            Some(view) => Ok(view.blame(alloc)?),
            None => Err(QueryFault::NoStage),
        }
    }

    /// The cause of the state of the stage at a place: why it completed when it did, or why it is pending.
    pub fn reason(&self, place: u32) -> Result<Reason, NoStage>
        ensures { result ≡ told self.now.graph place (reason_at self.now.graph place) }
    {
        Ok(self.stage(place).ok_or(NoStage)?.reason())
    }

    /// The path of the stage at a place: the stage itself, and then the path of the feed that its cause names. It looks
    /// only at the stages on the path and at their feeds.
    pub fn path(&self, alloc: Global, place: u32) -> Result<Places, QueryFault>
        ensures answer { AnswersOrMemory (list_at (path self.now.graph) place (stage_at self.now.graph.places place)) result }
        ensures adds_up { IfOk result (IsPath self.now.graph place) }
    {
        match self.stage(place) {
            Some(view) => Ok(view.path(alloc)?),
            None => Err(QueryFault::NoStage),
        }
    }

    /// What the stage at a place was in the parent.
    pub fn before(&self, place: u32) -> Result<Before, NoStage>
        ensures { result ≡ told self.now.graph place (before self.now.origin place) }
    {
        Ok(self.stage(place).ok_or(NoStage)?.before())
    }

    /// The state of the stage at a place of the parent, where it is stored; none where no stage stood.
    #[inline(always)]
    pub(crate) fn kept_before(&self, place: u32) -> Option<&KeptState>
        ensures { held_as (option_copied result) ≡ before self.now.origin place }
    {
        match &self.origin {
            Some(origin) => origin.kept(place),
            None => None,
        }
    }

    /// What stood at a place in the parent.
    pub(crate) fn held_before(&self, place: u32) -> Before
        ensures { result ≡ before self.now.origin place }
    {
        match &self.origin {
            Some(origin) => origin.before(place),
            None => Before::Absent,
        }
    }
}
