//! A graph with its order and the states of its stages.
ghost use Rattle.std.specs.Prelude.{◌≡◌, ◌≤◌, ◌+◌, ◌^◌, None, Some, IfOk, IfErr, OnErr, MatchOption, MatchResult, Ok, Err, length, option_copied};
ghost use Rattle.std.specs.Option.{option_map};
ghost use Rattle.stage_graph.specs.Changes.{changed, IsNewCycle, IsSettled};
ghost use Rattle.stage_graph.specs.Plain.{stage_at, dependents, IsLive};
ghost use Rattle.stage_graph.specs.Walk.{IsRanked, rank};
ghost use Rattle.stage_ops.specs.Java.{java_step};
ghost use Rattle.scratch_eval.specs.Blame.{followed};
ghost use Rattle.scratch_eval.specs.Path.{reason_in};
ghost use Rattle.propagate.specs.Patched.{touched_by};
ghost use Rattle.propagate.specs.Reach.{StaysUntouched};
ghost use Rattle.stage_ops.specs.Evaluation.{at};
ghost use Rattle.stage_ops.specs.Starts.{action_start};
ghost use Rattle.stage_ops.specs.States.{seen_at};
ghost use Rattle.version_store.specs.Drafts.{IsCountAfter};
ghost use Rattle.version_store.specs.Queries.{state_of, told, held, held_by};
ghost use Rattle.version_store.specs.Starts.{action_start_at};

use crate::before::Before;
use level_pool::Runner;
use propagate::{KeptState, Old, StateRepresentation, States, propagate};
use rank_order::Order;
use scratch_eval::{evaluate, follow_blame};
use share_tree::Held;
use stage_graph::{Edits, Fault, Graph, NoStage, Places, Stage};
use stage_ops::{Done, JavaOps, Meter, Reason, State};
use std::alloc::{AllocError, Global};
use std::marker::{Model, Sync};
use std::ops::Deref;

/// The marker of the meter that counts the stages computed for version 0.
#[derive(Drop)]
struct FirstEvaluation;

/// A graph with its order and the states of its stages. Contracts see the graph.
#[derive(Drop)]
pub(crate) struct Evaluated<R: StateRepresentation> {
    graph: Held<Graph<R>>,
    order: Order<R>,
    states: States<R>,
}

impl<R: StateRepresentation> Model for Evaluated<R> {
    ghost use Rattle.stage_graph.specs.Plain.{PlainGraph};

    ghost Value = { PlainGraph };

    ghost use Rattle.std.specs.Coded.{codes};
    ghost use Rattle.act_expr.specs.ExpressionCode.{coded_expression};

    ghost coded = { Prim.hlevel (codes, coded_expression) };

    ghost use Rattle.version_store.specs.Evaluated.{IsEvaluated};

    ghost view = { λ evaluated. evaluated.graph };

    ghost invariant = { λ evaluated. IsEvaluated evaluated.graph evaluated.order evaluated.states };
}

/// The evaluated graph that a list of edits makes, and the places of the stages that were computed.
#[derive(Drop)]
pub(crate) struct Edited<R: StateRepresentation> {
    pub(crate) graph: Evaluated<R>,
    pub(crate) touched: Places,
}

impl<R: StateRepresentation> Evaluated<R> {
    /// The graph, evaluated from scratch.
    pub(crate) fn load(alloc: Global, graph: Graph<R>) -> Result<Evaluated<R>, AllocError>
        requires { IsRanked graph.places }
        ensures { IfOk result (λ evaluated. evaluated ≡ graph) }
    {
        let mut meter = Meter::new(FirstEvaluation);
        let answers = evaluate(alloc, &graph, &JavaOps, &mut meter)?;
        let states = States::from_answers(alloc, &graph, &answers)?;
        let ranks = answers.ranks(alloc)?;
        let graph = Held::new(alloc, graph)?;
        let order = Order::with_ranks(alloc, &graph, ranks.as_slice())?;
        Ok(Evaluated {
            graph,
            order,
            states,
        })
    }

    /// The graph with a list of edits applied. Only the stages that the edits can reach are computed, each once.
    pub(crate) fn edited<N: Sync, W: Runner>(
        &self,
        alloc: Global,
        edits: &Edits,
        runner: &W,
        meter: &mut Meter<N>,
    ) -> Result<Edited<R>, Fault>
        requires { meter.old ≤ 2 ^ 63 }
        ensures graph { IfOk result (λ edited. changed edits.now self.now ≡ Ok edited.graph) }
        ensures ranked { IfOk result (λ edited. IsRanked edited.graph.places) }
        ensures touched { IfOk result (λ edited. edited.touched
            ≡ touched_by (java_step edited.graph.mode) edits.now self.now.places edited.graph.places) }
        ensures untouched { IfOk result (λ edited. StaysUntouched (at (java_step self.now.mode)) (at (java_step edited.graph.mode))
            self.now.places edited.graph.places edited.touched) }
        ensures counted { IfOk result (λ edited. meter.new ≡ meter.old + length edited.touched) }
        ensures fault { IfErr result (λ fault. IsSettled (IsNewCycle edits.now) (Err fault) (changed edits.now self.now)) }
        ensures refused { OnErr result (IsCountAfter edits.now self.now meter.old meter.new) }
    {
        let old = Old {
            graph: &self.graph,
            order: &self.order,
            states: &self.states,
        };
        match propagate(alloc, old, edits, &JavaOps, runner, meter) {
            Ok(patched) => Ok(Edited {
                graph: Evaluated {
                    graph: patched.graph,
                    order: patched.order,
                    states: patched.states,
                },
                touched: Places::from_vec(patched.touched),
            }),
            Err(fault) => Err(fault),
        }
    }

    /// The graph, which has no cycle.
    #[inline(always)]
    pub(crate) fn graph(&self) -> &Graph<R>
        ensures graph { result.now ≡ self.now }
        ensures ranked { IsRanked self.now.places }
    {
        // With the field comes what its type says of it: the graph has no cycle.
        let _ = &self.states;
        self.graph.deref()
    }

    /// The state of a place: pending where no stage stands.
    #[inline(always)]
    pub(crate) fn state_at(&self, place: u32) -> State
        ensures { result ≡ state_of self.now place }
    {
        match self.states.get(place) {
            Some(state) => state,
            None => State::PENDING,
        }
    }

    /// The state of a place, where it is stored; none at most where no stage stands.
    #[inline(always)]
    pub(crate) fn kept_at(&self, place: u32) -> Option<&KeptState>
        ensures { MatchOption result (stage_at self.now.places place ≡ None) (λ kept. kept.now ≡ state_of self.now place) }
    {
        match self.states.kept(place) {
            Some(kept) => Some(kept),
            None => None,
        }
    }

    /// The state of the stage at a place, where it is stored; none where no stage stands.
    pub(crate) fn kept(&self, place: u32) -> Option<&KeptState>
        ensures { option_copied result ≡ option_map (λ stage. state_of self.now place) (stage_at self.now.places place) }
    {
        match self.graph().stage(place) {
            Some(_) => self.kept_at(place),
            None => None,
        }
    }

    /// The state of the stage at a place.
    pub(crate) fn state(&self, place: u32) -> Result<State, NoStage>
        ensures { result ≡ told self.now place (state_of self.now place) }
    {
        match self.graph().stage(place) {
            Some(_) => Ok(self.state_at(place)),
            None => Err(NoStage),
        }
    }

    /// The chain of blame from a place, by the states of the stages.
    pub(crate) fn follow(&self, alloc: Global, place: u32) -> Result<Places, AllocError>
        ensures { IfOk result (λ chain. chain ≡ followed (state_of self.now) (length self.now.places) place) }
    {
        follow_blame(alloc, &self.states, self.graph().len(), place)
    }

    /// The cause of a stage's state.
    pub(crate) fn reason_of(&self, stage: &Stage) -> Reason
        requires { stage_at self.now.places stage.now.place ≡ Some stage.now }
        ensures { result ≡ reason_in self.now stage.now }
    {
        let mode = self.graph().mode();
        // With its length a graph says that it is sound, as every graph is.
        let _ = self.graph().len();
        JavaOps.reason(mode, stage, &self.states)
    }

    /// The tick at which the action of a stage starts by its operation; none where none starts.
    pub(crate) fn action_start_of(&self, stage: &Stage) -> Option<u64>
        requires { stage_at self.now.places stage.now.place ≡ Some stage.now }
        ensures { result ≡ action_start self.now.mode stage.now (seen_at (state_of self.now)) }
    {
        let mode = self.graph().mode();
        // With its length a graph says that it is sound, as every graph is.
        let _ = self.graph().len();
        JavaOps.action_start(mode, stage, &self.states)
    }

    /// The tick at which the action of the stage at a place starts by its operation; none where none starts.
    pub(crate) fn action_start(&self, place: u32) -> Option<u64>
        ensures { result ≡ action_start_at self.now place }
    {
        match self.graph().stage(place) {
            Some(stage) => self.action_start_of(stage),
            None => None,
        }
    }

    /// The rank of the stage at a place.
    #[inline(always)]
    pub(crate) fn rank(&self, place: u32) -> Result<u32, NoStage>
        ensures { result ≡ told self.now place (rank self.now.places place) }
    {
        match self.order.rank(place) {
            Ok(rank) => Ok(rank),
            Err(_) => Err(NoStage),
        }
    }

    /// The places whose stages have the stage at a place as a feed, in order.
    #[inline(always)]
    pub(crate) fn dependents(&self, place: u32) -> Result<&[u32], NoStage>
        ensures { MatchResult result
            (λ its_dependents. (its_dependents.now ≡ dependents self.now.places place) × IsLive self.now.places place)
            (λ _. stage_at self.now.places place ≡ None) }
    {
        match self.order.dependents(place) {
            Ok(its_dependents) => Ok(its_dependents),
            Err(_) => Err(NoStage),
        }
    }

    /// What the stage at a place holds: its outcome and moment, if it has completed.
    pub(crate) fn holds(&self, place: u32) -> Before
        ensures { result ≡ held_by self.now place (stage_at self.now.places place) }
    {
        match self.state(place) {
            Ok(state) => held(state.done),
            Err(NoStage) => Before::Absent,
        }
    }
}

/// What a completion holds: its outcome and moment.
fn held(done: Option<Done>) -> Before
    ensures { result ≡ held done }
{
    match done {
        Some(done) => Before::Done(done.outcome, done.moment),
        None => Before::Pending,
    }
}
