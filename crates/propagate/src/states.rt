//! The states of a graph's places, in a persistent list.
ghost use Rattle.std.specs.Prelude.{◌≡◌, ◌<◌, ◌≤◌, ◌++◌, ◌∷◌, [], ℕ, length, option_copied, slice_get, slice_set, Some, IfOk, OnOk, All, map, if◌then◌else◌};
ghost use Rattle.rank_order.specs.Lists.{is_among};
ghost use Rattle.stage_ops.specs.declared.state.State.{State};
ghost use Rattle.stage_graph.specs.Plain.{stage_at};
ghost use Rattle.stage_ops.specs.States.{pending, seen_at, seen_of, state_at};
ghost use Rattle.scratch_eval.specs.Answers.{answer_at, state_of, AreAnswers};
ghost use Rattle.propagate.specs.Completions.{differ};
ghost use Rattle.propagate.specs.Written.{written};
ghost use Rattle.propagate.specs.Reach.{is_emptied, Step, AreStates};

use crate::kept::KeptState;
use crate::representation::StateRepresentation;
use crate::writing::write_each;
use scratch_eval::{Answers, Failures};
use share_tree::{Again, Held, KeepFault, Keeps};
use stage_graph::Graph;
use stage_ops::{Done, Look, Reads, State};
use std::alloc::{AllocError, Global};
use std::marker::Model;
use std::ops::Deref;

/// The state of each place. Contracts see the list.
#[derive(Drop)]
pub struct States<R: StateRepresentation> {
    list: R::States,
}

impl<R: StateRepresentation> Model for States<R> {
    ghost use Rattle.std.specs.Prelude.{List};
    ghost use Rattle.stage_ops.specs.declared.state.State.{State};

    ghost Value = { List State };

    ghost view = { λ states. R.States.items states.list };
}

impl<R: StateRepresentation> Look for States<R> {
    ghost states = { λ states. states };

    /// Allocates nothing.
    #[inline(always)]
    fn state(&self, place: u32) -> State {
        match self.list.get(place as usize) {
            Some(kept) => kept.state(),
            None => unreachable!(),
        }
    }
}

impl<R: StateRepresentation> Failures for States<R> {
    ghost state = { λ states. state_at states };

    #[inline(always)]
    fn failure(&self, place: u32) -> Option<Done> {
        match self.list.get(place as usize) {
            Some(kept) => kept.failure(),
            None => None,
        }
    }
}

/// The state that an answer gives a place: pending where no stage stands.
fn told(answers: &Answers, place: u32) -> State
    ensures { result ≡ state_of (answer_at answers.now place) }
{
    match answers.state(place) {
        Ok(state) => state,
        Err(_) => State::PENDING,
    }
}

impl<R: StateRepresentation> Again for States<R> {
    fn again(&self) -> Result<States<R>, AllocError> {
        Ok(States {
            list: self.list.again()?,
        })
    }
}

impl<R: StateRepresentation> States<R> {
    /// The states of a graph, by the answers of its evaluation from scratch.
    pub fn from_answers(
        alloc: Global,
        graph: &Graph<R>,
        answers: &Answers,
    ) -> Result<States<R>, AllocError>
        ensures { IfOk result (λ states. (step : Step) → AreAnswers step graph.now.places answers.now → AreStates step graph.now.places states) }
    {
        let mut states = States {
            list: R::States::empty(alloc),
        };
        for place in 0..graph.len() as u32 {
            states.add(alloc, &told(answers, place))?;
        }
        Ok(states)
    }

    /// How many places there are. Allocates nothing.
    pub fn len(&self) -> usize
        ensures count { result ≡ length self.now }
        ensures limit { result ≤ 65536 }
    {
        self.list.len()
    }

    /// The state at a place; none past the end. Allocates nothing.
    #[inline(always)]
    pub fn get(&self, place: u32) -> Option<State>
        ensures { result ≡ slice_get self.now place }
    {
        match self.list.get(place as usize) {
            Some(kept) => Some(kept.state()),
            None => None,
        }
    }

    /// The state at a place where it is stored; none past the end. Allocates nothing.
    #[inline(always)]
    pub fn kept(&self, place: u32) -> Option<&KeptState>
        ensures { option_copied result ≡ slice_get self.now place }
    {
        match self.list.get(place as usize) {
            Some(kept) => Some(kept.deref()),
            None => None,
        }
    }

    /// What the stage at a place has read. Allocates nothing.
    #[inline(always)]
    pub(crate) fn reads(&self, place: u32) -> Reads
        requires { place < length self.now }
        ensures { result ≡ (state_at self.now place).reads }
    {
        match self.list.get(place as usize) {
            Some(kept) => kept.reads(),
            None => unreachable!(),
        }
    }

    /// Whether dependents can distinguish the state at a place from another one. Allocates nothing.
    #[inline(always)]
    pub(crate) fn differs(&self, place: u32, after: &KeptState) -> bool
        requires { place < length self.now }
        ensures { result ≡ differ (seen_at (state_at self.now) place) (seen_of after.now) }
    {
        match self.list.get(place as usize) {
            Some(kept) => kept.differs(after),
            None => unreachable!(),
        }
    }

    /// Sets the state at a place.
    fn write(&mut self, alloc: Global, place: u32, state: &State) -> Result<(), AllocError>
        requires { place < length self.old }
        ensures { OnOk result (self.new ≡ slice_set self.old place state.now) }
    {
        let kept = Held::new(alloc, KeptState::new(alloc, state)?)?;
        self.list.write(place as usize, kept)
    }

    /// Adds the state of one place more.
    fn add(&mut self, alloc: Global, state: &State) -> Result<(), AllocError>
        requires { length self.old < 65536 }
        ensures { OnOk result (self.new ≡ self.old ++ state.now ∷ []) }
    {
        let kept = Held::new(alloc, KeptState::new(alloc, state)?)?;
        match self.list.add(kept) {
            Ok(()) => Ok(()),
            Err(KeepFault::Memory) => Err(AllocError),
            Err(KeepFault::Full) => unreachable!(),
        }
    }

    /// The states with pending ones added, up to this many places.
    fn grown(&self, alloc: Global, places: usize) -> Result<States<R>, AllocError>
        requires longer { length self.now ≤ places }
        requires limit { places ≤ 65536 }
        ensures count { IfOk result (λ states. length states ≡ places) }
        ensures states { IfOk result (λ states. (place : ℕ) → state_at states place ≡ state_at self.now place) }
    {
        let mut states = self.again()?;
        for _turn in self.len()..places {
            states.add(alloc, &State::PENDING)?;
        }
        Ok(states)
    }

    /// The states of the graph before, ready for the new one: an added place is pending, and so is an emptied one.
    pub(crate) fn prepared(
        &self,
        alloc: Global,
        graph: &Graph<R>,
        edited: &[u32],
    ) -> Result<States<R>, AllocError>
        requires longer { length self.now ≤ length graph.now.places }
        requires within { All (λ place. place < length graph.now.places) edited.now }
        ensures count { IfOk result (λ states. length states ≡ length graph.now.places) }
        ensures states { IfOk result (λ states. (place : ℕ)
            → state_at states place ≡ (if is_emptied graph.now.places edited.now place then pending else state_at self.now place)) }
    {
        let mut states = self.grown(alloc, graph.len())?;
        for place in edited {
            if graph.stage(*place).is_none() {
                states.write(alloc, *place, &State::PENDING)?;
            }
        }
        Ok(states)
    }

    /// Sets the states that are there at some places, one after the other.
    #[inline(always)]
    fn write_each(
        &mut self,
        places: &[u32],
        states: &mut [Option<Held<KeptState>>],
    ) -> Result<(), AllocError>
        requires within { All (λ place. place < length self.old) places.now }
        requires each { length states.old ≡ length places.now }
        ensures { OnOk result (self.new ≡ written self.old places.now states.old) }
    {
        write_each(&mut self.list, places, states)
    }

    /// Sets the states of some places, which are taken out of the results.
    pub(crate) fn write_level(
        &mut self,
        level: &[u32],
        results: &mut [Option<Held<KeptState>>],
    ) -> Result<(), AllocError>
        requires within { All (λ place. place < length self.old) level.now }
        requires each { length results.old ≡ length level.now }
        ensures count { OnOk result (length self.new ≡ length self.old) }
        ensures states { OnOk result ((state : ℕ → State) → results.old ≡ map (λ place. Some (state place)) level.now → (place : ℕ)
            → state_at self.new place ≡ (if is_among place level.now then state place else state_at self.old place)) }
    {
        self.write_each(level, results)
    }
}
