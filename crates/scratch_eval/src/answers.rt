//! The answers of evaluation, by place.
ghost use Rattle.std.specs.Prelude.{◌≡◌, ◌<◌, None, Some, length, map, slice_set, replicate, IfOk};
ghost use Rattle.std.specs.Option.{option_copied};
ghost use Rattle.scratch_eval.specs.Answers.{StatesFollowRanks};

use crate::blame::Failures;
use act_expr::Outcome;
use stage_graph::NoStage;
use stage_ops::{Done, Look, State};
use std::alloc::{AllocError, Global};
use std::marker::Model;

/// The state and the rank of a live stage.
#[derive(Clone, Copy, Debug, PartialEq, Eq)]
pub struct Answer {
    pub state: State,
    pub rank: u32,
}

/// The answers by place. Contracts see the list of them.
#[derive(Drop)]
pub struct Answers {
    items: Vec<Option<Answer>>,
}

impl Model for Answers {
    ghost use Rattle.std.specs.Prelude.{List, Option};
    ghost use Rattle.scratch_eval.specs.declared.answers.Answer.{Answer};

    ghost Value = { List (Option Answer) };

    ghost view = { λ answers. answers.items.items };
}

impl Look for Answers {
    ghost use Rattle.scratch_eval.specs.Answers.{states_of};

    ghost states = { states_of };

    fn state(&self, place: u32) -> State {
        match self.items[place as usize] {
            Some(answer) => answer.state,
            None => State::PENDING,
        }
    }
}

impl Failures for Answers {
    ghost use Rattle.stage_ops.specs.States.{state_at};
    ghost use Rattle.scratch_eval.specs.Answers.{states_of};

    ghost state = { λ answers. state_at (states_of answers) };

    fn failure(&self, place: u32) -> Option<Done> {
        let done = self.get(place)?.state.done?;
        match done.outcome {
            Outcome::Value(_) => None,
            Outcome::Bare(_) | Outcome::Wrapped(_) => Some(done),
        }
    }
}

impl Answers {
    ghost use Rattle.scratch_eval.specs.Answers.{answer_at, rank_at, rank_of, states_of, told_state, told_rank};

    /// This many empty places.
    pub(crate) fn empty(alloc: Global, places: usize) -> Result<Self, AllocError>
        ensures { IfOk result (λ answers. answers ≡ replicate places None) }
    {
        // This line shows the checker the types inside `Answer`.
        let _outcome: Option<Outcome> = None;
        let _done: Option<Done> = None;
        let _state: Option<State> = None;
        Ok(Answers {
            items: vec![in alloc; None; places]?,
        })
    }

    /// Sets the answer at a place.
    pub(crate) fn set(&mut self, place: u32, answer: Answer)
        requires { place < length self.old }
        ensures { self.new ≡ slice_set self.old place (Some answer) }
    {
        self.items[place as usize] = Some(answer);
    }

    /// The answer at a place.
    pub(crate) fn get(&self, place: u32) -> Option<&Answer>
        ensures { option_copied result ≡ answer_at self.now place }
    {
        self.items.get(place as usize)?.as_ref()
    }

    /// How many places there are.
    pub(crate) fn len(&self) -> usize
        ensures { result ≡ length self.now }
    {
        self.items.len()
    }

    /// The rank at a place, and 0 where there is no answer.
    pub(crate) fn rank_or_zero(&self, place: u32) -> u32
        ensures { result ≡ rank_at self.now place }
    {
        match self.get(place) {
            Some(answer) => answer.rank,
            None => 0,
        }
    }

    /// The ranks by place, and 0 where there is no answer.
    pub fn ranks(&self, alloc: Global) -> Result<Vec<u32>, AllocError>
        ensures { IfOk result (λ ranks. ranks.items ≡ map rank_of self.now) }
    {
        self.items
            .iter()
            .map(|answer| match answer {
                Some(answer) => answer.rank,
                None => 0,
            })
            .collect(alloc)
    }

    /// The state of a live stage. Where the answers are those of a completion stage's graph, it completes no later than
    /// its rank allows.
    pub fn state(&self, place: u32) -> Result<State, NoStage>
        ensures state { result ≡ told_state (answer_at self.now place) }
        ensures soon { IfOk result (StatesFollowRanks self.now place) }
    {
        match self.get(place) {
            Some(answer) => Ok(answer.state),
            None => Err(NoStage),
        }
    }

    /// The rank of a live stage.
    pub fn rank(&self, place: u32) -> Result<u32, NoStage>
        ensures { result ≡ told_rank (answer_at self.now place) }
    {
        match self.get(place) {
            Some(answer) => Ok(answer.rank),
            None => Err(NoStage),
        }
    }
}
