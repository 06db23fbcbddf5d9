//! A change of one stage.
ghost use Rattle.std.specs.Prelude.{◌≡◌, ◌≤◌};
ghost use Rattle.std.specs.List.{slice_split};
ghost use Rattle.change_words.specs.Changes.{IsPartRead, IsRead, assigned, assigns, begun, change_of, edit_count, if_assigns, is_space, of_parts, one_if, sets_times, with_assignment, with_part, with_parts};

use crate::amount::Amount;
use crate::assignment::{Assignment, TimeLimit};
use crate::fault::{Misread, ReadFault, Wrong};
use act_expr::Outcome;
use stage_graph::Name;
use std::alloc::Global;

/// What is assigned to one stage, each at most once. What nothing is assigned to stays as it is.
#[derive(Drop)]
pub struct Change {
    /// The stage's name.
    pub name: Name,
    /// How long its action waits in a queue.
    pub queued: Option<Amount>,
    /// How long its action runs.
    pub runs: Option<Amount>,
    /// What it computes. An end that acts before still wins, and without a moment a pending stage stays pending.
    pub outcome: Option<Outcome>,
    /// The tick at which it has computed that; without an outcome a pending stage stays pending.
    pub moment: Option<u64>,
    /// How long its timeouts wait.
    pub limit: Option<TimeLimit>,
}

impl Change {
    /// What assigns nothing to the stage of a name.
    fn begun(name: Name) -> Change
        ensures { result ≡ begun name }
    {
        Change {
            name,
            queued: None,
            runs: None,
            outcome: None,
            moment: None,
            limit: None,
        }
    }

    /// Whether something is assigned.
    pub fn assigns(&self) -> bool
        ensures { result ≡ assigns self.now }
    {
        self.queued.is_some()
            || self.runs.is_some()
            || self.outcome.is_some()
            || self.moment.is_some()
            || self.limit.is_some()
    }

    /// The change with one more assignment, unless the same is assigned already.
    fn assigned(self, assignment: Assignment) -> Result<Change, Wrong>
        ensures { result ≡ assigned assignment self }
    {
        match assignment {
            Assignment::Queued(amount) => match self.queued {
                None => Ok(Change {
                    queued: Some(amount),
                    ..self
                }),
                Some(_) => Err(Wrong::Again),
            },
            Assignment::Runs(amount) => match self.runs {
                None => Ok(Change {
                    runs: Some(amount),
                    ..self
                }),
                Some(_) => Err(Wrong::Again),
            },
            Assignment::Outcome(outcome) => match self.outcome {
                None => Ok(Change {
                    outcome: Some(outcome),
                    ..self
                }),
                Some(_) => Err(Wrong::Again),
            },
            Assignment::Moment(tick) => match self.moment {
                None => Ok(Change {
                    moment: Some(tick),
                    ..self
                }),
                Some(_) => Err(Wrong::Again),
            },
            Assignment::Limit(limit) => match self.limit {
                None => Ok(Change {
                    limit: Some(limit),
                    ..self
                }),
                Some(_) => Err(Wrong::Again),
            },
        }
    }

    /// The change with what a part assigns.
    fn with_assignment(self, part: &str) -> Result<Change, Wrong>
        ensures { result ≡ with_assignment part.now self }
    {
        let assignment = Assignment::of(part)?;
        self.assigned(assignment)
    }

    /// The change with what one more part assigns; nothing, where it is empty.
    fn with_part(self, part: &str) -> Result<Change, Misread<'_>>
        ensures { IsPartRead result (with_part part.now self) }
    {
        if part.is_empty() {
            return Ok(self);
        }
        match self.with_assignment(part) {
            Ok(change) => Ok(change),
            Err(wrong) => Err(Misread { part, wrong }),
        }
    }

    /// The change with what further parts assign, one after the other; the first that is wrong refuses all.
    fn with_parts<'a>(self, parts: &'a str) -> Result<Change, Misread<'a>>
        ensures { IsPartRead result (with_parts (slice_split is_space parts.now) self) }
    {
        let mut change = self;
        for part in parts.split(' ') {
            change = match change.with_part(part) {
                Ok(change) => change,
                Err(misread) => return Err(misread),
            };
        }
        Ok(change)
    }

    /// The change, if something is assigned in its word.
    fn if_assigns(self, word: &str) -> Result<Change, ReadFault<'_>>
        ensures { IsRead result (if_assigns word.now self) }
    {
        if self.assigns() {
            return Ok(self);
        }
        let wrong = Wrong::NothingAssigned;
        Err(ReadFault::Misread(Misread { part: word, wrong }))
    }

    /// The change of a name, in a word, behind which these parts stand: assignments, with spaces between them.
    ///
    /// Errors: as of [`Change::of`].
    pub fn of_parts<'a>(
        alloc: Global,
        word: &'a str,
        name: &str,
        parts: &'a str,
    ) -> Result<Change, ReadFault<'a>>
        ensures { IsRead result (of_parts word.now name.now parts.now) }
    {
        let name = match Name::new(alloc, name) {
            Ok(name) => name,
            Err(_) => return Err(ReadFault::Memory),
        };
        match Change::begun(name).with_parts(parts) {
            Ok(change) => change.if_assigns(word),
            Err(misread) => Err(ReadFault::Misread(misread)),
        }
    }

    /// The change that a word is: the name of a stage, and behind it assignments, with spaces between them.
    ///
    /// Errors: the first part that is no assignment or assigns what a former one did; the word, where nothing is assigned.
    pub fn of(alloc: Global, word: &str) -> Result<Change, ReadFault<'_>>
        ensures { IsRead result (change_of word.now) }
    {
        match word.split_once(' ') {
            Some((name, parts)) => Change::of_parts(alloc, word, name, parts),
            None => Err(ReadFault::Misread(Misread {
                part: word,
                wrong: Wrong::NothingAssigned,
            })),
        }
    }

    /// Whether one of both times is assigned.
    pub(crate) fn sets_times(&self) -> bool
        ensures { result ≡ sets_times self.now }
    {
        self.queued.is_some() || self.runs.is_some()
    }

    /// How many edits the change is: one of both times, and one of each other assignment.
    #[tactic(auto, unfolding(crate::specs::Changes::edit_count))]
    pub fn edit_count(&self) -> usize
        ensures count { result ≡ edit_count self.now }
        ensures few { result ≤ 4 }
    {
        one_if(self.sets_times())
            + one_if(self.outcome.is_some())
            + one_if(self.moment.is_some())
            + one_if(self.limit.is_some())
    }
}

/// 1 where something holds, else 0.
fn one_if(holds: bool) -> usize
    ensures one { result ≡ one_if holds }
    ensures few { result ≤ 1 }
{
    if holds { 1 } else { 0 }
}
