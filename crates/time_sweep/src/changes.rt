//! The states that a trial changes.
ghost use Rattle.std.specs.Prelude.{◌≡◌, ◌<◌, ◌++◌, ◌∷◌, [], length, option_copied, slice_set, IfOk, OnOk};
ghost use Rattle.time_sweep.specs.Changed.{changed_at, state_in, states_in};

use propagate::KeptState;
use stage_ops::{Look, State};
use std::alloc::{AllocError, Global};

/// The state that a trial gives a place, as lists store it: without the room for an exception's name, where it has none.
#[derive(Drop)]
pub(crate) struct Change {
    pub(crate) place: u32,
    pub(crate) state: KeptState,
}

/// The states that a trial changes, with room for those of one trial after another. What has a place here that names it is changed, and nothing else is: so a trial that
/// follows another begins with an empty list, and `at` may keep what it has.
#[derive(Drop)]
pub struct Changes {
    /// Where the change of each place stands in the list, if it has one.
    pub(crate) at: Vec<u32>,
    pub(crate) list: Vec<Change>,
}

impl Changes {
    /// No changes of this many places.
    pub(crate) fn none(alloc: Global, count: usize) -> Result<Changes, AllocError>
        ensures count { IfOk result (λ changes. length changes.at.items ≡ count) }
        ensures none { IfOk result (λ changes. changes.list.items ≡ []) }
    {
        Ok(Changes {
            at: vec![in alloc; 0; count]?,
            list: Vec::new(alloc),
        })
    }

    /// Forgets all changes.
    pub(crate) fn clear(&mut self)
        ensures at { self.new.at ≡ self.old.at }
        ensures list { self.new.list.items ≡ [] }
    {
        self.list.clear();
    }

    /// The state that a place was given, if it is changed.
    #[inline(always)]
    fn get(&self, place: u32) -> Option<&KeptState>
        ensures { option_copied result ≡ changed_at self.now.at.items self.now.list.items place }
    {
        let index = *self.at.get(place as usize)?;
        let change = self.list.get(index as usize)?;
        if change.place == place {
            Some(&change.state)
        } else {
            None
        }
    }

    /// Gives a place a state.
    pub(crate) fn set(&mut self, place: u32, state: KeptState) -> Result<(), AllocError>
        requires within { place < length self.old.at.items }
        requires few { length self.old.list.items < 65536 }
        ensures at { OnOk result (self.new.at.items ≡ slice_set self.old.at.items place (length self.old.list.items)) }
        ensures list { OnOk result (self.new.list.items ≡ self.old.list.items ++ (record { place = place; state = state }) ∷ []) }
    {
        self.at[place as usize] = self.list.len() as u32;
        self.list.push(Change { place, state })?;
        Ok(())
    }
}

/// The states of a trial so far: those that it has changed, and else those of the version.
#[derive(Drop)]
pub(crate) struct Now<'a> {
    pub(crate) before: &'a [KeptState],
    pub(crate) changes: &'a Changes,
}

impl<'a> Now<'a> {
    /// The state at a place.
    #[inline(always)]
    pub(crate) fn at(&self, place: u32) -> &'a KeptState
        requires { place < length self.now.before.now }
        ensures { result.now ≡ state_in self.now.before.now self.now.changes.now.at.items self.now.changes.now.list.items place }
    {
        match self.changes.get(place) {
            Some(state) => state,
            None => &self.before[place as usize],
        }
    }
}

impl<'a> Look for Now<'a> {
    ghost states = { λ now. states_in now.before.now now.changes.now.at.items now.changes.now.list.items };

    #[inline(always)]
    fn state(&self, place: u32) -> State {
        self.at(place).state()
    }
}
