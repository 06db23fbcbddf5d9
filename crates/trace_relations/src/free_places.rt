//! Which of places in a row are free.
ghost use Rattle.std.specs.Prelude.{◌≡◌, ℕ, ◌+◌, Bool, true, false, MatchOption, OnOk, slice_get, unwrap_or};
ghost use Rattle.trace_relations.specs.FreePlaces.{AreFree, IsFirstFree, IsFirstFrom, NoneIsFree, with_free};

use crate::set_at::set_at;
use std::alloc::{AllocError, Global};

/// Places in a row, of which some are taken.
///
/// Each knows a place at it or behind it up to which no other is free; where places are looked for, these are moved on.
#[derive(Drop)]
pub(crate) struct FreePlaces {
    next: Vec<usize>,
}

impl FreePlaces {
    /// No places.
    pub(crate) fn new(alloc: Global) -> FreePlaces
        ensures { AreFree result 0 (λ place. true) }
    {
        FreePlaces {
            next: Vec::new(alloc),
        }
    }

    /// Adds a place at the end, which is free.
    pub(crate) fn add(&mut self) -> Result<(), AllocError>
        ensures { (count : ℕ) (free : ℕ → Bool) → AreFree self.old count free → OnOk result (AreFree self.new (count + 1) (with_free free count true)) }
    {
        let place = self.next.len();
        self.next.push(place)?;
        Ok(())
    }

    /// The place that a place knows.
    fn next_of(&self, place: usize) -> usize
        ensures { result ≡ unwrap_or (slice_get self.now.next.items place) place }
    {
        match self.next.get(place) {
            Some(next) => *next,
            None => place,
        }
    }

    /// The first free place from one on, or one behind all.
    fn first_from(&self, from: usize) -> usize
        ensures { (count : ℕ) (free : ℕ → Bool) → AreFree self.now count free → IsFirstFrom count free from result }
    {
        let mut place = from;
        'way: loop {
            let next = self.next_of(place);
            if next <= place {
                return place;
            }
            place = next;
        }
    }

    /// Lets the places on the way from one to the first free one know that.
    fn shorten(&mut self, from: usize, to: usize)
        ensures { (count : ℕ) (free : ℕ → Bool) → AreFree self.old count free → IsFirstFrom count free from to → AreFree self.new count free }
    {
        let mut place = from;
        'way: while place < to {
            let after = self.next_of(place);
            set_at(&mut self.next, place, to);
            if after <= place {
                return;
            }
            place = after;
        }
    }

    /// Takes the first free place from one on.
    pub(crate) fn take_from(&mut self, from: usize) -> Option<usize>
        ensures first { (count : ℕ) (free : ℕ → Bool) → AreFree self.old count free → MatchOption result (NoneIsFree count free from) (IsFirstFree count free from) }
        ensures taken { (count : ℕ) (free : ℕ → Bool) → AreFree self.old count free → MatchOption result (AreFree self.new count free) (λ place. AreFree self.new count (with_free free place false)) }
    {
        let place = self.first_from(from);
        self.shorten(from, place);
        let count = self.next.len();
        if count <= place {
            return None;
        }
        set_at(&mut self.next, place, place + 1);
        Some(place)
    }
}
