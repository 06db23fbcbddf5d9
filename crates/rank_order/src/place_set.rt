//! A set of places, with a bit for each.
ghost use Rattle.std.specs.Prelude.{◌≡◌, ◌<◌, ◌≤◌, ◌/◌, ◌||◌, ◌&&◌, ◌==◌, ℕ, false, not, length, OnOk};
ghost use Rattle.rank_order.specs.PlaceSets.{is_within};

use std::alloc::{AllocError, Global};
use std::marker::Model;

/// A set of places, with a bit for each place up to some one: of 65,536 places it takes 8 KB.
#[derive(Drop)]
pub(crate) struct PlaceSet {
    words: Vec<u64>,
}

impl Model for PlaceSet {
    ghost use Rattle.std.specs.Prelude.{ℕ, List};

    ghost Value = { List ℕ };

    ghost view = { λ set. set.words.items };
}

/// In which word a place has its bit.
#[inline(always)]
fn word_of(place: u32) -> usize
    ensures { result ≡ place / 64 }
{
    (place / u64::BITS) as usize
}

impl PlaceSet {
    /// No places. Allocates nothing yet.
    pub(crate) fn new(alloc: Global) -> PlaceSet
        ensures { (place : ℕ) → is_within result place ≡ false }
    {
        PlaceSet {
            words: Vec::new(alloc),
        }
    }

    /// Whether the place is in the set. Allocates nothing.
    #[inline(always)]
    pub(crate) fn has(&self, place: u32) -> bool
        ensures { result ≡ is_within self.now place }
    {
        match self.words.get(word_of(place)) {
            Some(word) => (*word >> (place % u64::BITS)) & 1 == 1,
            None => false,
        }
    }

    /// Makes room for a place, and for as many as there is room for at least. The set stays as it is, also if out of memory.
    #[inline(always)]
    pub(crate) fn reserve(&mut self, place: u32) -> Result<(), AllocError>
        ensures room { OnOk result (place / 64 < length self.new) }
        ensures same { (other : ℕ) → is_within self.new other ≡ is_within self.old other }
    {
        if word_of(place) < self.words.len() {
            return Ok(());
        }
        self.grow(place)
    }

    /// Makes room for a place for which there is none.
    fn grow(&mut self, place: u32) -> Result<(), AllocError>
        requires { length self.old ≤ place / 64 }
        ensures room { OnOk result (place / 64 < length self.new) }
        ensures same { (other : ℕ) → is_within self.new other ≡ is_within self.old other }
    {
        let words = (word_of(place) + 1).next_power_of_two();
        self.words.resize(words, 0)
    }

    /// Puts a place into the set, for which there is room.
    #[inline(always)]
    pub(crate) fn insert(&mut self, place: u32)
        requires { place / 64 < length self.old }
        ensures { (other : ℕ) → is_within self.new other ≡ (is_within self.old other || other == place) }
    {
        self.words[word_of(place)] |= 1 << (place % u64::BITS);
    }

    /// Removes a place from the set.
    #[inline(always)]
    pub(crate) fn remove(&mut self, place: u32)
        ensures { (other : ℕ) → is_within self.new other ≡ (is_within self.old other && not (other == place)) }
    {
        let at = word_of(place);
        if at < self.words.len() {
            self.words[at] &= !(1 << (place % u64::BITS));
        }
    }
}
