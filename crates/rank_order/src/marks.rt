//! Marks: places that have still to be processed, by rank and then by place.
ghost use Rattle.std.specs.Prelude.{◌≡◌, ◌<◌, ◌≤◌, ◌+◌, ◌/◌, ◌++◌, ◌↔◌, ℕ, List, [], map, true, false, ◌||◌, ◌==◌, length, nat_eq, vec_len, vec_capacity, IsTrue, IfNone, IfOk, IfSome, IsOk, IsPermutation, OnOk, OnErr};
ghost use Rattle.std.specs.List.{list_all, list_any, IsDistinct};
ghost use Rattle.std.specs.BinaryHeap.{heap_items, heap_len, IsHeap};
ghost use Rattle.std.specs.declared.cmp.Reverse.{Reverse};
ghost use Rattle.rank_order.specs.declared.marks.Mark.{Mark};
ghost use Rattle.rank_order.specs.Lists.{is_among};
ghost use Rattle.rank_order.specs.Marks.{has_mark, has_place, is_marked, place_of, AreMarks, AreLeft, AreFrom, AreAbove, HasRankAlone, IsFirst, IsLeastRank, IsLevel, IsPopped, IsSameBut};
ghost use Rattle.rank_order.specs.MarkHeaps.{has_rank, heap_cmp, is_of, marks_in, places_in, AreStored, HaveRank, IsMarkedAs, IsSetOf, IsSetWith, IsSetWithout};

use crate::place_set::PlaceSet;
use std::alloc::{AllocError, Global};
use std::cmp::Reverse;
use std::collections::BinaryHeap;
use std::marker::Model;
use std::mem;

/// While no more places than this were marked at once, a place is looked for among the marks.
const FEW: usize = 16;

/// A place with its rank.
#[derive(Clone, Copy, Debug, PartialEq, Eq, PartialOrd, Ord)]
struct Mark {
    rank: u32,
    place: u32,
}

/// Places, each marked with a rank. Contracts see the list of ranks with places, in which no place stands twice.
///
/// Most changes mark few places, which are found among the marks; a set of all places would take longer to make. Where more are
/// marked, each is found by its bit: then the set is paid for by its marks, and is cleared by their removal.
#[derive(Drop)]
pub struct Marks {
    heap: BinaryHeap<Reverse<Mark>>,
    /// The marked places, once there have been many.
    places: Option<PlaceSet>,
    alloc: Global,
}

impl Model for Marks {
    ghost use Rattle.std.specs.Prelude.{ℕ, List};
    ghost use Rattle.std.specs.BinaryHeap.{heap_items};
    ghost use Rattle.rank_order.specs.MarkHeaps.{marks_in, AreStored};

    ghost Value = { List (ℕ × ℕ) };

    ghost view = { λ marks. marks_in (heap_items marks.heap) };

    ghost invariant = { λ marks. AreStored (heap_items marks.heap) marks.places };
}

impl Marks {
    /// No marks.
    pub fn new(alloc: Global) -> Marks
        ensures { result ≡ [] }
    {
        Marks {
            heap: BinaryHeap::new(alloc),
            places: None,
            alloc,
        }
    }

    /// Whether nothing is marked.
    pub fn is_empty(&self) -> bool
        ensures { IsTrue result ↔ (length self.now ≡ 0) }
    {
        self.heap.is_empty()
    }

    /// Whether a place is marked, with any rank. Allocates nothing.
    #[inline(always)]
    pub fn has(&self, place: u32) -> bool
        ensures { result ≡ has_place self.now place }
    {
        match &self.places {
            Some(places) => places.has(place),
            None => has_place(&self.heap, place),
        }
    }

    /// Marks a place, which has this rank. A place that is marked with another rank gets this one in its place. A place that is
    /// marked is looked for among all marks, so where places are marked often [`Marks::has`] is to be asked before. If out of memory,
    /// which a place that is marked needs none of, the marks stay as they are.
    pub fn insert(&mut self, rank: u32, place: u32) -> Result<(), AllocError>
        ensures marked { OnOk result ((ranks : ℕ → ℕ) (other : ℕ) → rank ≡ ranks place
            → is_marked ranks self.new other ≡ (is_marked ranks self.old other || other == place)) }
        ensures marks { OnOk result ((ranks : ℕ → ℕ) → rank ≡ ranks place → AreMarks ranks self.old → AreMarks ranks self.new) }
        ensures alone { OnOk result (HasRankAlone self.new rank place) }
        ensures others { OnOk result (IsSameBut place self.old self.new) }
        ensures there { has_place self.old place ≡ true → IsOk result }
        ensures same { has_mark self.old rank place ≡ true → self.new ≡ self.old }
        ensures refused { OnErr result (self.new ≡ self.old) }
    {
        if self.has(place) {
            self.set_rank(Mark { rank, place });
            return Ok(());
        }
        self.add(rank, place)
    }

    /// Marks a place that is not marked, and has this rank. If out of memory, the marks stay as they are.
    #[inline(always)]
    pub fn add(&mut self, rank: u32, place: u32) -> Result<(), AllocError>
        requires { has_place self.old place ≡ false }
        ensures marked { OnOk result ((ranks : ℕ → ℕ) (other : ℕ) → rank ≡ ranks place
            → is_marked ranks self.new other ≡ (is_marked ranks self.old other || other == place)) }
        ensures marks { OnOk result ((ranks : ℕ → ℕ) → rank ≡ ranks place → AreMarks ranks self.old → AreMarks ranks self.new) }
        ensures alone { OnOk result (HasRankAlone self.new rank place) }
        ensures others { OnOk result (IsSameBut place self.old self.new) }
        ensures refused { OnErr result (self.new ≡ self.old) }
    {
        self.push(Mark { rank, place })
    }

    /// Gives a place that is marked this rank.
    fn set_rank(&mut self, mark: Mark)
        requires { has_place self.old mark.place ≡ true }
        ensures ranked { IsMarkedAs self.old self.new mark.rank mark.place }
        ensures alone { HasRankAlone self.new mark.rank mark.place }
        ensures same { has_mark self.old mark.rank mark.place ≡ true → self.new ≡ self.old }
    {
        if has_mark(&self.heap, mark) {
            return;
        }
        let heap = mem::replace(&mut self.heap, BinaryHeap::new(self.alloc));
        self.heap = with_rank(heap, mark);
    }

    /// Marks a place that is not marked.
    #[inline(always)]
    fn push(&mut self, mark: Mark) -> Result<(), AllocError>
        requires { has_place self.old mark.place ≡ false }
        ensures ranked { OnOk result (IsMarkedAs self.old self.new mark.rank mark.place) }
        ensures alone { OnOk result (HasRankAlone self.new mark.rank mark.place) }
        ensures refused { OnErr result (self.new ≡ self.old) }
    {
        self.know_places()?;
        reserve_place(&mut self.places, mark.place)?;
        self.heap.push(Reverse(mark))?;
        insert_place(&mut self.places, mark.place);
        Ok(())
    }

    /// Makes the set of the marked places once there are many.
    #[inline(always)]
    fn know_places(&mut self) -> Result<(), AllocError>
        ensures { self.new ≡ self.old }
    {
        if self.heap.len() < FEW || self.places.is_some() {
            return Ok(());
        }
        self.places = Some(places_of(self.alloc, &self.heap)?);
        Ok(())
    }

    /// Removes all marks. Takes as long as there are marks.
    pub fn clear(&mut self)
        ensures { self.new ≡ [] }
    {
        remove_places(&mut self.places, &self.heap);
        self.heap.clear();
    }

    /// Removes the first of the marked places, by rank and then by place, and returns it.
    pub fn pop_first(&mut self) -> Option<u32>
        ensures first { IfSome result (λ place. (ranks : ℕ → ℕ) → AreMarks ranks self.old → IsFirst ranks (is_marked ranks self.old) (is_marked ranks self.new) place) }
        ensures left { AreLeft self.old self.new }
        ensures none { IfNone result (length self.old ≡ 0) }
        ensures kept { IfNone result (self.new ≡ self.old) }
    {
        let mark = self.pop_mark()?;
        Some(mark.place)
    }

    /// Removes the least mark, and returns it.
    fn pop_mark(&mut self) -> Option<Mark>
        ensures some { IfSome result (λ mark. IsPopped self.old self.new mark.rank mark.place) }
        ensures none { IfNone result (length self.old ≡ 0) }
        ensures kept { IfNone result (self.new ≡ self.old) }
    {
        let Reverse(mark) = self.heap.pop()?;
        remove_place(&mut self.places, mark.place);
        Some(mark)
    }

    /// The least rank of a mark.
    fn least_rank(&self) -> Option<u32>
        ensures some { IfSome result (IsLeastRank self.now) }
        ensures none { IfNone result (length self.now ≡ 0) }
    {
        let first = self.heap.peek()?;
        Some(first.0.rank)
    }

    /// Removes the least mark if it has this rank, and returns its place.
    fn pop_at(&mut self, rank: u32) -> Option<u32>
        ensures some { IfSome result (IsPopped self.old self.new rank) }
        ensures none { IfNone result (AreFrom self.old rank → AreAbove self.old rank) }
        ensures kept { IfNone result (self.new ≡ self.old) }
    {
        if self.least_rank()? != rank {
            return None;
        }
        let mark = self.pop_mark()?;
        Some(mark.place)
    }

    /// Whether all marks have this rank.
    fn have_rank(&self, rank: u32) -> bool
        ensures { IsTrue result → HaveRank self.now rank }
    {
        have_rank(&self.heap, rank)
    }

    /// Removes all marks. Their places come to stand behind what the level holds, in the order of the heap.
    fn take_all(&mut self, level: &mut Vec<u32>)
        requires { vec_len level.old + length self.old ≤ vec_capacity level.old }
        ensures none { self.new ≡ [] }
        ensures places { level.new.items ≡ level.old.items ++ map place_of self.old }
        ensures once { IsDistinct nat_eq (map place_of self.old) }
    {
        push_places(&self.heap, level);
        self.clear();
    }

    /// Removes the marks of the least rank. Their places, in ascending order, take the place of what `level` holds; none do if nothing
    /// is marked. If out of memory, the marks stay as they are.
    pub fn take_level(&mut self, level: &mut Vec<u32>) -> Result<(), AllocError>
        ensures some { OnOk result (0 < length self.old → 0 < vec_len level.new) }
        ensures left { AreLeft self.old self.new }
        ensures level { OnOk result ((ranks : ℕ → ℕ) → AreMarks ranks self.old
            → IsLevel ranks (is_marked ranks self.old) level.new.items (is_marked ranks self.new)) }
        ensures refused { OnErr result (self.new ≡ self.old) }
    {
        // Capacity for all marks is reserved first, so nothing fails once one of them is removed.
        level.clear();
        level.reserve(self.heap.len())?;
        let Some(rank) = self.least_rank() else {
            return Ok(());
        };
        // Where all marks have the rank, as where each stage reads the level before, to sort the places is cheaper than
        // to pop them. The test stops at another rank, so it costs no more than the pops of what it has passed.
        if self.have_rank(rank) {
            self.take_all(level);
            level.sort_unstable();
            return Ok(());
        }
        while let Some(place) = self.pop_at(rank) {
            match level.push(place) {
                Ok(()) => (),
                Err(_) => unreachable!(),
            }
        }
        Ok(())
    }
}

/// The set of the places of some marks.
fn places_of(alloc: Global, heap: &BinaryHeap<Reverse<Mark>>) -> Result<PlaceSet, AllocError>
    ensures { IfOk result (IsSetOf (heap_items heap.now)) }
{
    let mut places = PlaceSet::new(alloc);
    for mark in heap.as_slice() {
        places.reserve(mark.0.place)?;
        places.insert(mark.0.place);
    }
    Ok(places)
}

/// Makes room for a place in the set, if there is one.
#[inline(always)]
fn reserve_place(places: &mut Option<PlaceSet>, place: u32) -> Result<(), AllocError>
    ensures stored { (items : List (Reverse Mark)) → AreStored items places.old → AreStored items places.new }
    ensures room { OnOk result (IfSome places.new (λ words. place / 64 < length words)) }
{
    match places {
        Some(set) => set.reserve(place),
        None => Ok(()),
    }
}

/// Puts a place, for which there is room, into the set, if there is one.
#[inline(always)]
fn insert_place(places: &mut Option<PlaceSet>, place: u32)
    requires { IfSome places.old (λ words. place / 64 < length words) }
    ensures { (items : List (Reverse Mark)) → IfSome places.old (IsSetOf items) → IfSome places.new (IsSetWith items place) }
{
    match places {
        Some(set) => set.insert(place),
        None => (),
    }
}

/// Removes a place from the set, if there is one.
#[inline(always)]
fn remove_place(places: &mut Option<PlaceSet>, place: u32)
    ensures { (items : List (Reverse Mark)) → IfSome places.old (IsSetOf items) → IfSome places.new (IsSetWithout items place) }
{
    match places {
        Some(set) => set.remove(place),
        None => (),
    }
}

/// Removes the places of all marks from the set of these places, if there is one.
fn remove_places(places: &mut Option<PlaceSet>, heap: &BinaryHeap<Reverse<Mark>>)
    requires { IfSome places.old (IsSetOf (heap_items heap.now)) }
    ensures { IfSome places.new (IsSetOf []) }
{
    match places {
        Some(set) => remove_each(set, heap),
        None => (),
    }
}

/// Removes the places of all marks from the set of these places.
fn remove_each(places: &mut PlaceSet, heap: &BinaryHeap<Reverse<Mark>>)
    requires { IsSetOf (heap_items heap.now) places.old }
    ensures { IsSetOf [] places.new }
{
    for mark in heap.as_slice() {
        places.remove(mark.0.place);
    }
}

/// Whether a mark is of this place.
#[inline(always)]
fn has_place(heap: &BinaryHeap<Reverse<Mark>>, place: u32) -> bool
    ensures { result ≡ list_any (λ (mark : Reverse Mark). place == mark.0.place) (heap_items heap.now) }
{
    heap.iter().any(|mark| place == mark.0.place)
}

/// Whether the mark is there.
fn has_mark(heap: &BinaryHeap<Reverse<Mark>>, mark: Mark) -> bool
    ensures { result ≡ list_any (is_of mark) (heap_items heap.now) }
{
    heap.iter().any(|other| other.0 == mark)
}

/// The marks with this one in place of another one of its place.
fn with_rank(heap: BinaryHeap<Reverse<Mark>>, mark: Mark) -> BinaryHeap<Reverse<Mark>>
    ensures marked { is_among mark.place (places_in (heap_items heap)) ≡ true
        → IsMarkedAs (marks_in (heap_items heap)) (marks_in (heap_items result)) mark.rank mark.place }
    ensures places { IsPermutation (places_in (heap_items heap)) (places_in (heap_items result)) }
    ensures order { IsHeap heap_cmp (heap_items result) }
{
    let mut marks = heap.into_vec();
    for at in 0..marks.len() {
        if marks[at].0.place == mark.place {
            marks[at] = Reverse(mark);
            return BinaryHeap::from(marks);
        }
    }
    BinaryHeap::from(marks)
}

/// Whether all marks have this rank.
fn have_rank(heap: &BinaryHeap<Reverse<Mark>>, rank: u32) -> bool
    ensures { result ≡ list_all (has_rank rank) (heap_items heap.now) }
{
    heap.iter().all(|mark| mark.0.rank == rank)
}

/// Pushes the places of the marks, for which there is capacity.
fn push_places(heap: &BinaryHeap<Reverse<Mark>>, level: &mut Vec<u32>)
    requires { vec_len level.old + heap_len heap.now ≤ vec_capacity level.old }
    ensures { level.new.items ≡ level.old.items ++ map place_of (marks_in (heap_items heap.now)) }
{
    for mark in heap.as_slice() {
        match level.push(mark.0.place) {
            Ok(()) => (),
            Err(_) => unreachable!(),
        }
    }
}
