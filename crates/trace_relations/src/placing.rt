//! By how much clocks are moved: one after another, each by those that are placed.
ghost use Rattle.std.specs.Prelude.{◌≡◌, ◌==◌, ◌<◌, ◌≤◌, ◌+◌, ◌^◌, ◌+ℤ◌, ◌-ℤ◌, ◌++◌, ◌∷◌, [], ℕ, List, All, pos, IfOk, IfSome, OnOk, length, option_map, replicate, slice_get, slice_set, unwrap_or, vec_len, if◌then◌else◌};
ghost use Rattle.std.specs.BinaryHeap.{heap_items};
ghost use Rattle.std.specs.Int.{int_div_euclid};
ghost use Rattle.trace_relations.specs.declared.clocks.Pair.{Pair};
ghost use Rattle.trace_relations.specs.Ancestry.{most_spans};
ghost use Rattle.trace_relations.specs.ClockNumbers.{AreClocks, all_pairs, clock_at};
ghost use Rattle.trace_relations.specs.Clocks.{everything, higher, is_next, lower, move_in, narrowed, of_called, of_caller, placed, range_of, says_of, unplaced};
ghost use Rattle.trace_relations.specs.KeptMoves.{AreMovesWithin, HasPairs, HasPlacedBy, HasRoots, HaveJoined, IsAtMost, IsPairAmong, IsRangeWithin, IsRootPlaced, IsSaid, Stand, counts_as, moved_if, moves_in, narrowed_at, narrowed_by_numbers, next_clock, numbers_at, numbers_of, placed_count, touches};
ghost use Rattle.trace_relations.specs.Moves.{all_moves, all_placed, moved_clocks};
ghost use Rattle.trace_relations.specs.Parents.{all_references};
ghost use Rattle.trace_relations.specs.Times.{times_of};
ghost use Rattle.trace_spans.specs.declared.span.Span.{Span};

use crate::clocks::{Pair, Range, clocks_of, pairs_of};
use crate::references::References;
use crate::set_at::set_at;
use crate::times::{Times, times_moved};
use crate::waits::caller_named;
use std::alloc::{AllocError, Global};
use std::cmp::Reverse;
use std::collections::BinaryHeap;
use trace_spans::Span;

/// A clock that is moved.
#[derive(Clone, Copy, PartialEq, Eq, Debug)]
pub struct Moved {
    /// The first span that has it.
    pub clock: usize,
    /// By how many nanoseconds, which isn't 0.
    pub by: i128,
}

/// The higher of two bounds.
fn higher(low: Option<i128>, other: Option<i128>) -> Option<i128>
    ensures { result ≡ higher low other }
{
    match (low, other) {
        (Some(low), Some(other)) => Some(low.max(other)),
        (None, bound) => bound,
        (bound, None) => bound,
    }
}

/// The lower of two bounds.
fn lower(high: Option<i128>, other: Option<i128>) -> Option<i128>
    ensures { result ≡ lower high other }
{
    match (high, other) {
        (Some(high), Some(other)) => Some(high.min(other)),
        (None, bound) => bound,
        (bound, None) => bound,
    }
}

/// The middle of two bounds, rounded down.
fn middle(low: i128, high: i128) -> i128
    requires low { IsAtMost (2 ^ 100) low }
    requires high { IsAtMost (2 ^ 100) high }
    ensures { result ≡ int_div_euclid (low +ℤ high) (pos 2) }
{
    let sum = low + high;
    sum.div_euclid(2)
}

impl Range {
    /// Any move may be.
    fn everything() -> Range
        ensures { result ≡ everything }
    {
        Range {
            low: None,
            high: None,
        }
    }

    /// What both say, unless nothing is left.
    fn narrowed(self, other: Range) -> Range
        ensures { result ≡ narrowed self other }
    {
        let range = Range {
            low: higher(self.low, other.low),
            high: lower(self.high, other.high),
        };
        match (range.low, range.high) {
            (Some(low), Some(high)) if low > high => self,
            _ => range,
        }
    }

    /// By how much a clock is moved: not at all, if that may be; else by the bound where there is one; else by their middle.
    fn move_in(self) -> i128
        requires { IsRangeWithin (2 ^ 100) self }
        ensures { result ≡ move_in self }
    {
        match (self.low, self.high) {
            (None, None) => 0,
            (Some(low), None) => low.max(0),
            (None, Some(high)) => high.min(0),
            (Some(low), Some(high)) if low <= 0 && 0 <= high => 0,
            (Some(low), Some(high)) => middle(low, high),
        }
    }
}

/// By how much clocks are moved, of those that are placed, by the first spans that have them.
type Moves = Vec<Option<i128>>;

/// By how much a clock is moved, if it is placed.
fn move_of(moves: &[Option<i128>], clock: usize) -> Option<i128>
    ensures { result ≡ moves_in moves.now clock }
{
    match moves.get(clock) {
        Some(by) => *by,
        None => None,
    }
}

/// A bound that is so much higher.
fn raised(bound: Option<i128>, by: i128) -> Option<i128>
    requires bound { IfSome bound (IsAtMost (2 ^ 64)) }
    requires by { IsAtMost (2 ^ 100) by }
    ensures { result ≡ option_map (λ most. by +ℤ most) bound }
{
    match bound {
        Some(most) => {
            let raised = by + most;
            Some(raised)
        }
        None => None,
    }
}

/// How far below a number a bound is.
fn below(bound: Option<i128>, by: i128) -> Option<i128>
    requires bound { IfSome bound (IsAtMost (2 ^ 64)) }
    requires by { IsAtMost (2 ^ 100) by }
    ensures { result ≡ option_map (λ most. by -ℤ most) bound }
{
    match bound {
        Some(most) => {
            let below = by - most;
            Some(below)
        }
        None => None,
    }
}

/// What a pair says of its called clock, where the other is moved by so much.
fn of_called(pair: &Pair, by: i128) -> Range
    requires pair { IsSaid pair.now }
    requires by { IsAtMost (2 ^ 100) by }
    ensures { result ≡ of_called pair.now by }
{
    Range {
        low: raised(Some(pair.least), by),
        high: raised(pair.most, by),
    }
}

/// What a pair says of its caller's clock, where the other is moved by so much.
fn of_caller(pair: &Pair, by: i128) -> Range
    requires pair { IsSaid pair.now }
    requires by { IsAtMost (2 ^ 100) by }
    ensures { result ≡ of_caller pair.now by }
{
    Range {
        low: below(pair.most, by),
        high: below(Some(pair.least), by),
    }
}

/// What a pair says of a clock that isn't placed.
fn says_of(moves: &[Option<i128>], clock: usize, pair: &Pair) -> Range
    requires moves { AreMovesWithin (2 ^ 100) moves.now }
    requires pair { IsSaid pair.now }
    ensures { result ≡ says_of (moves_in moves.now) clock pair.now }
{
    if pair.called == clock {
        match move_of(moves, pair.caller) {
            Some(by) => of_called(pair, by),
            None => Range::everything(),
        }
    } else if pair.caller == clock {
        match move_of(moves, pair.called) {
            Some(by) => of_caller(pair, by),
            None => Range::everything(),
        }
    } else {
        Range::everything()
    }
}

/// No pairs of so many clocks.
fn no_numbers(alloc: Global, count: usize) -> Result<Vec<Vec<usize>>, AllocError>
    ensures { IfOk result (λ all. (vec_len all ≡ count) × ((clock : ℕ) → numbers_at all.items clock ≡ [])) }
{
    let mut all = Vec::with_capacity(alloc, count)?;
    for _clock in 0..count {
        all.push(Vec::new(alloc))?;
    }
    Ok(all)
}

/// Adds the number of a pair that a clock is in.
fn add_number(all: &mut Vec<Vec<usize>>, clock: usize, number: usize) -> Result<(), AllocError>
    requires { clock < vec_len all.old }
    ensures kept { OnOk result (vec_len all.new ≡ vec_len all.old) }
    ensures added { OnOk result ((other : ℕ) → numbers_at all.new.items other ≡ (if other == clock then numbers_at all.old.items other ++ number ∷ [] else numbers_at all.old.items other)) }
{
    all[clock].push(number)?;
    Ok(())
}

/// Adds the number of a pair to those of its clocks.
fn add_pair(all: &mut Vec<Vec<usize>>, pair: &Pair, number: usize) -> Result<(), AllocError>
    requires { IsPairAmong (vec_len all.old) pair.now }
    ensures kept { OnOk result (vec_len all.new ≡ vec_len all.old) }
    ensures added { OnOk result ((other : ℕ) → numbers_at all.new.items other ≡ (if touches other pair.now then numbers_at all.old.items other ++ number ∷ [] else numbers_at all.old.items other)) }
{
    add_number(all, pair.caller, number)?;
    if pair.called != pair.caller {
        add_number(all, pair.called, number)?;
    }
    Ok(())
}

/// The pairs of each clock, by their numbers in the order of the file.
fn pairs_by_clock(
    alloc: Global,
    count: usize,
    pairs: &[Pair],
) -> Result<Vec<Vec<usize>>, AllocError>
    requires { All (IsPairAmong count) pairs.now }
    ensures { IfOk result (λ all. HasPairs count pairs.now all.items) }
{
    let mut all = no_numbers(alloc, count)?;
    for (number, pair) in pairs.iter().enumerate() {
        add_pair(&mut all, pair, number)?;
    }
    Ok(all)
}

/// The numbers of the pairs that a clock is in.
fn pairs_at(by_clock: &[Vec<usize>], clock: usize) -> &[usize]
    ensures { result.now ≡ numbers_at by_clock.now clock }
{
    match by_clock.get(clock) {
        Some(numbers) => numbers.as_slice(),
        None => &[],
    }
}

/// What some of the pairs of a clock say of it, beside a range.
fn narrowed_by(
    moves: &[Option<i128>],
    clock: usize,
    pairs: &[Pair],
    numbers: &[usize],
    are_whole: bool,
    range: Range,
) -> Range
    requires moves { AreMovesWithin (2 ^ 100) moves.now }
    requires pairs { All IsSaid pairs.now }
    ensures { result ≡ narrowed_by_numbers (moves_in moves.now) clock pairs.now numbers.now are_whole range }
{
    let mut range = range;
    for number in numbers {
        range = narrowed_at(moves, clock, pairs, *number, are_whole, range);
    }
    range
}

/// What the pair of a number says of a clock beside a range, if it counts.
fn narrowed_at(
    moves: &[Option<i128>],
    clock: usize,
    pairs: &[Pair],
    number: usize,
    are_whole: bool,
    range: Range,
) -> Range
    requires moves { AreMovesWithin (2 ^ 100) moves.now }
    requires pairs { All IsSaid pairs.now }
    ensures { result ≡ narrowed_at (moves_in moves.now) clock are_whole range (slice_get pairs.now number) }
{
    match pairs.get(number) {
        Some(pair) => {
            if counts_as(pair, are_whole) {
                range.narrowed(says_of(moves, clock, pair))
            } else {
                range
            }
        }
        None => range,
    }
}

/// Whether a pair is one of those that are looked at: of whole calls, or of the others.
fn counts_as(pair: &Pair, are_whole: bool) -> bool
    ensures { result ≡ counts_as are_whole pair.now }
{
    if are_whole {
        pair.most.is_some()
    } else {
        pair.most.is_none()
    }
}

/// What the pairs of a clock say of it: those of whole calls first.
fn range_of(moves: &[Option<i128>], clock: usize, pairs: &[Pair], numbers: &[usize]) -> Range
    requires moves { AreMovesWithin (2 ^ 100) moves.now }
    requires pairs { All IsSaid pairs.now }
    requires numbers { numbers.now ≡ numbers_of pairs.now clock }
    ensures { result ≡ range_of (moves_in moves.now) clock pairs.now }
{
    let of_whole = narrowed_by(moves, clock, pairs, numbers, true, Range::everything());
    narrowed_by(moves, clock, pairs, numbers, false, of_whole)
}

/// The clock of a pair that isn't placed, where the other is.
fn unplaced(moves: &[Option<i128>], pair: &Pair) -> Option<usize>
    ensures { result ≡ (if is_next (moves_in moves.now) pair.now then Some (unplaced (moves_in moves.now) pair.now) else None) }
{
    match (
        move_of(moves, pair.caller).is_some(),
        move_of(moves, pair.called).is_some(),
    ) {
        (true, false) => Some(pair.called),
        (false, true) => Some(pair.caller),
        _ => None,
    }
}

/// The clock of the pair of a number that isn't placed, where the other is.
fn next_clock(moves: &[Option<i128>], pairs: &[Pair], number: usize) -> Option<usize>
    ensures { result ≡ next_clock (moves_in moves.now) pairs.now number }
{
    match pairs.get(number) {
        Some(pair) => unplaced(moves, pair),
        None => None,
    }
}

/// Pairs that may have one clock alone that is placed: the first is at hand.
type Coming = BinaryHeap<Reverse<usize>>;

/// Adds pairs to those that are coming.
fn add_coming(coming: &mut Coming, numbers: &[usize]) -> Result<(), AllocError>
    ensures { OnOk result (HaveJoined numbers.now (heap_items coming.old) (heap_items coming.new)) }
{
    for number in numbers {
        coming.push(Reverse(*number))?;
    }
    Ok(())
}

/// Places a clock, with which further pairs may have one clock alone that is placed.
fn place_clock(
    moves: &mut Moves,
    coming: &mut Coming,
    numbers: &[usize],
    clock: usize,
    by: i128,
) -> Result<(), AllocError>
    ensures moves { moves.new.items ≡ slice_set moves.old.items clock (Some by) }
    ensures coming { OnOk result (HaveJoined numbers.now (heap_items coming.old) (heap_items coming.new)) }
{
    set_at(moves, clock, Some(by));
    add_coming(coming, numbers)?;
    Ok(())
}

/// The clock of a span that names no parent in the trace stays as it is.
fn place_root(
    moves: &mut Moves,
    coming: &mut Coming,
    by_clock: &[Vec<usize>],
    references: &[References],
    place: usize,
    clock: usize,
) -> Result<(), AllocError>
    ensures { OnOk result (IsRootPlaced references.now place clock (numbers_at by_clock.now clock) moves.old.items (heap_items coming.old) moves.new.items (heap_items coming.new)) }
{
    if caller_named(references, place).is_none() && move_of(moves, clock).is_none() {
        place_clock(moves, coming, pairs_at(by_clock, clock), clock, 0)?;
    }
    Ok(())
}

/// The clocks of spans that name no parent in the trace stay as they are.
fn place_roots(
    moves: &mut Moves,
    coming: &mut Coming,
    by_clock: &[Vec<usize>],
    references: &[References],
    clocks: &[usize],
) -> Result<(), AllocError>
    ensures { OnOk result ((spans : List Span) (pairs : List Pair) → references.now ≡ all_references spans → AreClocks spans clocks.now → HasPairs (length spans) pairs by_clock.now
        → moves.old.items ≡ replicate (length spans) None → heap_items coming.old ≡ [] → HasRoots spans pairs (length spans) moves.new.items (heap_items coming.new)) }
{
    for (place, clock) in clocks.iter().enumerate() {
        place_root(moves, coming, by_clock, references, place, *clock)?;
    }
    Ok(())
}

/// Places the clock of a pair that isn't placed, where the other is.
fn place_by(
    moves: &mut Moves,
    coming: &mut Coming,
    by_clock: &[Vec<usize>],
    pairs: &[Pair],
    number: usize,
) -> Result<(), AllocError>
    requires moves { AreMovesWithin (2 ^ 99) moves.old.items }
    requires pairs { All (IsPairAmong (length moves.old.items)) pairs.now }
    requires by_clock { HasPairs (length moves.old.items) pairs.now by_clock.now }
    ensures { OnOk result (HasPlacedBy pairs.now number moves.old.items (heap_items coming.old) moves.new.items (heap_items coming.new)) }
{
    let placed = moves.as_slice();
    let Some(clock) = next_clock(placed, pairs, number) else {
        return Ok(());
    };
    let numbers = pairs_at(by_clock, clock);
    let range = range_of(placed, clock, pairs, numbers);
    let by = range.move_in();
    place_clock(moves, coming, numbers, clock, by)?;
    Ok(())
}

/// Places the clocks that pairs reach from those that are placed.
fn place_reached(
    moves: &mut Moves,
    coming: &mut Coming,
    by_clock: &[Vec<usize>],
    pairs: &[Pair],
) -> Result<(), AllocError>
    requires count { length moves.old.items ≤ most_spans }
    requires pairs { All (IsPairAmong (length moves.old.items)) pairs.now }
    requires by_clock { HasPairs (length moves.old.items) pairs.now by_clock.now }
    requires stand { Stand pairs.now (length moves.old.items) moves.old.items (heap_items coming.old) }
    ensures placed { OnOk result ((n : ℕ) → length moves.old.items ≤ n + placed_count moves.old.items → placed pairs.now n (moves_in moves.old.items) ≡ moves_in moves.new.items) }
    ensures within { OnOk result (AreMovesWithin (2 ^ 80) moves.new.items) }
{
    while let Some(Reverse(number)) = coming.pop() {
        place_by(moves, coming, by_clock, pairs, number)?;
    }
    Ok(())
}

/// By how much each clock is moved, of those that pairs reach from the roots.
///
/// The pairs that may have one clock alone that is placed are kept in a heap, so that the first of them is found at once.
fn all_moves(
    alloc: Global,
    spans: &[Span],
    references: &[References],
    clocks: &[usize],
    pairs: &[Pair],
) -> Result<Moves, AllocError>
    requires count { length spans.now ≤ most_spans }
    requires clocks { AreClocks spans.now clocks.now }
    requires references { references.now ≡ all_references spans.now }
    requires pairs { pairs.now ≡ all_pairs spans.now }
    requires among { All (IsPairAmong (length spans.now)) pairs.now }
    ensures placed { IfOk result (λ moves. (clock : ℕ) → moves_in moves.items clock ≡ all_placed spans.now clock) }
    ensures within { IfOk result (λ moves. AreMovesWithin (2 ^ 80) moves.items) }
{
    let by_clock = pairs_by_clock(alloc, clocks.len(), pairs)?;
    let mut moves = vec![in alloc; None; clocks.len()]?;
    let mut coming = BinaryHeap::new(alloc);
    place_roots(&mut moves, &mut coming, &by_clock, references, clocks)?;
    place_reached(&mut moves, &mut coming, &by_clock, pairs)?;
    Ok(moves)
}

/// Adds the clock of a span, if that is the first that has it and the clock is moved.
fn push_moved(
    moved: &mut Vec<Moved>,
    place: usize,
    clock: usize,
    by: i128,
) -> Result<(), AllocError>
    ensures { OnOk result (moved.new.items ≡ moved.old.items ++ moved_if place clock by) }
{
    if clock == place && by != 0 {
        moved.push(Moved { clock: place, by })?;
    }
    Ok(())
}

/// The clocks that are moved, by their first spans.
fn all_moved(
    alloc: Global,
    clocks: &[usize],
    moves: &[Option<i128>],
) -> Result<Vec<Moved>, AllocError>
    ensures { (spans : List Span) → AreClocks spans clocks.now → IfOk result (λ moved. moved.items ≡ moved_clocks spans (λ place. unwrap_or (moves_in moves.now (clock_at spans place)) (pos 0))) }
{
    let mut moved = Vec::new(alloc);
    for (place, clock) in clocks.iter().enumerate() {
        let by = move_of(moves, *clock).unwrap_or(0);
        push_moved(&mut moved, place, *clock, by)?;
    }
    Ok(moved)
}

/// The times of spans, whose clocks are moved so.
fn all_times(
    alloc: Global,
    spans: &[Span],
    clocks: &[usize],
    moves: &[Option<i128>],
) -> Result<Vec<Times>, AllocError>
    requires clocks { AreClocks spans.now clocks.now }
    requires within { AreMovesWithin (2 ^ 80) moves.now }
    ensures { IfOk result (λ times. times.items ≡ times_of (λ place. unwrap_or (moves_in moves.now (clock_at spans.now place)) (pos 0)) spans.now) }
{
    let mut times = Vec::with_capacity(alloc, spans.len())?;
    for (span, clock) in spans.iter().zip(clocks) {
        let by = move_of(moves, *clock).unwrap_or(0);
        times.push(times_moved(by, span))?;
    }
    Ok(times)
}

/// The times of spans as they were told.
pub(crate) fn times_as_told(alloc: Global, spans: &[Span]) -> Result<Vec<Times>, AllocError>
    ensures { IfOk result (λ times. times.items ≡ times_of (λ place. pos 0) spans.now) }
{
    let mut times = Vec::with_capacity(alloc, spans.len())?;
    for span in spans {
        times.push(times_moved(0, span))?;
    }
    Ok(times)
}

/// The clocks of a trace that are moved, and the times of its spans by all clocks.
#[derive(Drop)]
pub(crate) struct Placed {
    pub moved: Vec<Moved>,
    pub times: Vec<Times>,
}

/// The times of spans, whose clocks are moved where the trace contradicts them.
pub(crate) fn placed_times(
    alloc: Global,
    spans: &[Span],
    references: &[References],
) -> Result<Placed, AllocError>
    requires count { length spans.now ≤ most_spans }
    requires references { references.now ≡ all_references spans.now }
    ensures times { IfOk result (λ placed. placed.times.items ≡ times_of (all_moves spans.now) spans.now) }
    ensures moved { IfOk result (λ placed. placed.moved.items ≡ moved_clocks spans.now (all_moves spans.now)) }
{
    let clocks = clocks_of(alloc, spans)?;
    let pairs = pairs_of(alloc, spans, references, &clocks)?;
    if pairs.is_empty() {
        return Ok(Placed {
            moved: Vec::new(alloc),
            times: times_as_told(alloc, spans)?,
        });
    }
    let moves = all_moves(alloc, spans, references, &clocks, &pairs)?;
    Ok(Placed {
        moved: all_moved(alloc, &clocks, &moves)?,
        times: all_times(alloc, spans, &clocks, &moves)?,
    })
}
