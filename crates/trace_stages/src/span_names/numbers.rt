//! The numbers of spans among those of one base name.
ghost use Rattle.std.specs.Prelude.{◌≡◌, ℕ, ◌+◌, ◌<◌, ◌-◌, ◌^◌, List, IfOk, OnOk, bytes_eq, if◌then◌else◌, length, nat_eq, option_map, slice_get, unwrap_or, Some, None};
ghost use Rattle.std.specs.HashMap.{get_by_text};
ghost use Rattle.std.specs.Option.{option_or};
ghost use Rattle.trace_stages.specs.Names.{count_before};
ghost use Rattle.trace_stages.specs.Numbers.{AreCounts, AreNumbers};

use std::alloc::{AllocError, Global};
use std::collections::HashMap;
use trace_spans::{Text, TextList};

/// How many spans have each base name, and the numbers that they got.
#[derive(Drop)]
pub(crate) struct Numbers {
    counts: HashMap<String, u64>,
    numbers: Vec<Option<u64>>,
}

/// How many have a base name.
fn count_of(counts: &HashMap<String, u64>, base: &Text) -> u64
    ensures { result ≡ unwrap_or (get_by_text counts.now base.now) 0 }
{
    counts.get(base.as_str()).copied().unwrap_or(0)
}

/// Counts one more of a base name. One that was counted before has a key: no copy of it is made.
#[tactic(auto, using(std::proofs::lemmas::Map::Text::text_keys))]
fn count(
    alloc: Global,
    counts: &mut HashMap<String, u64>,
    base: &Text,
    number: u64,
) -> Result<(), AllocError>
    ensures { OnOk result ((other : List ℕ) → unwrap_or (get_by_text counts.new other) 0 ≡ (if bytes_eq base.now other then number else unwrap_or (get_by_text counts.old other) 0)) }
{
    if let Some(held) = counts.get_mut(base.as_str()) {
        *held = number;
        return Ok(());
    }
    counts.insert(String::from_str(alloc, base.as_str())?, number)?;
    Ok(())
}

/// Gives the span at a place a number, unless it has one.
fn give(numbers: &mut Vec<Option<u64>>, place: usize, number: u64)
    requires { place < length numbers.old.items }
    ensures len { length numbers.new.items ≡ length numbers.old.items }
    ensures given { (other : ℕ) → unwrap_or (slice_get numbers.new.items other) None ≡ (if nat_eq other place then option_or (unwrap_or (slice_get numbers.old.items other) None) (Some number) else unwrap_or (slice_get numbers.old.items other) None) }
{
    if numbers[place].is_none() {
        numbers[place] = Some(number);
    }
}

/// The number of the span at a place, where it has one.
fn given(numbers: &[Option<u64>], place: usize) -> Option<u64>
    ensures { result ≡ unwrap_or (slice_get numbers.now place) None }
{
    match numbers.get(place) {
        Some(number) => *number,
        None => None,
    }
}

/// The base name of the span at a place, where it is one.
fn base_at(bases: &[Text], place: usize) -> Option<&Text>
    ensures { option_map (λ base. base.now) result ≡ slice_get bases.now place }
{
    bases.get(place)
}

/// No numbers of so many spans.
fn no_numbers(alloc: Global, count: usize) -> Result<Vec<Option<u64>>, AllocError>
    ensures { IfOk result (λ numbers. (length numbers.items ≡ count) × ((place : ℕ) → unwrap_or (slice_get numbers.items place) None ≡ None)) }
{
    vec![in alloc; None; count]
}

/// Numbers the spans in an order, each among those of its base name.
pub(crate) fn numbers_of(
    alloc: Global,
    bases: &TextList,
    order: &[usize],
) -> Result<Numbers, AllocError>
    ensures { IfOk result (λ all. AreCounts all.counts bases.now order.now × AreNumbers all.numbers.items bases.now order.now) }
{
    let bases = bases.as_slice();
    let mut counts = HashMap::new(alloc);
    let mut numbers = no_numbers(alloc, bases.len())?;
    for place in order {
        if let Some(base) = base_at(bases, *place) {
            let number = count_of(&counts, base) + 1;
            count(alloc, &mut counts, base, number)?;
            give(&mut numbers, *place, number);
        }
    }
    Ok(Numbers { counts, numbers })
}

/// The number of the span at a place; one that has none comes after all.
pub(crate) fn number_at(numbers: &Numbers, place: usize, base: &Text) -> u64
    requires { unwrap_or (get_by_text numbers.now.counts base.now) 0 < 2 ^ 64 - 1 }
    ensures { (bases : List (List ℕ)) (order : List ℕ) → AreCounts numbers.now.counts bases order → AreNumbers numbers.now.numbers.items bases order → slice_get bases place ≡ Some base.now → result ≡ count_before bases base.now place order + 1 }
{
    match given(&numbers.numbers, place) {
        Some(number) => number,
        None => count_of(&numbers.counts, base) + 1,
    }
}
