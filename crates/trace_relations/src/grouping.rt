//! Calls that are put into groups by their keys.
ghost use Rattle.std.specs.Prelude.{◌≡◌, ◌==◌, ◌<◌, ◌++◌, [], ◌∷◌, ℕ, List, All, Option, IfOk, OnOk, if◌then◌else◌, option_map, string_bytes, vec_len};
ghost use Rattle.std.specs.HashMap.{get_by_text};
ghost use Rattle.trace_relations.specs.Groupings.{IsFreeGroup, IsGrouping, calls_at};

use crate::call_groups::{Group, Groups};
use crate::set_at::set_at;
use std::alloc::{AllocError, Global};
use std::collections::HashMap;

/// Groups of calls, by their keys.
#[derive(Drop)]
pub(crate) struct Grouping {
    known: HashMap<String, usize>,
    groups: Vec<Group>,
    of_spans: Vec<Option<usize>>,
}

/// Adds a call to the group of a number.
fn add_call(groups: &mut Vec<Group>, number: usize, place: usize) -> Result<(), AllocError>
    ensures kept { OnOk result (vec_len groups.new ≡ vec_len groups.old) }
    ensures added { number < vec_len groups.old → OnOk result ((other : ℕ) → calls_at groups.new.items other ≡ (if other == number then calls_at groups.old.items other ++ place ∷ [] else calls_at groups.old.items other)) }
    ensures free { All IsFreeGroup groups.old.items → OnOk result (All IsFreeGroup groups.new.items) }
{
    if number < groups.len() {
        groups[number].add(place)?;
    }
    Ok(())
}

/// The number of the group of a key, which is made where there is none.
fn number_of(
    alloc: Global,
    known: &mut HashMap<String, usize>,
    groups: &mut Vec<Group>,
    key: String,
) -> Result<usize, AllocError>
    ensures grouping { (keys : ℕ → Option (List ℕ)) (places : List ℕ) (of_spans : List (Option ℕ)) → IsGrouping keys places known.old groups.old.items of_spans → OnOk result (IsGrouping keys places known.new groups.new.items of_spans) }
    ensures number { IfOk result (λ number. get_by_text known.new (string_bytes key) ≡ Some number) }
{
    if let Some(number) = known.get(key.as_str()) {
        return Ok(*number);
    }
    let number = groups.len();
    groups.push(Group::new(alloc))?;
    known.insert(key, number)?;
    Ok(number)
}

impl Grouping {
    /// No groups of so many spans.
    pub(crate) fn new(alloc: Global, count: usize) -> Result<Grouping, AllocError>
        ensures count { IfOk result (λ grouping. vec_len grouping.of_spans ≡ count) }
        ensures grouping { IfOk result (λ grouping. (keys : ℕ → Option (List ℕ)) → IsGrouping keys [] grouping.known grouping.groups.items grouping.of_spans.items) }
    {
        Ok(Grouping {
            known: HashMap::new(alloc),
            groups: Vec::new(alloc),
            of_spans: vec![in alloc; None; count]?,
        })
    }

    /// Adds a span to the group of its key, if it has one.
    pub(crate) fn add(
        &mut self,
        alloc: Global,
        key: Option<String>,
        place: usize,
    ) -> Result<(), AllocError>
        ensures count { vec_len self.new.of_spans ≡ vec_len self.old.of_spans }
        ensures grouping { (keys : ℕ → Option (List ℕ)) (places : List ℕ) → keys place ≡ option_map string_bytes key → IsGrouping keys places self.old.known self.old.groups.items self.old.of_spans.items
            → OnOk result (IsGrouping keys (places ++ place ∷ []) self.new.known self.new.groups.items self.new.of_spans.items) }
    {
        let Some(key) = key else {
            return Ok(());
        };
        let number = number_of(alloc, &mut self.known, &mut self.groups, key)?;
        add_call(&mut self.groups, number, place)?;
        set_at(&mut self.of_spans, place, Some(number));
        Ok(())
    }

    /// The groups.
    pub(crate) fn into_groups(self) -> Groups
        ensures groups { result.groups ≡ self.groups }
        ensures of_spans { result.of_spans ≡ self.of_spans }
    {
        Groups {
            groups: self.groups,
            of_spans: self.of_spans,
        }
    }
}
