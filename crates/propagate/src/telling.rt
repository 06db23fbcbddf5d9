//! Who is told of the changes of a level: the dependents of each place whose state has changed.
//!
//! They are found for all places before any of them is marked, in two loops that do little else: each look waits for memory that was
//! not touched for a long time, and several of them wait at once.
ghost use Rattle.std.specs.Prelude.{◌≡◌, ◌<◌, false, length, All, OnOk};
ghost use Rattle.stage_graph.specs.Plain.{IsLive};
ghost use Rattle.stage_ops.specs.States.{seen_at, seen_of, state_at};
ghost use Rattle.std.specs.Option.{option_map_or};
ghost use Rattle.propagate.specs.Completions.{differ};
ghost use Rattle.propagate.specs.Telling.{AreCompared, AreFound, AreListed};

use crate::kept::KeptState;
use crate::readers::dependents_of;
use crate::representation::StateRepresentation;
use crate::states::States;
use rank_order::Order;
use share_tree::Held;
use std::alloc::{AllocError, Global};
use std::ops::Deref;

/// The dependents of a place whose state has changed.
#[derive(Clone, Copy)]
pub(crate) struct Told<'a> {
    pub(crate) dependents: &'a [u32],
}

/// What is found for each place of a level. The lists of one level take the place of those of the level before.
#[derive(Drop)]
pub(crate) struct Telling<'a> {
    /// Whether its state has changed.
    changed: Vec<bool>,
    /// Its dependents, if it has.
    pub(crate) told: Vec<Option<Told<'a>>>,
}

/// Whether dependents can distinguish the state at a place from another one, if there is one.
#[inline(always)]
fn is_another<R: StateRepresentation>(
    states: &States<R>,
    place: u32,
    after: &Option<Held<KeptState>>,
) -> bool
    requires { place < length states.now }
    ensures { result ≡ option_map_or (λ state. differ (seen_at (state_at states.now) place) (seen_of state)) after.now false }
{
    match after {
        Some(after) => states.differs(place, after.deref()),
        None => false,
    }
}

/// Whether the state of each place of a level has changed.
fn compare_each<R: StateRepresentation>(
    states: &States<R>,
    level: &[u32],
    results: &[Option<Held<KeptState>>],
    changed: &mut Vec<bool>,
) -> Result<(), AllocError>
    requires within { All (λ place. place < length states.now) level.now }
    requires each { length results.now ≡ length level.now }
    ensures { OnOk result (AreCompared states.now level.now results.now (length level.now) changed.new.items) }
{
    changed.clear();
    changed.reserve(level.len())?;
    for at in 0..level.len() {
        changed.push(is_another(states, level[at], &results[at]))?;
    }
    Ok(())
}

/// The dependents of each place of a level whose state has changed.
fn list_each<'a, R: StateRepresentation>(
    order: &'a Order<R>,
    level: &[u32],
    changed: &[bool],
    told: &mut Vec<Option<Told<'a>>>,
) -> Result<(), AllocError>
    requires live { All (IsLive order.now.graph.places) level.now }
    ensures { OnOk result (AreListed order.now.graph.places level.now changed.now (length level.now) told.new.items) }
{
    told.clear();
    told.reserve(level.len())?;
    for at in 0..level.len() {
        told.push(match changed.get(at) {
            Some(true) => Some(Told {
                dependents: dependents_of(order, level[at]),
            }),
            _ => None,
        })?;
    }
    Ok(())
}

impl<'a> Telling<'a> {
    /// Nothing is found yet. Allocates nothing.
    pub(crate) fn new(alloc: Global) -> Telling<'a> {
        Telling {
            changed: Vec::new(alloc),
            told: Vec::new(alloc),
        }
    }

    /// Finds who is told of the changes of a level.
    pub(crate) fn find<R: StateRepresentation>(
        &mut self,
        order: &'a Order<R>,
        states: &States<R>,
        level: &[u32],
        results: &[Option<Held<KeptState>>],
    ) -> Result<(), AllocError>
        requires live { All (IsLive order.now.graph.places) level.now }
        requires within { All (λ place. place < length states.now) level.now }
        requires each { length results.now ≡ length level.now }
        ensures { OnOk result (AreFound order.now.graph.places states.now level.now results.now self.new.told.items) }
    {
        compare_each(states, level, results, &mut self.changed)?;
        list_each(order, level, self.changed.as_slice(), &mut self.told)
    }
}
