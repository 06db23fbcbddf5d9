//! The places that a target can wait for: itself, its feeds, their feeds, and so on. Where these have very many feeds all
//! places stand for them.
ghost use Rattle.std.specs.Prelude.{◌≡◌, [], ◌∷◌, ℕ, All, Contains, IfOk, IfSome, OnOk, None, replicate};
ghost use Rattle.std.specs.Option.{option_map};
ghost use Rattle.stage_graph.specs.Plain.{feeds_at, stage_at, IsLive};
ghost use Rattle.stage_graph.specs.Walk.{rank};
ghost use Rattle.time_sweep.specs.Known.{AreRanksFor, IsFinding, IsFurther, IsKnown};
ghost use Rattle.time_sweep.specs.Waits.{CanWaitFor, IsOnly};

use crate::known::known_rank;
use propagate::StateRepresentation;
use std::alloc::{AllocError, Global};
use version_store::{NoStage, Version};

/// How many feeds are looked at for each place of the graph, on the average, before the search is given up. It bounds the
/// search by the number of places, where one place can have as many feeds as there are places.
const FEEDS_A_PLACE: usize = 16;

/// The places that are found so far.
#[derive(Drop)]
pub(crate) struct Found {
    /// The rank of each place that is found.
    pub(crate) ranks: Vec<Option<u32>>,
    /// Those of them whose feeds have still to be found.
    pub(crate) waiting: Vec<u32>,
}

/// The rank of a stage.
fn rank_of<R: StateRepresentation>(version: &Version<R>, place: u32) -> u32
    requires { IsLive version.now.graph.places place }
    ensures { result ≡ rank version.now.graph.places place }
{
    match version.rank(place) {
        Ok(rank) => rank,
        Err(NoStage) => unreachable!(),
    }
}

impl Found {
    /// Nothing is found, of this many places.
    fn nothing(alloc: Global, count: usize) -> Result<Found, AllocError>
        ensures ranks { IfOk result (λ found. found.ranks.items ≡ replicate count None) }
        ensures waiting { IfOk result (λ found. found.waiting.items ≡ []) }
    {
        Ok(Found {
            ranks: vec![in alloc; None; count]?,
            waiting: Vec::new(alloc),
        })
    }

    /// Finds a place, if it has not been found before.
    fn find<R: StateRepresentation>(
        &mut self,
        version: &Version<R>,
        place: u32,
    ) -> Result<(), AllocError>
        requires live { IsLive version.now.graph.places place }
        requires finding { IsFinding version.now.graph.places self.old.ranks.items }
        ensures finding { OnOk result (IsFinding version.now.graph.places self.new.ranks.items) }
        ensures further { OnOk result (IsFurther self.old.ranks.items self.old.waiting.items self.new.ranks.items self.new.waiting.items) }
        ensures known { OnOk result (IsKnown self.new.ranks.items place) }
        ensures only { OnOk result (IsOnly self.old.ranks.items self.old.waiting.items self.new.ranks.items self.new.waiting.items (place ∷ [])) }
    {
        if known_rank(self.ranks.as_slice(), place).is_some() {
            return Ok(());
        }
        self.waiting.push(place)?;
        self.ranks[place as usize] = Some(rank_of(version, place));
        Ok(())
    }

    /// Finds each of some places.
    fn find_each<R: StateRepresentation>(
        &mut self,
        version: &Version<R>,
        places: &[u32],
    ) -> Result<(), AllocError>
        requires live { All (IsLive version.now.graph.places) places.now }
        requires finding { IsFinding version.now.graph.places self.old.ranks.items }
        ensures finding { OnOk result (IsFinding version.now.graph.places self.new.ranks.items) }
        ensures further { OnOk result (IsFurther self.old.ranks.items self.old.waiting.items self.new.ranks.items self.new.waiting.items) }
        ensures known { OnOk result (All (IsKnown self.new.ranks.items) places.now) }
        ensures only { OnOk result (IsOnly self.old.ranks.items self.old.waiting.items self.new.ranks.items self.new.waiting.items places.now) }
    {
        for place in places {
            self.find(version, *place)?;
        }
        Ok(())
    }

    /// Finds the feeds of a place.
    fn find_feeds<R: StateRepresentation>(
        &mut self,
        version: &Version<R>,
        place: u32,
    ) -> Result<(), AllocError>
        requires finding { IsFinding version.now.graph.places self.old.ranks.items }
        ensures finding { OnOk result (IsFinding version.now.graph.places self.new.ranks.items) }
        ensures further { OnOk result (IsFurther self.old.ranks.items self.old.waiting.items self.new.ranks.items self.new.waiting.items) }
        ensures known { OnOk result ((feed : ℕ) → Contains (feeds_at version.now.graph.places place) feed → IsKnown self.new.ranks.items feed) }
        ensures only { OnOk result (IsOnly self.old.ranks.items self.old.waiting.items self.new.ranks.items self.new.waiting.items (feeds_at version.now.graph.places place)) }
    {
        let Some(stage) = version.graph().stage(place) else {
            return Ok(());
        };
        self.find_each(version, stage.sources.as_slice())?;
        self.find_each(version, stage.inner.as_slice())?;
        Ok(())
    }
}

/// How many feeds the stage at a place has.
fn feed_count<R: StateRepresentation>(version: &Version<R>, place: u32) -> usize {
    match version.graph().stage(place) {
        Some(stage) => {
            let sources = stage.sources.as_slice();
            sources.len().saturating_add(stage.inner.as_slice().len())
        }
        None => 0,
    }
}

/// The ranks of the places that a target can wait for, each of which is looked at once, with its feeds. None where they
/// have too many feeds.
fn ancestor_ranks<R: StateRepresentation>(
    alloc: Global,
    version: &Version<R>,
    target: u32,
) -> Result<Option<Vec<Option<u32>>>, AllocError>
    requires { IsLive version.now.graph.places target }
    ensures { IfOk result (λ found. IfSome found (λ ranks. AreRanksFor version.now.graph.places target ranks.items)) }
{
    let count = version.graph().len();
    let most = count.saturating_mul(FEEDS_A_PLACE);
    let mut found = Found::nothing(alloc, count)?;
    found.find(version, target)?;
    let mut looked = 0_usize;
    while let Some(place) = found.waiting.pop() {
        looked = looked.saturating_add(feed_count(version, place));
        if looked > most {
            return Ok(None);
        }
        found.find_feeds(version, place)?;
    }
    Ok(Some(found.ranks))
}

/// The ranks of the places that a target can wait for, and of no others.
pub(crate) fn exact_ranks<R: StateRepresentation>(
    alloc: Global,
    version: &Version<R>,
    target: u32,
) -> Result<Vec<Option<u32>>, AllocError>
    requires { IsLive version.now.graph.places target }
    ensures ranks { IfOk result (λ ranks. AreRanksFor version.now.graph.places target ranks.items) }
    ensures exact { IfOk result (λ ranks. (place : ℕ) → IsKnown ranks.items place → CanWaitFor version.now.graph.places target place) }
{
    let count = version.graph().len();
    let mut found = Found::nothing(alloc, count)?;
    found.find(version, target)?;
    while let Some(place) = found.waiting.pop() {
        found.find_feeds(version, place)?;
    }
    Ok(found.ranks)
}

/// The rank of the stage at a place; none where no stage stands.
fn rank_at<R: StateRepresentation>(version: &Version<R>, place: u32) -> Option<u32>
    ensures { result ≡ option_map (λ _. rank version.now.graph.places place) (stage_at version.now.graph.places place) }
{
    match version.rank(place) {
        Ok(rank) => Some(rank),
        Err(NoStage) => None,
    }
}

/// The ranks of all places where stages stand.
fn all_ranks<R: StateRepresentation>(
    alloc: Global,
    version: &Version<R>,
) -> Result<Vec<Option<u32>>, AllocError>
    ensures { IfOk result (λ ranks. (target : ℕ) → IsLive version.now.graph.places target → AreRanksFor version.now.graph.places target ranks.items) }
{
    let graph = version.graph();
    let count = graph.len();
    let mut ranks = Vec::with_capacity(alloc, count)?;
    for place in 0..count as u32 {
        ranks.push(rank_at(version, place))?;
    }
    Ok(ranks)
}

/// The ranks of the places that a target can wait for, and maybe of others: of all, where the search for those that it
/// can wait for would take longer than to look at each place.
pub(crate) fn ranks_of<R: StateRepresentation>(
    alloc: Global,
    version: &Version<R>,
    target: u32,
) -> Result<Vec<Option<u32>>, AllocError>
    requires { IsLive version.now.graph.places target }
    ensures { IfOk result (λ ranks. AreRanksFor version.now.graph.places target ranks.items) }
{
    match ancestor_ranks(alloc, version, target)? {
        Some(ranks) => Ok(ranks),
        None => all_ranks(alloc, version),
    }
}
