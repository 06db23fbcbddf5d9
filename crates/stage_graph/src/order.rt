//! An order of the live stages in which each comes after its feeds, found by a search that goes depth first.
//!
//! The search keeps its own path, so a deep graph needs no deep call stack. It looks at each feed at most once
//! for each time that its stage is the last on the path; a feed that is still on the path closes a cycle.
ghost use Rattle.std.specs.Prelude.{◌≡◌, ◌≢◌, ℕ, sum_by, slice_index, ◌+◌, ◌-◌, ◌<◌, ◌≤◌, [], ◌∷◌, ◌++◌, length, true, All, Contains, IfOk, IfErr, IfSome, IfNone, OnOk, slice_set, drop, map, option_copied};
ghost use Rattle.stage_graph.specs.declared.order.Mark.TheVariants.{Unseen, Open, Done};
ghost use Rattle.stage_graph.specs.Plain.{IsLive, stage_at, feeds_at, feeds_of};
ghost use Rattle.stage_graph.specs.Order.{IsWalk, IsClosedWalk, IsFeedsFirst, IsOrderFault};
ghost use Rattle.stage_graph.specs.Walk.{IsRanked};
ghost use Rattle.stage_graph.specs.Search.{IsSearch, StaySeen, is_ahead, changes_left, first_mark, mark_at};

use crate::graph::Graph;
use crate::places::Places;
use crate::representation::Representation;
use crate::stage::Stage;
use std::alloc::{AllocError, Global};

/// Why the stages have no order.
#[derive(Drop)]
pub(crate) enum OrderFault {
    /// A walk that ends where it began.
    Cycle(Places),
    Memory,
}

impl From<AllocError> for OrderFault {
    ghost use Rattle.stage_graph.specs.declared.order.OrderFault.TheVariants.{Memory};

    ghost from_gives = { λ _ fault. fault ≡ Memory };

    fn from(_error: AllocError) -> OrderFault {
        OrderFault::Memory
    }
}

/// How far the search has come with a place.
#[derive(Clone, Copy)]
pub(crate) enum Mark {
    Unseen,
    /// It stands on the path, at this position.
    Open(usize),
    Done,
}

/// A search that follows feeds, depth first.
#[derive(Drop)]
pub(crate) struct Search {
    marks: Vec<Mark>,
    path: Vec<u32>,
    order: Vec<u32>,
}

/// How far the search has come with a place.
fn mark_of(marks: &[Mark], place: u32) -> Mark
    requires { place < length marks.now }
    ensures { mark_at marks.now place ≡ result }
{
    marks[place as usize]
}

/// The first of the feeds that is not done.
fn first_ahead(marks: &[Mark], feeds: &[u32]) -> Option<u32>
    requires { All (λ feed. feed < length marks.now) feeds.now }
    ensures among { IfSome result (Contains feeds.now) }
    ensures ahead { IfSome result (λ feed. is_ahead (mark_at marks.now feed) ≡ true) }
    ensures none { IfNone result (All (λ feed. mark_at marks.now feed ≡ Done) feeds.now) }
{
    for feed in feeds {
        match mark_of(marks, *feed) {
            Mark::Done => {}
            _ => return Some(*feed),
        }
    }
    None
}

/// The mark that a place begins with.
fn first_mark_of(stage: Option<&Stage>) -> Mark
    ensures { result ≡ first_mark (option_copied stage.entry) }
{
    match stage {
        None => Mark::Done,
        Some(_) => Mark::Unseen,
    }
}

/// The marks that the places of a graph begin with.
fn first_marks<R: Representation>(alloc: Global, graph: &Graph<R>) -> Result<Vec<Mark>, AllocError>
    ensures { IfOk result (λ marks. marks.items ≡ map first_mark graph.now.places) }
{
    let mut marks = Vec::new(alloc);
    for place in 0..graph.len() {
        marks.push(first_mark_of(graph.stage(place as u32)))?;
    }
    Ok(marks)
}

impl Search {
    /// A search that has seen no live stage.
    fn new<R: Representation>(alloc: Global, graph: &Graph<R>) -> Result<Search, AllocError>
        ensures search { IfOk result (IsSearch graph.now.places) }
        ensures path { IfOk result (λ search. search.path.items ≡ []) }
    {
        Ok(Search {
            marks: first_marks(alloc, graph)?,
            path: Vec::new(alloc),
            order: Vec::new(alloc),
        })
    }

    /// The first feed of a place that is not done.
    fn next_feed<R: Representation>(&self, graph: &Graph<R>, place: u32) -> Option<u32>
        requires { IsSearch graph.now.places self.now }
        ensures among { IfSome result (Contains (feeds_at graph.now.places place)) }
        ensures ahead { IfSome result (λ feed. is_ahead (mark_at self.now.marks.items feed) ≡ true) }
        ensures none { IfNone result (All (λ feed. mark_at self.now.marks.items feed ≡ Done) (feeds_at graph.now.places place)) }
        ensures live { All (IsLive graph.now.places) (feeds_at graph.now.places place) }
    {
        let Some(stage) = graph.stage(place) else {
            return None;
        };
        match first_ahead(&self.marks, stage.sources.as_slice()) {
            Some(feed) => Some(feed),
            None => first_ahead(&self.marks, stage.inner.as_slice()),
        }
    }

    /// The walk from a position of the path to its end, and back to where it began.
    fn closed_walk<R: Representation>(
        &self,
        alloc: Global,
        graph: &Graph<R>,
        begin: usize,
        feed: u32,
    ) -> Result<Places, AllocError>
        requires walk { IsWalk graph.now.places self.now.path.items }
        requires within { begin < length self.now.path.items }
        requires begins { slice_index self.now.path.items begin ≡ feed }
        requires ends { Contains (feeds_at graph.now.places (slice_index self.now.path.items (length self.now.path.items - 1))) feed }
        ensures { IfOk result (IsClosedWalk graph.now.places) }
    {
        let mut walk = Vec::from_slice(alloc, &self.path[begin..])?;
        walk.push(feed)?;
        Ok(Places::from_vec(walk))
    }

    /// Puts an unseen place at the end of the path.
    fn enter<R: Representation>(&mut self, graph: &Graph<R>, place: u32) -> Result<(), AllocError>
        requires search { IsSearch graph.now.places self.old }
        requires unseen { mark_at self.old.marks.items place ≡ Unseen }
        requires walk { IsWalk graph.now.places (self.old.path.items ++ place ∷ []) }
        ensures search { OnOk result (IsSearch graph.now.places self.new) }
        ensures seen { OnOk result (StaySeen self.old self.new) }
        ensures enters { OnOk result (mark_at self.new.marks.items place ≢ Unseen) }
        ensures fewer { OnOk result (sum_by changes_left self.new.marks.items < sum_by changes_left self.old.marks.items) }
    {
        // With its length a graph says that it is sound, as every graph is.
        let _ = graph.len();
        let position = self.path.len();
        self.path.push(place)?;
        self.marks[place as usize] = Mark::Open(position);
        Ok(())
    }

    /// Takes the last place off the path and puts it into the order.
    fn leave<R: Representation>(&mut self, graph: &Graph<R>, place: u32) -> Result<(), AllocError>
        requires search { IsSearch graph.now.places self.old }
        requires last { 0 < length self.old.path.items }
        requires place { slice_index self.old.path.items (length self.old.path.items - 1) ≡ place }
        requires feeds { All (λ feed. mark_at self.old.marks.items feed ≡ Done) (feeds_at graph.now.places place) }
        requires live { All (IsLive graph.now.places) (feeds_at graph.now.places place) }
        ensures search { OnOk result (IsSearch graph.now.places self.new) }
        ensures seen { OnOk result (StaySeen self.old self.new) }
        ensures fewer { OnOk result (sum_by changes_left self.new.marks.items < sum_by changes_left self.old.marks.items) }
    {
        // With its length a graph says that it is sound, as every graph is.
        let _ = graph.len();
        self.order.push(place)?;
        let _ = self.path.pop();
        self.marks[place as usize] = Mark::Done;
        Ok(())
    }

    /// Follows feeds from the end of the path until all on it are done.
    fn follow<R: Representation>(
        &mut self,
        alloc: Global,
        graph: &Graph<R>,
    ) -> Result<(), OrderFault>
        requires { IsSearch graph.now.places self.old }
        ensures search { OnOk result (IsSearch graph.now.places self.new) }
        ensures path { OnOk result (self.new.path.items ≡ []) }
        ensures seen { OnOk result (StaySeen self.old self.new) }
        ensures fault { IfErr result (IsOrderFault graph.now.places) }
    {
        while let Some(&place) = self.path.last() {
            match self.next_feed(graph, place) {
                None => self.leave(graph, place)?,
                Some(feed) => match mark_of(&self.marks, feed) {
                    Mark::Open(begin) => {
                        let walk = self.closed_walk(alloc, graph, begin, feed)?;
                        return Err(OrderFault::Cycle(walk));
                    }
                    _ => self.enter(graph, feed)?,
                },
            }
        }
        Ok(())
    }
}

/// An order of the live stages in which each comes after its feeds, or a closed walk.
pub(crate) fn feeds_first<R: Representation>(
    alloc: Global,
    graph: &Graph<R>,
) -> Result<Places, OrderFault>
    ensures order { IfOk result (IsFeedsFirst graph.now.places) }
    ensures ranked { OnOk result (IsRanked graph.now.places) }
    ensures fault { IfErr result (IsOrderFault graph.now.places) }
{
    let mut search = Search::new(alloc, graph)?;
    for place in 0..graph.len() {
        let place = place as u32;
        if let Mark::Unseen = mark_of(&search.marks, place) {
            search.enter(graph, place)?;
            search.follow(alloc, graph)?;
        }
    }
    Ok(Places::from_vec(search.order))
}

/// An order of the live stages of a ranked graph in which each comes after its feeds. It takes time and memory in
/// proportion to the places and their feeds.
pub fn ranked_order<R: Representation>(
    alloc: Global,
    graph: &Graph<R>,
) -> Result<Places, AllocError>
    requires { IsRanked graph.now.places }
    ensures { IfOk result (IsFeedsFirst graph.now.places) }
{
    match feeds_first(alloc, graph) {
        Ok(order) => Ok(order),
        Err(OrderFault::Cycle(_)) => unreachable!(),
        Err(OrderFault::Memory) => Err(AllocError),
    }
}
