//! What is known of the spans of a trace before their stages.
ghost use Rattle.std.specs.Prelude.{◌≡◌};
ghost use Rattle.trace_stages.specs.Known.{gave_up, had_at, has_ended, plain_hads, plain_known};
ghost use Rattle.trace_stages.specs.PlainJoins.{plain_joins};

use crate::fates::Fate;
use crate::places::interval_at;
use crate::walk::{Answer, Holding, OwnWork, StageId};
use std::collections::HashSet;
use trace_relations::{Interval, Moment, Relations};

/// What is known of the spans of a trace, by their places.
#[derive(Drop)]
pub(crate) struct Known<'a> {
    pub relations: &'a Relations,
    pub fates: Vec<Fate>,
    /// Those that have two stages.
    pub with_two: HashSet<usize>,
    /// What each span has.
    pub holdings: Vec<Holding>,
    /// The children of each span, in the order of starts.
    pub children: Vec<Vec<usize>>,
    /// When the first caller ended that gave up a call in which each span lies.
    pub bounds: Vec<Option<Moment>>,
    /// Whether a failure without a name hands on any other.
    pub hands_on: bool,
}

/// Whether the span at a place has ended.
pub(crate) fn has_ended(intervals: &[Interval], place: usize) -> bool
    ensures { result ≡ has_ended intervals.now place }
{
    interval_at(intervals, place).end.is_some()
}

/// Whether the span at a place has two stages.
pub(crate) fn has_two(known: &Known<'_>, place: usize) -> bool
    ensures { result ≡ (plain_known known.now).has_two place }
{
    known.with_two.contains(&place)
}

/// What the span at a place has at its end.
pub(crate) fn has_at(holdings: &[Holding], place: usize) -> StageId
    ensures { result ≡ (had_at (plain_hads holdings.now) place).has }
{
    match holdings.get(place) {
        Some(holding) => holding.has,
        None => StageId::Start(place),
    }
}

/// The joins of what the span at a place has.
pub(crate) fn joins_at(holdings: &[Holding], place: usize) -> &[Vec<StageId>]
    ensures { plain_joins result.now ≡ (had_at (plain_hads holdings.now) place).joins }
{
    match holdings.get(place) {
        Some(holding) => holding.joins.as_slice(),
        None => &[],
    }
}

/// The own work of the span at a place.
pub(crate) fn works_at(holdings: &[Holding], place: usize) -> &[OwnWork]
    ensures { result.now ≡ (had_at (plain_hads holdings.now) place).works }
{
    match holdings.get(place) {
        Some(holding) => holding.works.as_slice(),
        None => &[],
    }
}

/// What the span at a place would have had, if it gave calls up.
pub(crate) fn answer_at(holdings: &[Holding], place: usize) -> Option<Answer>
    ensures { result ≡ (had_at (plain_hads holdings.now) place).answer }
{
    match holdings.get(place) {
        Some(holding) => holding.answer,
        None => None,
    }
}

/// Whether the span at a place gave calls up.
pub(crate) fn gave_up(known: &Known<'_>, place: usize) -> bool
    ensures { result ≡ gave_up (plain_known known.now) place }
{
    answer_at(&known.holdings, place).is_some()
}
