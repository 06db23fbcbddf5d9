//! The ticks that are asked for of all work of a span, shared out to the stages that are that work.
ghost use Rattle.std.specs.Prelude.{◌≡◌};
ghost use Rattle.fleet_tries.specs.Pieces.{amount_of, comes_later, could_take, is_work_in, of_nothing, own_ticks, piece_amount, portion, takes_behind, ticks_before, time_of, work_ticks};

use change_words::Amount;
use propagate::StateRepresentation;
use span_groups::{Counted, counted_at};
use stage_graph::Stage;
use version_store::Version;

/// One of both times of an action.
#[derive(Clone, Copy, Debug, PartialEq, Eq)]
pub(crate) enum Time {
    /// How long it waits in a queue.
    Queued,
    /// How long it runs.
    Runs,
}

impl Time {
    /// That of a stage.
    fn of(self, stage: &Stage) -> u64
        ensures { result ≡ time_of self stage.now }
    {
        match self {
            Time::Queued => stage.queued,
            Time::Runs => stage.runs,
        }
    }
}

/// The work of a span of a trace.
#[derive(Clone, Copy)]
pub(crate) struct Work<'a> {
    /// What each stage of the trace counts to.
    pub(crate) stages: &'a [Option<Counted>],
    /// The span's number.
    pub(crate) span: usize,
    /// Which time is meant.
    pub(crate) time: Time,
}

/// Whether what a stage counts to is work of the span.
fn is_work_in(span: usize, counted: Option<Counted>) -> bool
    ensures { result ≡ is_work_in span counted }
{
    match counted {
        Some(counted) => counted.stage.span == span && counted.stage.is_work,
        None => false,
    }
}

/// The ticks that the stage at a place takes.
fn own_ticks<R: StateRepresentation>(version: &Version<R>, time: Time, place: u32) -> u64
    ensures { result ≡ own_ticks version.now.graph time place }
{
    match version.graph().stage(place) {
        Some(stage) => time.of(stage),
        None => 0,
    }
}

/// The same if it is work of the span, and else none.
fn work_ticks<R: StateRepresentation>(version: &Version<R>, work: Work<'_>, place: u32) -> u64
    ensures { result ≡ work_ticks version.now.graph work.entry.stages.now work.entry.time work.entry.span place }
{
    if is_work_in(work.span, counted_at(work.stages, place)) {
        own_ticks(version, work.time, place)
    } else {
        0
    }
}

/// The ticks of all work of the span before a place.
fn ticks_before<R: StateRepresentation>(version: &Version<R>, work: Work<'_>, place: u32) -> u64
    ensures { result ≡ ticks_before version.now.graph work.entry.stages.now work.entry.time work.entry.span place }
{
    let mut sum: u64 = 0;
    for other in 0..place {
        sum = sum.saturating_add(work_ticks(version, work, other));
    }
    sum
}

/// The share of some ticks that a part of a whole has, rounded down; none where the whole is nothing.
#[tactic(auto, using(crate::proofs::Portions::product_fits))]
fn portion(ticks: u64, part: u64, whole: u64) -> u64
    ensures { result ≡ portion ticks part whole }
{
    if whole == 0 {
        return 0;
    }
    let exact = u128::from(ticks) * u128::from(part) / u128::from(whole);
    match u64::try_from(exact) {
        Ok(share) => share,
        Err(_) => u64::MAX,
    }
}

/// What is assigned to a piece of work, before which there are so many ticks of the whole, and up to its end so many.
fn amount_of(amount: Amount, before: u64, upto: u64, whole: u64) -> Amount
    ensures { result ≡ amount_of amount before upto whole }
{
    match amount {
        Amount::Ticks(ticks) => {
            let earlier = portion(ticks, before, whole);
            Amount::Ticks(portion(ticks, upto, whole).saturating_sub(earlier))
        }
        Amount::Share(percent) => Amount::Share(percent),
    }
}

/// Whether the stage at a place is work of the span that could take time.
fn could_take<R: StateRepresentation>(version: &Version<R>, work: Work<'_>, place: u32) -> bool
    ensures { result ≡ could_take version.now.graph work.entry.stages.now work.entry.span place }
{
    let acts = match version.graph().stage(place) {
        Some(stage) => stage.action.is_some(),
        None => false,
    };
    acts && is_work_in(work.span, counted_at(work.stages, place))
}

/// Whether such a stage stands at the one place, and that is behind the other.
fn takes_behind<R: StateRepresentation>(
    version: &Version<R>,
    work: Work<'_>,
    place: u32,
    other: u32,
) -> bool
    ensures { result ≡ takes_behind version.now.graph work.entry.stages.now work.entry.span place other }
{
    place < other && could_take(version, work, other)
}

/// Whether such a stage stands behind a place.
fn comes_later<R: StateRepresentation>(version: &Version<R>, work: Work<'_>, place: u32) -> bool
    ensures { result ≡ comes_later version.now.graph work.entry.stages.now work.entry.span place }
{
    let mut found = false;
    for other in 0..version.graph().len() as u32 {
        if takes_behind(version, work, place, other) {
            found = true;
        }
    }
    found
}

/// What is assigned to the last work of a span, of which none takes time: ticks as they are, and no share.
fn of_nothing(amount: Amount) -> Option<Amount>
    ensures { result ≡ of_nothing amount }
{
    match amount {
        Amount::Ticks(ticks) => Some(Amount::Ticks(ticks)),
        Amount::Share(_) => None,
    }
}

/// What is assigned to the stage at a place where an amount is assigned to all work of its span: to a piece of work its share. Where
/// no piece takes time, ticks are assigned to the last one that could.
pub(crate) fn piece_amount<R: StateRepresentation>(
    version: &Version<R>,
    work: Work<'_>,
    place: u32,
    amount: Option<Amount>,
) -> Option<Amount>
    ensures { result ≡ piece_amount version.now.graph work.entry.stages.now work.entry.time work.entry.span place amount }
{
    let amount = amount?;
    let own = work_ticks(version, work, place);
    let whole = ticks_before(version, work, version.graph().len() as u32);
    if own > 0 {
        let before = ticks_before(version, work, place);
        Some(amount_of(amount, before, before.saturating_add(own), whole))
    } else if whole == 0 && could_take(version, work, place) && !comes_later(version, work, place) {
        of_nothing(amount)
    } else {
        None
    }
}
