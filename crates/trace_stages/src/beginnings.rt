//! From what each span begins.
ghost use Rattle.std.specs.Prelude.{◌≡◌, ◌++◌, ℕ, IfOk, OnOk, cond, filter, map, nat_eq, Some, None};
ghost use Rattle.std.specs.HashMap.{get_by};
ghost use Rattle.std.specs.Option.{option_or};
ghost use Rattle.trace_stages.specs.Beginnings.{all_begins, all_entries, begun_from, entry, from_host, host_at, is_begun, is_linked, joined_with_links, links_at, option_list};
ghost use Rattle.trace_stages.specs.Known.{plain_hads, plain_known};
ghost use Rattle.trace_stages.specs.Joins.{plain_joined};
ghost use Rattle.trace_stages.specs.declared.walk.stage_id.StageId.TheVariants.{Whole};

use crate::attempts::attempt_before;
use crate::bounds::{bound_at, is_bounded};
use crate::handed_on::is_end_of;
use crate::known::{Known, has_ended, has_two};
use crate::places::interval_at;
use crate::walk::{Begin, Holding, Joined, JoinsOf, StageId, join_all};
use std::alloc::{AllocError, Global};
use std::collections::HashMap;
use trace_relations::{Host, Interval, Moment, References};

/// From what each span begins that started in another.
type Begun = HashMap<usize, StageId>;

/// Notes from what a span begins, unless that is known.
fn note(begun: &mut Begun, begin: Begin) -> Result<(), AllocError>
    ensures { OnOk result ((place : ℕ) → get_by (nat_eq place) begun.new ≡ option_or (get_by (nat_eq place) begun.old) (cond (nat_eq begin.span place) (Some begin.from) None)) }
{
    if begun.contains_key(&begin.span) {
        return Ok(());
    }
    begun.insert(begin.span, begin.from)?;
    Ok(())
}

/// Notes from what each span begins that started in one.
fn note_all(begun: &mut Begun, begins: &[Begin]) -> Result<(), AllocError>
    ensures { OnOk result ((place : ℕ) → get_by (nat_eq place) begun.new ≡ option_or (get_by (nat_eq place) begun.old) (begun_from begins.now place)) }
{
    for begin in begins {
        note(begun, *begin)?;
    }
    Ok(())
}

/// From what each span begins that started in another.
fn all_begun(alloc: Global, holdings: &[Holding]) -> Result<Begun, AllocError>
    ensures { IfOk result (λ begun. (place : ℕ) → get_by (nat_eq place) begun ≡ begun_from (all_begins (plain_hads holdings.now)) place) }
{
    let mut begun = HashMap::new(alloc);
    for holding in holdings {
        note_all(&mut begun, &holding.begins)?;
    }
    Ok(begun)
}

/// Where the span at a place starts.
fn host_at(hosts: &[Host], place: usize) -> Host
    ensures { result ≡ host_at hosts.now place }
{
    match hosts.get(place) {
        Some(host) => *host,
        None => Host::Nowhere,
    }
}

/// What a span begins from, but for its links: a later attempt from the end of the one before.
fn from_host(known: &Known<'_>, begun: &Begun, place: usize) -> Option<StageId>
    ensures { result ≡ from_host (plain_known known.now) (λ other. get_by (nat_eq other) begun.now) place }
{
    if let Some(previous) = attempt_before(&known.relations.attempts, place) {
        return Some(StageId::Whole(previous));
    }
    match host_at(&known.relations.hosts, place) {
        Host::Nowhere => None,
        Host::After(host) => Some(StageId::Whole(host)),
        Host::Inside(_) => begun.get(&place).copied(),
    }
}

/// The links of the span at a place.
fn links_at(references: &[References], place: usize) -> &[usize]
    ensures { result.now ≡ links_at references.now place }
{
    let Some(of_span) = references.get(place) else {
        return &[];
    };
    match of_span.meant() {
        [_, links @ ..] => links,
        [] => &[],
    }
}

/// Whether a span begins from the end of a link: it ended before, and before a bound, and the span begins from it no other
/// way.
fn is_linked(
    intervals: &[Interval],
    bound: Option<Moment>,
    place: usize,
    from: Option<StageId>,
    link: usize,
) -> bool
    ensures { result ≡ is_linked intervals.now bound place from link }
{
    let start = interval_at(intervals, place).start_moment();
    let is_known = match from {
        Some(id) => is_end_of(link, id),
        None => false,
    };
    let ended = interval_at(intervals, link);
    ended.ended_before(start) && is_bounded(ended, bound) && !is_known
}

/// What a span begins from, and the ends of its links that ended before it.
fn with_links(
    alloc: Global,
    intervals: &[Interval],
    bound: Option<Moment>,
    place: usize,
    from: Option<StageId>,
    links: &[usize],
) -> Result<Vec<StageId>, AllocError>
    ensures { IfOk result (λ sources. sources.items ≡ option_list from ++ map Whole (filter (is_linked intervals.now bound place from) links.now)) }
{
    let mut sources = Vec::new(alloc);
    if let Some(id) = from {
        sources.push(id)?;
    }
    for link in links {
        if is_linked(intervals, bound, place, from, *link) {
            sources.push(StageId::Whole(*link))?;
        }
    }
    Ok(sources)
}

/// One stage for what a span begins from and for its links; for most spans, which have none, nothing is gathered.
#[tactic(auto, using(crate::proofs::Beginning::joined_without_links))]
fn joined_with_links(
    alloc: Global,
    intervals: &[Interval],
    bound: Option<Moment>,
    place: usize,
    from: Option<StageId>,
    links: &[usize],
) -> Result<Joined, AllocError>
    ensures { IfOk result (λ joined. plain_joined joined ≡ joined_with_links intervals.now bound place from links.now) }
{
    if links.is_empty() {
        return Ok(Joined {
            joins: Vec::new(alloc),
            stage: from,
        });
    }
    let sources = with_links(alloc, intervals, bound, place, from, links)?;
    join_all(alloc, JoinsOf::Entry(place), Vec::new(alloc), &sources)
}

/// Whether a span has a stage that begins.
fn is_begun(known: &Known<'_>, place: usize) -> bool
    ensures { result ≡ is_begun (plain_known known.now) place }
{
    has_two(known, place) || has_ended(&known.relations.intervals, place)
}

/// One stage for all that a span begins from, and its joins.
fn entry(
    alloc: Global,
    known: &Known<'_>,
    begun: &Begun,
    place: usize,
) -> Result<Joined, AllocError>
    ensures { IfOk result (λ joined. plain_joined joined ≡ entry (plain_known known.now) (λ other. get_by (nat_eq other) begun.now) place) }
{
    if !is_begun(known, place) {
        return Ok(Joined {
            joins: Vec::new(alloc),
            stage: None,
        });
    }
    let from = from_host(known, begun, place);
    let links = links_at(&known.relations.references, place);
    let bound = bound_at(&known.bounds, place);
    joined_with_links(alloc, &known.relations.intervals, bound, place, from, links)
}

/// From what each span begins, and its joins.
pub(crate) fn all_entries(alloc: Global, known: &Known<'_>) -> Result<Vec<Joined>, AllocError>
    ensures { IfOk result (λ entries. map plain_joined entries.items ≡ all_entries (plain_known known.now)) }
{
    let begun = all_begun(alloc, &known.holdings)?;
    let mut entries = Vec::with_capacity(alloc, known.relations.intervals.len())?;
    for place in 0..known.relations.intervals.len() {
        let joined = entry(alloc, known, &begun, place)?;
        entries.push(joined)?;
    }
    Ok(entries)
}
