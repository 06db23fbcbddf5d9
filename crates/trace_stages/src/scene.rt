//! All that is known of the spans of a trace and of the joins of their stages.
ghost use Rattle.std.specs.Prelude.{◌≡◌, ◌++◌, IfOk, map};
ghost use Rattle.trace_stages.specs.Known.{plain_known};
ghost use Rattle.trace_stages.specs.Outcomes.{failing, join_outcomes, plain_outcomes, plain_sight};
ghost use Rattle.trace_stages.specs.PlainJoins.{plain_joins};
ghost use Rattle.trace_stages.specs.Scene.{all_entry_outcomes, all_outcomes, entry_at, list_at, plain_scene, scene_of, handed_join, whole_sight};
ghost use Rattle.trace_stages.specs.Joins.{plain_joined};

use crate::beginnings::all_entries;
use crate::failures::own_sight;
use crate::handed_on::all_handed;
use crate::known::{Known, joins_at};
use crate::outcomes::{Failures, Outcome, Sight, join_outcome, join_outcomes};
use crate::walk::{Joined, StageId};
use std::alloc::{AllocError, Global};

/// What is known of the spans of a trace and of their joins, by the places of spans.
#[derive(Drop)]
pub(crate) struct Scene<'a> {
    pub known: Known<'a>,
    pub failures: Failures,
    /// The sources of the joins by which spans hand failures on.
    pub handed: Vec<Vec<StageId>>,
    /// How the joins of what each span has end.
    pub outcomes: Vec<Vec<Outcome>>,
    /// From what each span begins, and its joins.
    pub entries: Vec<Joined>,
    /// How those joins end.
    pub entry_outcomes: Vec<Vec<Outcome>>,
}

/// The sources of the join by which a span hands a failure on.
pub(crate) fn handed_at(handed: &[Vec<StageId>], place: usize) -> &[StageId]
    ensures { result.now ≡ list_at (plain_joins handed.now) place }
{
    match handed.get(place) {
        Some(sources) => sources.as_slice(),
        None => &[],
    }
}

/// The outcomes of the joins of a span.
pub(crate) fn outcomes_at(outcomes: &[Vec<Outcome>], place: usize) -> &[Outcome]
    ensures { result.now ≡ list_at (plain_outcomes outcomes.now) place }
{
    match outcomes.get(place) {
        Some(of_span) => of_span.as_slice(),
        None => &[],
    }
}

/// The joins at the start of a span.
pub(crate) fn entry_joins(entries: &[Joined], place: usize) -> &[Vec<StageId>]
    ensures { plain_joins result.now ≡ (entry_at (map plain_joined entries.now) place).joins }
{
    match entries.get(place) {
        Some(joined) => joined.joins.as_slice(),
        None => &[],
    }
}

/// From what a span begins.
pub(crate) fn entry_stage(entries: &[Joined], place: usize) -> Option<StageId>
    ensures { result ≡ (entry_at (map plain_joined entries.now) place).stage }
{
    match entries.get(place) {
        Some(joined) => joined.stage,
        None => None,
    }
}

/// How the joins of what a span has end, and the one by which it hands a failure on.
fn span_outcomes(
    alloc: Global,
    sight: Sight<'_, '_>,
    joins: &[Vec<StageId>],
    handed: &[StageId],
) -> Result<Vec<Outcome>, AllocError>
    ensures { IfOk result (λ outcomes. outcomes.items ≡ join_outcomes (plain_sight sight.entry) (plain_joins joins.now ++ handed_join handed.now)) }
{
    let mut outcomes = join_outcomes(alloc, sight, joins)?;
    if handed.is_empty() {
        return Ok(outcomes);
    }
    let outcome = join_outcome(sight, &outcomes, handed);
    outcomes.push(outcome)?;
    Ok(outcomes)
}

/// How the joins of what each span has end.
fn all_outcomes(
    alloc: Global,
    known: &Known<'_>,
    failures: &Failures,
    handed: &[Vec<StageId>],
) -> Result<Vec<Vec<Outcome>>, AllocError>
    ensures { IfOk result (λ all. plain_outcomes all.items ≡ all_outcomes (plain_known known.now) (failing failures.now) (plain_joins handed.now)) }
{
    let sight = own_sight(known, failures);
    let mut all = Vec::with_capacity(alloc, known.relations.intervals.len())?;
    for place in 0..known.relations.intervals.len() {
        let joins = joins_at(&known.holdings, place);
        all.push(span_outcomes(alloc, sight, joins, handed_at(handed, place))?)?;
    }
    Ok(all)
}

/// How the joins at the starts of spans end.
fn all_entry_outcomes(
    alloc: Global,
    sight: Sight<'_, '_>,
    entries: &[Joined],
) -> Result<Vec<Vec<Outcome>>, AllocError>
    ensures { IfOk result (λ all. plain_outcomes all.items ≡ all_entry_outcomes (plain_sight sight.entry) (map plain_joined entries.now)) }
{
    let mut all = Vec::with_capacity(alloc, entries.len())?;
    for joined in entries {
        all.push(join_outcomes(alloc, sight, &joined.joins)?)?;
    }
    Ok(all)
}

/// What is known of stages when the outcomes of joins are.
pub(crate) fn whole_sight<'a, 'k>(
    known: &'a Known<'k>,
    failures: &'a Failures,
    joins: &'a [Vec<Outcome>],
) -> Sight<'a, 'k>
    ensures { plain_sight result ≡ whole_sight (plain_known known.now) (failing failures.now) (plain_outcomes joins.now) }
{
    Sight {
        known,
        failures,
        joins,
    }
}

/// All that is known of spans that fail so.
pub(crate) fn scene_of<'a>(
    alloc: Global,
    known: Known<'a>,
    failures: Failures,
) -> Result<Scene<'a>, AllocError>
    ensures { IfOk result (λ scene. plain_scene scene ≡ scene_of (plain_known known.entry) (failing failures)) }
{
    let handed = all_handed(alloc, &known, &failures)?;
    let outcomes = all_outcomes(alloc, &known, &failures, &handed)?;
    let entries = all_entries(alloc, &known)?;
    let sight = whole_sight(&known, &failures, &outcomes);
    let entry_outcomes = all_entry_outcomes(alloc, sight, &entries)?;
    Ok(Scene {
        known,
        failures,
        handed,
        outcomes,
        entries,
        entry_outcomes,
    })
}
