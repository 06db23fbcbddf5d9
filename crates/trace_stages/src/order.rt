//! The order of stages: a span's first stage, its children, its last stages; a join, and own work, before the first stage
//! that needs it.
ghost use Rattle.std.specs.Prelude.{◌≡◌, ◌++◌, List, [], ◌∷◌, IfOk, OnOk, reverse};
ghost use Rattle.trace_stages.specs.Order.{IsOfSpan, Puts, answer_source, entry_sources, first_source, join_sources, most_needed, needed, needs, ordered, put_end, put_last, put_stage, source_of, tried_before, visited, work_source};
ghost use Rattle.trace_stages.specs.Scene.{plain_scene};
ghost use Rattle.trace_stages.specs.declared.walk.stage_id.StageId.{StageId};
ghost use Rattle.trace_stages.specs.declared.walk.stage_id.StageId.TheVariants.{Answer, Limit, Whole};

use crate::attempts::{attempt_after, attempt_before};
use crate::known::{answer_at, gave_up, has_two, joins_at, works_at};
use crate::scene::{Scene, entry_joins, entry_stage, handed_at};
use crate::tour::Visit;
use crate::walk::StageId;
use crate::works::whole_source;
use std::alloc::{AllocError, Global};
use std::collections::HashSet;

/// No recording has so many stages.
const MOST_NEEDED: usize = 65_536;

/// Which joins are put, and which own work, by the span and the number.
#[derive(Drop)]
pub(crate) struct Put {
    joins: HashSet<(usize, usize)>,
    entries: HashSet<(usize, usize)>,
    works: HashSet<(usize, usize)>,
}

/// Nothing is put.
fn none_put(alloc: Global) -> Put
    ensures { Puts result [] }
{
    Put {
        joins: HashSet::new(alloc),
        entries: HashSet::new(alloc),
        works: HashSet::new(alloc),
    }
}

/// Whether a stage is a join or own work that isn't put yet.
fn needs(put: &Put, id: StageId) -> bool
    ensures { (order : List StageId) → Puts put.now order → result ≡ needs order id }
{
    match id {
        StageId::Join(span, number) => !put.joins.contains(&(span, number)),
        StageId::Entry(span, number) => !put.entries.contains(&(span, number)),
        StageId::Work(span, number) => !put.works.contains(&(span, number)),
        _ => false,
    }
}

/// Notes that a stage is put.
fn note(put: &mut Put, id: StageId) -> Result<(), AllocError>
    ensures { (order : List StageId) → Puts put.old order → OnOk result (Puts put.new (order ++ id ∷ [])) }
{
    match id {
        StageId::Join(span, number) => {
            put.joins.insert((span, number))?;
        }
        StageId::Entry(span, number) => {
            put.entries.insert((span, number))?;
        }
        StageId::Work(span, number) => {
            put.works.insert((span, number))?;
        }
        _ => (),
    }
    Ok(())
}

/// The sources of a join of what a span has.
pub(crate) fn join_sources<'a>(scene: &'a Scene<'_>, span: usize, number: usize) -> &'a [StageId]
    ensures { result.now ≡ join_sources (plain_scene scene.now) span number }
{
    match joins_at(&scene.known.holdings, span).get(number) {
        Some(sources) => sources.as_slice(),
        None => handed_at(&scene.handed, span),
    }
}

/// The sources of a join at the start of a span.
pub(crate) fn entry_sources<'a>(scene: &'a Scene<'_>, span: usize, number: usize) -> &'a [StageId]
    ensures { result.now ≡ entry_sources (plain_scene scene.now) span number }
{
    match entry_joins(&scene.entries, span).get(number) {
        Some(sources) => sources.as_slice(),
        None => &[],
    }
}

/// What own work of a span comes after.
fn work_source(scene: &Scene<'_>, span: usize, number: usize) -> Option<StageId>
    ensures { result ≡ work_source (plain_scene scene.now) span number }
{
    match works_at(&scene.known.holdings, span).get(number) {
        Some(work) => Some(work.after),
        None => None,
    }
}

/// The first source of a join, or that of own work.
fn first_source(scene: &Scene<'_>, id: StageId) -> Option<StageId>
    ensures { result ≡ first_source (plain_scene scene.now) id }
{
    match id {
        StageId::Join(span, number) => join_sources(scene, span, number).first().copied(),
        StageId::Entry(span, number) => entry_sources(scene, span, number).first().copied(),
        StageId::Work(span, number) => work_source(scene, span, number),
        _ => None,
    }
}

/// The joins and the own work that have to come before a stage, from the last to the first; they are noted.
fn needed_before(
    alloc: Global,
    scene: &Scene<'_>,
    put: &mut Put,
    source: Option<StageId>,
) -> Result<Vec<StageId>, AllocError>
    ensures joins { (order : List StageId) → Puts put.old order → IfOk result (λ joins. joins.items ≡ needed (plain_scene scene.now) order most_needed source) }
    ensures noted { (order : List StageId) → Puts put.old order → IfOk result (λ joins. Puts put.new (order ++ joins.items)) }
{
    let mut joins = Vec::new(alloc);
    let mut next = source;
    for _passed in 0..MOST_NEEDED {
        let Some(id) = next else {
            return Ok(joins);
        };
        if !needs(put, id) {
            return Ok(joins);
        }
        note(put, id)?;
        joins.push(id)?;
        next = first_source(scene, id);
    }
    Ok(joins)
}

/// Puts a stage after what was needed, from the last to the first.
fn put_after(ids: &mut Vec<StageId>, joins: &[StageId], id: StageId) -> Result<(), AllocError>
    ensures { OnOk result (ids.new.items ≡ ids.old.items ++ (reverse joins.now ++ id ∷ [])) }
{
    for passed in 0..joins.len() {
        ids.push(joins[joins.len() - 1 - passed])?;
    }
    ids.push(id)?;
    Ok(())
}

/// What a span would have had, if it gave calls up.
fn answer_source(scene: &Scene<'_>, place: usize) -> Option<StageId>
    ensures { result ≡ answer_source (plain_scene scene.now) place }
{
    match answer_at(&scene.known.holdings, place) {
        Some(answer) => Some(answer.stage),
        None => None,
    }
}

/// The source of a stage of a span.
#[tactic(auto, using(crate::proofs::Sources::start_source))]
fn source_of(scene: &Scene<'_>, id: StageId) -> Option<StageId>
    ensures { result ≡ source_of (plain_scene scene.now) id }
{
    match id {
        StageId::Start(place) => entry_stage(&scene.entries, place),
        StageId::Whole(place) => whole_source(scene, place),
        StageId::Answer(place) => answer_source(scene, place),
        _ => None,
    }
}

/// Puts a stage after what it needs.
fn put_stage(
    alloc: Global,
    scene: &Scene<'_>,
    ids: &mut Vec<StageId>,
    put: &mut Put,
    id: StageId,
) -> Result<(), AllocError>
    requires { IsOfSpan id }
    ensures ids { Puts put.old ids.old.items → OnOk result (ids.new.items ≡ put_stage (plain_scene scene.now) ids.old.items id) }
    ensures noted { Puts put.old ids.old.items → OnOk result (Puts put.new ids.new.items) }
{
    let joins = needed_before(alloc, scene, put, source_of(scene, id))?;
    put_after(ids, &joins, id)?;
    Ok(())
}

/// Puts what calls came to that were tried again, of which a span was the last attempt: from the last that was to the
/// first.
fn put_tried(scene: &Scene<'_>, ids: &mut Vec<StageId>, place: usize) -> Result<(), AllocError>
    ensures { OnOk result (ids.new.items ≡ ids.old.items ++ tried_before (plain_scene scene.now) place) }
{
    if attempt_after(&scene.known.relations.attempts, place).is_some() {
        return Ok(());
    }
    let mut at = place;
    for _passed in 0..MOST_NEEDED {
        let Some(previous) = attempt_before(&scene.known.relations.attempts, at) else {
            return Ok(());
        };
        ids.push(StageId::Tried(previous))?;
        at = previous;
    }
    Ok(())
}

/// Puts the end that a span which gave calls up would have had with their answers, then its limit, and its end.
fn put_given_up(
    alloc: Global,
    scene: &Scene<'_>,
    ids: &mut Vec<StageId>,
    put: &mut Put,
    place: usize,
) -> Result<(), AllocError>
    ensures ids { Puts put.old ids.old.items → OnOk result (ids.new.items ≡ put_stage (plain_scene scene.now) ids.old.items (Answer place) ++ (Limit place ∷ Whole place ∷ [])) }
    ensures noted { Puts put.old ids.old.items → OnOk result (Puts put.new ids.new.items) }
{
    put_stage(alloc, scene, ids, put, StageId::Answer(place))?;
    ids.push(StageId::Limit(place))?;
    ids.push(StageId::Whole(place))?;
    Ok(())
}

/// Puts the end of a span.
fn put_end(
    alloc: Global,
    scene: &Scene<'_>,
    ids: &mut Vec<StageId>,
    put: &mut Put,
    place: usize,
) -> Result<(), AllocError>
    ensures ids { Puts put.old ids.old.items → OnOk result (ids.new.items ≡ put_end (plain_scene scene.now) ids.old.items place) }
    ensures noted { Puts put.old ids.old.items → OnOk result (Puts put.new ids.new.items) }
{
    if gave_up(&scene.known, place) {
        put_given_up(alloc, scene, ids, put, place)?;
        return Ok(());
    }
    put_stage(alloc, scene, ids, put, StageId::Whole(place))?;
    Ok(())
}

/// Puts the last stages of a span, and what calls came to whose last attempt it was.
fn put_last(
    alloc: Global,
    scene: &Scene<'_>,
    ids: &mut Vec<StageId>,
    put: &mut Put,
    place: usize,
) -> Result<(), AllocError>
    ensures ids { Puts put.old ids.old.items → OnOk result (ids.new.items ≡ put_last (plain_scene scene.now) ids.old.items place) }
    ensures noted { Puts put.old ids.old.items → OnOk result (Puts put.new ids.new.items) }
{
    put_end(alloc, scene, ids, put, place)?;
    put_tried(scene, ids, place)?;
    Ok(())
}

/// Puts what a visit of a span has.
fn visit(
    alloc: Global,
    scene: &Scene<'_>,
    ids: &mut Vec<StageId>,
    put: &mut Put,
    visit: Visit,
) -> Result<(), AllocError>
    ensures ids { Puts put.old ids.old.items → OnOk result (ids.new.items ≡ visited (plain_scene scene.now) ids.old.items visit) }
    ensures noted { Puts put.old ids.old.items → OnOk result (Puts put.new ids.new.items) }
{
    match visit {
        Visit::Enters(place) => {
            if has_two(&scene.known, place) {
                put_stage(alloc, scene, ids, put, StageId::Start(place))?;
            }
            Ok(())
        }
        Visit::Leaves(place) => put_last(alloc, scene, ids, put, place),
    }
}

/// All stages, in order.
pub(crate) fn ordered(
    alloc: Global,
    scene: &Scene<'_>,
    visits: &[Visit],
) -> Result<Vec<StageId>, AllocError>
    ensures { IfOk result (λ ids. ids.items ≡ ordered (plain_scene scene.now) visits.now) }
{
    let mut ids = Vec::with_capacity(alloc, visits.len() / 2)?;
    let mut put = none_put(alloc);
    for of_span in visits {
        visit(alloc, scene, &mut ids, &mut put, *of_span)?;
    }
    Ok(ids)
}
