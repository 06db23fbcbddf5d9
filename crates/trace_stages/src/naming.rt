//! Stages of recordings, with their names.
ghost use Rattle.std.specs.Prelude.{◌≡◌, IfOk, map};
ghost use Rattle.trace_stages.specs.Naming.{imported, imported_end, imported_join, imported_tried, imported_work, name_of, next_attempt, plain_stage, plain_stages};
ghost use Rattle.trace_stages.specs.Known.{plain_known};
ghost use Rattle.trace_stages.specs.Scene.{plain_scene};

use crate::attempts::attempt_after;
use crate::known::{Known, gave_up};
use crate::order::{entry_sources, join_sources};
use crate::scene::{Scene, entry_joins};
use crate::stage::{Action, ImportedStage, Op, StageName};
use crate::walk::{StageId, call_end};
use crate::works::{Work, answer_work, begin_work, limit_work, own_work, whole_work};
use std::alloc::{AllocError, Global};

/// The name of a stage: the joins of a span are those at its start, and then those of what it has.
fn name_of(scene: &Scene<'_>, id: StageId) -> StageName
    ensures { result ≡ name_of (plain_scene scene.now) id }
{
    match id {
        StageId::Start(place) => StageName::Start(place),
        StageId::Whole(place) => StageName::Whole(place),
        StageId::Tried(place) => StageName::Tried(place),
        StageId::Limit(place) => StageName::Limit(place),
        StageId::Answer(place) => StageName::Answer(place),
        StageId::Work(span, number) => StageName::Work(span, number.saturating_add(1)),
        StageId::Entry(span, number) => StageName::Join(span, number.saturating_add(1)),
        StageId::Join(span, number) => {
            let entries = entry_joins(&scene.entries, span).len();
            StageName::Join(span, number.saturating_add(entries).saturating_add(1))
        }
    }
}

/// The names of stages.
fn names_of(alloc: Global, scene: &Scene<'_>, ids: &[StageId]) -> Result<Vec<StageName>, AllocError>
    ensures { IfOk result (λ names. names.items ≡ map (name_of (plain_scene scene.now)) ids.now) }
{
    let mut names = Vec::with_capacity(alloc, ids.len())?;
    for id in ids {
        names.push(name_of(scene, *id))?;
    }
    Ok(names)
}

/// A stage of several sources.
fn imported_join(
    alloc: Global,
    scene: &Scene<'_>,
    id: StageId,
    op: Op,
    sources: &[StageId],
) -> Result<ImportedStage, AllocError>
    ensures { IfOk result (λ stage. plain_stage stage ≡ imported_join (plain_scene scene.now) id op sources.now) }
{
    Ok(ImportedStage {
        name: name_of(scene, id),
        op,
        created: 0,
        sources: names_of(alloc, scene, sources)?,
        inner: None,
        queued: 0,
        runs: 0,
        action: None,
    })
}

/// A stage of one source at most.
fn imported_work(
    alloc: Global,
    scene: &Scene<'_>,
    id: StageId,
    work: Work,
) -> Result<ImportedStage, AllocError>
    ensures { IfOk result (λ stage. plain_stage stage ≡ imported_work (plain_scene scene.now) id work) }
{
    let mut sources = Vec::with_capacity(alloc, usize::from(work.source.is_some()))?;
    if let Some(source) = work.source {
        sources.push(name_of(scene, source))?;
    }
    Ok(ImportedStage {
        name: name_of(scene, id),
        op: work.op,
        created: work.created,
        sources,
        inner: None,
        queued: work.queued,
        runs: work.runs,
        action: work.action,
    })
}

/// The stage that ends when a span did: of one that gave calls up the first of its limit and of its end with the answer.
fn imported_end(alloc: Global, scene: &Scene<'_>, place: usize) -> Result<ImportedStage, AllocError>
    ensures { IfOk result (λ stage. plain_stage stage ≡ imported_end (plain_scene scene.now) place) }
{
    let id = StageId::Whole(place);
    if gave_up(&scene.known, place) {
        let sources = [StageId::Limit(place), StageId::Answer(place)];
        return imported_join(alloc, scene, id, Op::AnyOf, &sources);
    }
    imported_work(alloc, scene, id, whole_work(scene, place))
}

/// The stage that goes on where an attempt failed: what the call came to with the next.
fn next_attempt(known: &Known<'_>, place: usize) -> StageId
    ensures { result ≡ next_attempt (plain_known known.now) place }
{
    match attempt_after(&known.relations.attempts, place) {
        Some(next) => call_end(&known.relations.attempts, next),
        None => StageId::Whole(place),
    }
}

/// What a call came to that was tried again: its first attempt, or where that failed what it came to with the next.
fn imported_tried(
    alloc: Global,
    scene: &Scene<'_>,
    place: usize,
) -> Result<ImportedStage, AllocError>
    ensures { IfOk result (λ stage. plain_stage stage ≡ imported_tried (plain_scene scene.now) place) }
{
    Ok(ImportedStage {
        name: StageName::Tried(place),
        op: Op::ExceptionallyCompose,
        created: 0,
        sources: names_of(alloc, scene, &[StageId::Whole(place)])?,
        inner: Some(name_of(scene, next_attempt(&scene.known, place))),
        queued: 0,
        runs: 0,
        action: Some(Action::PicksFirst),
    })
}

/// A stage.
fn imported(alloc: Global, scene: &Scene<'_>, id: StageId) -> Result<ImportedStage, AllocError>
    ensures { IfOk result (λ stage. plain_stage stage ≡ imported (plain_scene scene.now) id) }
{
    match id {
        StageId::Start(place) => {
            imported_work(alloc, scene, id, begin_work(scene, place, 0, Action::Null))
        }
        StageId::Whole(place) => imported_end(alloc, scene, place),
        StageId::Work(span, number) => {
            imported_work(alloc, scene, id, own_work(scene, span, number))
        }
        StageId::Tried(place) => imported_tried(alloc, scene, place),
        StageId::Limit(place) => imported_work(alloc, scene, id, limit_work(scene, place)),
        StageId::Answer(place) => imported_work(alloc, scene, id, answer_work(scene, place)),
        StageId::Entry(span, number) => {
            imported_join(
                alloc,
                scene,
                id,
                Op::AllOf,
                entry_sources(scene, span, number),
            )
        }
        StageId::Join(span, number) => {
            imported_join(
                alloc,
                scene,
                id,
                Op::AllOf,
                join_sources(scene, span, number),
            )
        }
    }
}

/// Stages, in their order.
pub(crate) fn all_imported(
    alloc: Global,
    scene: &Scene<'_>,
    ids: &[StageId],
) -> Result<Vec<ImportedStage>, AllocError>
    ensures { IfOk result (λ stages. plain_stages stages.items ≡ map (imported (plain_scene scene.now)) ids.now) }
{
    let mut stages = Vec::with_capacity(alloc, ids.len())?;
    for id in ids {
        let stage = imported(alloc, scene, *id)?;
        stages.push(stage)?;
    }
    Ok(stages)
}
