//! Versions, and what is asked of them.
use crate::edits::edits_of;
use act_expr::{Outcome, Value};
use level_pool::Runner;
use recording::read_recording;
use share_tree::Held;
use stage_graph::{Edits, Fault};
use stage_ops::{Join, Meter};
use std::alloc::Global;
use std::process::Abort;
use std::test::Fail;
use test_kit::CHAIN;
use version_store::{Before, NoStage, StateRepresentation, Version};

/// The marker of the meters.
#[derive(Drop)]
struct Unread;

/// Version 0 of a recording.
pub(crate) fn opened<R: StateRepresentation>(
    alloc: Global,
    recording: &str,
) -> Result<Version<R>, Fail> {
    let graph = read_recording::<R>(alloc, recording.as_bytes())?;
    Ok(Version::load(alloc, graph)?)
}

/// The edits of a step.
pub(crate) fn held_edits(alloc: Global, step: &str) -> Result<Held<Edits>, Fail> {
    Ok(Held::new(alloc, edits_of(alloc, step)?)?)
}

/// The version 1 that edits make of a version.
pub(crate) fn edited<R: StateRepresentation, W: Runner>(
    alloc: Global,
    runner: &W,
    version: &Version<R>,
    edits: &Held<Edits>,
) -> Result<Version<R>, Fault> {
    let draft = version.draft(alloc, edits, runner, &mut Meter::new(Unread))?;
    Ok(draft.numbered(1)?)
}

/// The version 1 that a step makes of a recording.
pub(crate) fn made<R: StateRepresentation, W: Runner>(
    alloc: Global,
    runner: &W,
    recording: &str,
    step: &str,
) -> Result<Version<R>, Fail> {
    let edits = held_edits(alloc, step)?;
    let first: Version<R> = opened(alloc, recording)?;
    Ok(edited(alloc, runner, &first, &edits)?)
}

/// Whether each query of the stages of `CHAIN` has its answer.
fn has_answers<R: StateRepresentation>(version: &Version<R>) -> bool {
    let twenty = Value::Num(20);
    version.outcome(2) == Ok(Some(Outcome::Value(twenty)))
        && version.moment(2) == Ok(Some(2))
        && version.start(2) == Ok(Some(1))
        && version.join(2) == Ok(Join::Returns(twenty))
        && version.rank(2) == Ok(2)
        && version.dependents(1) == Ok([2].as_slice())
        && version.before(2) == Ok(Before::Absent)
}

/// Whether a version of `CHAIN` was not made by edits, and finds the stages that stand there alone.
fn is_first<R: StateRepresentation>(version: &Version<R>) -> bool {
    (version.number(), version.parent()) == (0, None)
        && version.touched().is_empty()
        && version.id_of("b") == Ok(2)
        && version.id_of("c") == Err(NoStage)
        && version.rank(3) == Err(NoStage)
}

/// What holds of a version that was loaded.
pub(crate) fn hold<R: StateRepresentation, H: Abort>(rt: &H, alloc: Global) -> Result<(), Fail> {
    let version: Version<R> = opened(alloc, CHAIN)?;
    assert!(rt; has_answers(&version));
    assert!(rt; is_first(&version));
    Ok(())
}
