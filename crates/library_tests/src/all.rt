//! The tests that are generic in how a graph is kept, in each representation.
use crate::{
    answers, commits, from_scratch, graphs, lists, orders, propagation, recordings, replies,
    reports, scripts, sessions, versions, words, workers,
};
use stage_graph::{InFlat, InShared};
use std::alloc::Global;
use std::process::Abort;
use std::test::Fail;
use std::thread::Threads;
use std::time::Clock;
use version_store::StateRepresentation;

/// What holds of lists, recordings and graphs.
fn of_graphs<R: StateRepresentation, H: Abort + Threads + Sync>(
    rt: &H,
    alloc: Global,
) -> Result<(), Fail> {
    lists::hold::<R::Ranks>(rt, alloc)?;
    recordings::hold::<R, H>(rt, alloc)?;
    answers::hold::<R, H>(rt, alloc)?;
    graphs::hold::<R, H>(rt, alloc)?;
    orders::hold::<R, H>(rt, alloc)?;
    propagation::hold::<R, H>(rt, alloc)?;
    words::hold::<R, H>(rt, alloc)
}

/// What holds of versions and reports.
fn of_versions<R: StateRepresentation, H: Abort + Threads + Clock + Sync>(
    rt: &H,
    alloc: Global,
) -> Result<(), Fail> {
    versions::hold::<R, H>(rt, alloc)?;
    replies::hold::<R, H>(rt, alloc)?;
    reports::hold::<R, H>(rt, alloc)?;
    workers::hold::<R, H>(rt, alloc)?;
    from_scratch::hold::<R, H>(rt, alloc)
}

/// What holds of sessions and scripts.
fn of_scripts<R: StateRepresentation, H: Abort + Threads + Sync>(
    rt: &H,
    alloc: Global,
) -> Result<(), Fail> {
    sessions::hold::<R, H>(rt, alloc)?;
    commits::hold::<R, H>(rt, alloc)?;
    scripts::hold::<R, H>(rt, alloc)
}

/// All of it, in the representation that the program takes and in the other one, of which but graphs only the examples tell.
fn in_both<F: StateRepresentation, R: StateRepresentation, H: Abort + Threads + Clock + Sync>(
    rt: &H,
    alloc: Global,
) -> Result<(), Fail> {
    of_graphs::<F, H>(rt, alloc)?;
    of_graphs::<R, H>(rt, alloc)?;
    lists::trees_and_runners_full::<R::Ranks>(rt, alloc)?;
    of_versions::<R, H>(rt, alloc)?;
    of_scripts::<R, H>(rt, alloc)
}

#[test]
fn in_each(rt: HostRuntime) -> Result<(), Fail> {
    in_both::<InFlat, InShared, _>(&rt, rt.alloc())
}
