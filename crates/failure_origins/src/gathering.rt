//! What became of each exception.
ghost use Rattle.std.specs.Prelude.{◌≡◌, ◌≤◌, length, map, filter, IfOk};
ghost use Rattle.std.specs.List.{range_with_len};
ghost use Rattle.failure_origins.specs.Failures.{failures};
ghost use Rattle.failure_origins.specs.Lists.{failure_by};
ghost use Rattle.failure_origins.specs.Origins.{comes_from};

use crate::failure::Failure;
use crate::lists::{handled_lists, reached_lists};
use crate::origins::{comes_from, origins_of};
use propagate::StateRepresentation;
use stage_graph::Places;
use std::alloc::{AllocError, Global};
use std::mem;
use version_store::Version;

/// The places of a list, which is left without any.
fn taken(alloc: Global, places: &mut Places) -> Places
    ensures { result ≡ places.old }
{
    mem::replace(places, Places::new(alloc))
}

/// Each origin with its lists.
fn with_lists(
    alloc: Global,
    origins: &[Option<u32>],
    mut reached: Vec<Places>,
    mut handled: Vec<Places>,
) -> Result<Vec<Failure>, AllocError>
    requires few { length origins.now ≤ 65536 }
    requires reached { length reached.items ≡ length origins.now }
    requires handled { length handled.items ≡ length origins.now }
    ensures { IfOk result (λ found. found.items
        ≡ map (failure_by reached.items handled.items) (filter (λ place. comes_from origins.now place place) (range_with_len 0 (length origins.now)))) }
{
    let mut found = Vec::new(alloc);
    for origin in 0..origins.len() as u32 {
        if comes_from(origins, origin, origin) {
            let reaches = taken(alloc, &mut reached[origin as usize]);
            let handled_by = taken(alloc, &mut handled[origin as usize]);
            found.push(Failure {
                origin,
                reaches,
                handled: handled_by,
            })?;
        }
    }
    Ok(found)
}

/// Each exception that arose in a stage of the version, in the order of the places where they arose: with the other stages
/// that hold it, and with those that have read it and do not hold it. It takes time in proportion to the stages, their feeds
/// and the answer.
pub fn failures_of<R: StateRepresentation>(
    alloc: Global,
    version: &Version<R>,
) -> Result<Vec<Failure>, AllocError>
    ensures { IfOk result (λ found. found.items ≡ failures version.now.graph) }
{
    // With its length a graph says that it is sound, and so how many places it has at most.
    let _ = version.graph().len();
    let origins = origins_of(alloc, version)?;
    let known = origins.as_slice();
    let reached = reached_lists(alloc, known)?;
    let handled = handled_lists(alloc, version, known)?;
    with_lists(alloc, known, reached, handled)
}
