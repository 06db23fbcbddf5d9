//! The pieces in as many parts as there are workers, each computed in a thread of its own.
ghost use Rattle.std.specs.Prelude.{IfOk, All};
ghost use Rattle.level_pool.specs.Runs.{IsPlainMap};

use crate::gate::Gate;
use crate::one_part::one_part;
use crate::workers::Workers;
use std::alloc::{AllocError, Global};
use std::thread;
use std::thread::Threads;

/// The results of `f` at the pieces. If no further thread can be started, the parts are computed one
/// after another in the caller's thread.
pub(crate) fn several_parts<
    R: Threads + Sync,
    T: Send + Drop,
    G: Gate + Sync,
    F: Fn(u32) -> T + Sync,
>(
    rt: &R,
    alloc: Global,
    workers: Workers,
    gate: &G,
    pieces: &[u32],
    f: &F,
) -> Result<Vec<T>, AllocError>
    requires { All (λ piece. F.pre f.now piece) pieces.now }
    ensures { IfOk result (λ results. IsPlainMap (λ piece answer. F.post f.now piece answer) pieces.now results.items) }
{
    let size = pieces.len().div_ceil(workers.count()).max(1);
    let parts = thread::map_chunks(
        rt,
        alloc,
        pieces,
        size,
        &|_, part: &[u32]| -> Result<Vec<T>, AllocError>
            requires { All (λ piece. F.pre f.now piece) part.now }
            ensures { IfOk result (λ results. IsPlainMap (λ piece answer. F.post f.entry.now piece answer) part.now results.items) }
        { one_part(alloc, gate, part, f) },
    )?;
    let mut results = Vec::with_capacity(alloc, pieces.len())?;
    for part in parts {
        let mut part = part?;
        results.append(&mut part)?;
    }
    Ok(results)
}
