//! A part of the pieces, computed in one thread.
ghost use Rattle.std.specs.Prelude.{IfOk, All};
ghost use Rattle.level_pool.specs.Runs.{IsPlainMap};

use crate::gate::Gate;
use std::alloc::{AllocError, Global};

/// The results of `f` at the pieces, one after another.
#[inline(always)]
pub(crate) fn one_part<T: Drop, G: Gate, F: Fn(u32) -> T>(
    alloc: Global,
    gate: &G,
    pieces: &[u32],
    f: &F,
) -> Result<Vec<T>, AllocError>
    requires { All (λ piece. F.pre f.now piece) pieces.now }
    ensures { IfOk result (λ results. IsPlainMap (λ piece answer. F.post f.now piece answer) pieces.now results.items) }
{
    let mut results = Vec::with_capacity(alloc, pieces.len())?;
    for piece in pieces {
        gate.enter(*piece);
        results.push(f(*piece))?;
        gate.leave(*piece);
    }
    Ok(results)
}
