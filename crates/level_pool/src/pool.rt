//! The pieces in the threads of `rayon`.
ghost use Rattle.std.specs.Prelude.{IfOk, All};
ghost use Rattle.level_pool.specs.Runs.{IsPlainMap};

use rayon::prelude::*;
use std::alloc::{AllocError, Global};
use std::thread::Threads;

/// The fewest pieces that are worth a thread of their own. Without it `rayon` would not split a level of
/// fewer than some thousand pieces.
const LEAST_PART: usize = 64;

/// The results of `f` at the pieces, in as many threads as `rayon` takes.
pub(crate) fn in_pool<R: Threads + Sync, T: Send + Drop, F: Fn(u32) -> T + Sync>(
    rt: &R,
    alloc: Global,
    pieces: &[u32],
    f: &F,
) -> Result<Vec<T>, AllocError>
    requires { All (λ piece. F.pre f.now piece) pieces.now }
    ensures { IfOk result (λ results. IsPlainMap (λ piece answer. F.post f.now piece answer) pieces.now results.items) }
{
    pieces
        .par_iter()
        .with_min_len(LEAST_PART)
        .map(
            |piece: &u32| -> T
                requires { F.pre f.now piece.now }
                ensures { F.post f.entry.now piece.now result }
            { f(*piece) },
        )
        .collect(rt, alloc)
}
