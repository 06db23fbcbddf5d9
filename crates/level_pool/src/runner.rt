//! What a runner is, and the one law of all runners.
ghost use Rattle.std.specs.Prelude.{◌≡◌, IfOk, IfErr, All};
ghost use Rattle.level_pool.specs.declared.fault.PoolFault.TheVariants.{Memory};
ghost use Rattle.level_pool.specs.Runs.{IsPlainMap};

use crate::fault::PoolFault;
use crate::gate::Gate;
use crate::one_part::one_part;
use crate::pool::in_pool;
use crate::several_parts::several_parts;
use crate::workers::Workers;
use std::alloc::Global;
use std::thread::Threads;

/// How a runner computes the pieces of a level.
pub enum Plan<'a, R, G> {
    /// One after another, in the caller's thread.
    OneThread {
        gate: &'a G,
    },
    /// In one part for each worker, each part in a thread of its own.
    Scoped {
        rt: &'a R,
        workers: Workers,
        gate: &'a G,
    },
    /// In as many threads as `rayon` takes.
    Pooled {
        rt: &'a R,
    },
}

/// Computes the pieces of a level. A runner only chooses how ([`Runner::plan`]); the work is done by
/// [`Runner::run`], which is the same for all, so that no runner can give other results.
pub trait Runner {
    /// The runtime that threads are started with.
    type Handle: Threads + Sync;

    /// The gate that each worker passes before and after each of its pieces.
    type Gate: Gate + Sync;

    /// How the runner computes the pieces.
    fn plan(&self) -> Plan<'_, Self::Handle, Self::Gate>;

    /// The results of `f` at the pieces, in their order. Whatever the order and the threads of the
    /// calls, they are those of `map` over the list, and out of memory is the only error.
    final fn run<T: Send + Drop, F: Fn(u32) -> T + Sync>(
        &self,
        alloc: Global,
        pieces: &[u32],
        f: &F,
    ) -> Result<Vec<T>, PoolFault>
        requires { All (λ piece. F.pre f.now piece) pieces.now }
        ensures results { IfOk result (λ results. IsPlainMap (λ piece answer. F.post f.now piece answer) pieces.now results.items) }
        ensures fault { IfErr result (λ fault. fault ≡ Memory) }
    {
        match self.plan() {
            Plan::OneThread { gate } => Ok(one_part(alloc, gate, pieces, f)?),
            Plan::Scoped { rt, workers, gate } => Ok(several_parts(
                rt, alloc, workers, gate, pieces, f,
            )?),
            Plan::Pooled { rt } => Ok(in_pool(rt, alloc, pieces, f)?),
        }
    }
}
