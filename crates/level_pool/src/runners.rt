//! The runners: in the caller's thread, in a fixed number of threads, and in the threads of `rayon`.
ghost use Rattle.std.specs.Prelude.{◌≤◌, ◌<◌};

use crate::gate::{Gate, NoGate};
use crate::runner::{Plan, Runner};
use crate::workers::Workers;
use std::marker::PhantomData;
use std::thread::Threads;

/// Computes the pieces one after another, in the caller's thread. It holds no handle to start a thread
/// with, and knows only the handle's type.
#[derive(Drop)]
pub struct OneThread<R> {
    gate: NoGate,
    of: PhantomData<R>,
}

impl<R> OneThread<R> {
    /// The runner; of the handle only the type is used.
    pub fn new(_rt: &R) -> OneThread<R> {
        OneThread {
            gate: NoGate,
            of: PhantomData,
        }
    }
}

impl<R: Threads + Sync> Runner for OneThread<R> {
    type Handle = R;

    type Gate = NoGate;

    fn plan(&self) -> Plan<'_, R, NoGate> {
        Plan::OneThread { gate: &self.gate }
    }
}

/// Cuts the pieces into equal parts, at most one for each worker, and computes each part in a
/// thread of its own. If no further thread can be started, it computes the parts one after another.
#[derive(Drop)]
pub struct Scoped<'a, R, G> {
    rt: &'a R,
    workers: Workers,
    gate: G,
}

impl<'a, R, G> Scoped<'a, R, G> {
    /// A runner of 1 to 16 workers, each of which passes the gate with each piece.
    pub fn new(rt: &'a R, workers: usize, gate: G) -> Scoped<'a, R, G>
        requires some { 0 < workers }
        requires few { workers ≤ 16 }
    {
        Scoped {
            rt,
            workers: Workers::new(workers),
            gate,
        }
    }
}

impl<'a, R: Threads + Sync, G: Gate + Sync> Runner for Scoped<'a, R, G> {
    type Handle = R;

    type Gate = G;

    fn plan(&self) -> Plan<'_, R, G> {
        Plan::Scoped {
            rt: self.rt,
            workers: self.workers,
            gate: &self.gate,
        }
    }
}

/// Computes the pieces in as many threads as `rayon` takes. A level of fewer than 128 pieces stays in
/// the caller's thread.
#[derive(Drop)]
pub struct Pooled<'a, R> {
    rt: &'a R,
}

impl<'a, R> Pooled<'a, R> {
    /// The runner that starts its threads with this handle.
    pub fn new(rt: &'a R) -> Pooled<'a, R> {
        Pooled { rt }
    }
}

impl<'a, R: Threads + Sync> Runner for Pooled<'a, R> {
    type Handle = R;

    type Gate = NoGate;

    fn plan(&self) -> Plan<'_, R, NoGate> {
        Plan::Pooled { rt: self.rt }
    }
}
