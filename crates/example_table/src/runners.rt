//! The runners of levels, each of which has to tell the same.
use level_pool::{NoGate, OneThread, Plan, Pooled, Runner, Scoped};
use std::thread::Threads;

/// One of the runners, which is chosen as the program runs.
#[derive(Drop)]
pub(crate) enum AnyRunner<'a, H> {
    OneThread(OneThread<H>),
    Scoped(Scoped<'a, H, NoGate>),
    Pooled(Pooled<'a, H>),
}

impl<'a, H: Threads + Sync> Runner for AnyRunner<'a, H> {
    type Handle = H;

    type Gate = NoGate;

    fn plan(&self) -> Plan<'_, H, NoGate> {
        match self {
            AnyRunner::OneThread(runner) => runner.plan(),
            AnyRunner::Scoped(runner) => runner.plan(),
            AnyRunner::Pooled(runner) => runner.plan(),
        }
    }
}

impl<'a, H> AnyRunner<'a, H> {
    /// In the caller's thread.
    pub(crate) fn in_one_thread(rt: &'a H) -> AnyRunner<'a, H> {
        AnyRunner::OneThread(OneThread::new(rt))
    }

    /// In threads of their own: one worker.
    pub(crate) fn by_one_worker(rt: &'a H) -> AnyRunner<'a, H> {
        AnyRunner::Scoped(Scoped::new(rt, 1, NoGate))
    }

    /// In threads of their own: two workers.
    pub(crate) fn by_two_workers(rt: &'a H) -> AnyRunner<'a, H> {
        AnyRunner::Scoped(Scoped::new(rt, 2, NoGate))
    }

    /// In threads of their own: as many workers as there may be.
    pub(crate) fn by_sixteen_workers(rt: &'a H) -> AnyRunner<'a, H> {
        AnyRunner::Scoped(Scoped::new(rt, 16, NoGate))
    }

    /// In the pool's threads.
    pub(crate) fn in_the_pool(rt: &'a H) -> AnyRunner<'a, H> {
        AnyRunner::Pooled(Pooled::new(rt))
    }
}
