//! What clients in threads tell each other, and the gate at which the edit of one waits for another.
use level_pool::{Gate, Plan, Runner, Workers};
use std::sync::atomic::{AtomicU64, Ordering};
use std::thread::{self, Threads};
use std::time::{Clock, Duration};

/// The turns that one waits for another before it goes on alone.
const MOST_TURNS: u32 = 4_000_000;

/// How many steps the clients of a run have told of.
#[derive(Drop)]
pub(crate) struct Signals {
    steps: AtomicU64,
}

impl Signals {
    pub(crate) fn new() -> Signals {
        Signals {
            steps: AtomicU64::new(0),
        }
    }

    /// One more step is done.
    pub(crate) fn tell(&self) {
        self.steps.fetch_add(1, Ordering::SeqCst);
    }

    /// Whether so many steps are done before the turns are used up.
    pub(crate) fn come(&self, clock: &impl Clock, steps: u64) -> bool {
        for turn in 0..MOST_TURNS {
            if self.steps.load(Ordering::SeqCst) >= steps {
                return true;
            }
            if turn % 16 == 0 {
                thread::sleep(clock, Duration::from_micros(20));
            }
        }
        false
    }
}

/// By what an edit is computed.
#[derive(Clone, Copy)]
pub(crate) enum Way {
    OneThread,
    Scoped,
    Pooled,
}

impl Way {
    pub(crate) fn title(self) -> &'static str {
        match self {
            Way::OneThread => "one thread",
            Way::Scoped => "scoped threads",
            Way::Pooled => "the pool",
        }
    }
}

/// The steps of two clients, by how many come before them: the edit has begun, and the undo was answered.
pub(crate) const ENTERED: u64 = 3;

/// The undo was answered.
pub(crate) const ANSWERED: u64 = 4;

/// A gate where a piece tells that it has come, and waits until the undo was answered, or which is open.
#[derive(Drop)]
pub(crate) struct Waiting<'a, H> {
    clock: &'a H,
    signals: &'a Signals,
    waits: bool,
}

impl<'a, H: Clock> Gate for Waiting<'a, H> {
    fn enter(&self, _piece: u32) {
        if self.waits {
            self.signals.tell();
            self.signals.come(self.clock, ANSWERED);
        }
    }

    fn leave(&self, _piece: u32) {}
}

/// A runner with a gate. The pool has none, so there the edit waits before its level.
#[derive(Drop)]
pub(crate) struct Gated<'a, H> {
    rt: &'a H,
    way: Way,
    gate: Waiting<'a, H>,
}

impl<'a, H> Gated<'a, H> {
    /// The runner at whose gate edits wait, or which is open.
    pub(crate) fn new(rt: &'a H, way: Way, signals: &'a Signals, waits: bool) -> Gated<'a, H> {
        Gated {
            rt,
            way,
            gate: Waiting {
                clock: rt,
                signals,
                waits,
            },
        }
    }
}

impl<'a, H: Threads + Clock + Sync> Runner for Gated<'a, H> {
    type Handle = H;

    type Gate = Waiting<'a, H>;

    fn plan(&self) -> Plan<'_, H, Waiting<'a, H>> {
        match self.way {
            Way::OneThread => Plan::OneThread { gate: &self.gate },
            Way::Scoped => Plan::Scoped {
                rt: self.rt,
                workers: Workers::new(2),
                gate: &self.gate,
            },
            Way::Pooled => {
                self.gate.enter(0);
                Plan::Pooled { rt: self.rt }
            }
        }
    }
}
