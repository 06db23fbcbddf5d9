//! Gates of runners that tell which pieces pass them.
use level_pool::Gate;
use std::sync::atomic::{AtomicU64, Ordering};
use std::thread;
use std::time::{Clock, Duration};

/// The turns that a piece waits at the gate before it goes on alone.
const MOST_TURNS: u32 = 1_000_000;

/// A gate where neither of the pieces 1 and 2 goes on until both have entered, or its turns are used up.
#[derive(Drop)]
pub(crate) struct Meeting<'a, C> {
    clock: &'a C,
    entered: AtomicU64,
    gone_on_alone: AtomicU64,
}

impl<'a, C> Meeting<'a, C> {
    /// A gate that no piece has entered.
    pub(crate) fn new(clock: &'a C) -> Meeting<'a, C> {
        Meeting {
            clock,
            entered: AtomicU64::new(0),
            gone_on_alone: AtomicU64::new(0),
        }
    }

    /// How many of the two pieces have entered.
    pub(crate) fn entered(&self) -> u64 {
        self.entered.load(Ordering::SeqCst)
    }

    /// How many of them went on alone.
    pub(crate) fn gone_on_alone(&self) -> u64 {
        self.gone_on_alone.load(Ordering::SeqCst)
    }
}

impl<'a, C: Clock> Gate for Meeting<'a, C> {
    fn enter(&self, piece: u32) {
        if piece != 1 && piece != 2 {
            return;
        }
        self.entered.fetch_add(1, Ordering::SeqCst);
        for turn in 0..MOST_TURNS {
            if self.entered() >= 2 {
                return;
            }
            if turn % 64 == 0 {
                thread::sleep(self.clock, Duration::from_micros(20));
            }
        }
        self.gone_on_alone.fetch_add(1, Ordering::SeqCst);
    }

    fn leave(&self, _piece: u32) {}
}
