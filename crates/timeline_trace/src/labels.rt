//! What is told of the rows beside them.
ghost use Rattle.std.specs.Prelude.{◌≡◌};
ghost use Rattle.timeline_trace.specs.Ticks.{in_micros, micros, tick_named};

use timeline_svg::Run;

/// What a tick is.
#[derive(Clone, Copy, Debug, PartialEq, Eq)]
pub enum Tick {
    Nanosecond,
    Microsecond,
    Millisecond,
    Second,
}

impl Tick {
    /// The tick that a unit names; a microsecond where it names none of these.
    pub fn named(unit: &str) -> Tick
        ensures { result ≡ tick_named unit.now }
    {
        match unit {
            "ns" => Tick::Nanosecond,
            "ms" => Tick::Millisecond,
            "s" => Tick::Second,
            _ => Tick::Microsecond,
        }
    }

    /// How many microseconds so many ticks are, rounded down.
    pub(crate) fn micros(self, ticks: u64) -> u64
        ensures { result ≡ micros self ticks }
    {
        match self {
            Tick::Nanosecond => ticks / 1000,
            Tick::Microsecond => ticks,
            Tick::Millisecond => ticks.saturating_mul(1000),
            Tick::Second => ticks.saturating_mul(1_000_000),
        }
    }

    /// When a run did what, in microseconds.
    pub(crate) fn in_micros(self, run: Run) -> Run
        ensures { result ≡ in_micros self run }
    {
        Run {
            triggered: self.micros(run.triggered),
            started: self.micros(run.started),
            ended: self.micros(run.ended),
            ..run
        }
    }
}

/// What is told of the rows beside them.
#[derive(Clone, Copy, Debug, PartialEq, Eq)]
pub struct Labels {
    pub tick: Tick,
    /// Whether what stands before the first dot of a name is a service, whose rows are one process.
    pub has_services: bool,
    /// The tick by which there was to be a reply.
    pub deadline: Option<u64>,
}

/// Where the events of a row stand.
#[derive(Clone, Copy, Debug, PartialEq, Eq)]
pub(crate) struct Track {
    pub(crate) process: u64,
    /// The thread: how many rows stand before it, and one.
    pub(crate) row: u64,
}
