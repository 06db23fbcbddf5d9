//! Moments: what comes before what at one tick.
ghost use Rattle.std.specs.Prelude.{◌≡◌};
ghost use Rattle.trace_relations.specs.Moments.{end_moment, ended_before, interval_at, is_before, start_moment, turn_number};

/// From which tick to which a span goes; without an end it is open.
#[derive(Clone, Copy, PartialEq, Eq, Debug)]
pub struct Interval {
    pub start: u64,
    pub end: Option<u64>,
}

/// What happens at one tick, in order.
#[derive(Clone, Copy, PartialEq, Eq, Debug)]
pub enum Turn {
    /// What took time ends.
    Ends,
    /// Spans start.
    Starts,
    /// What took no time ends.
    EndsAtOnce,
}

/// A tick, and a turn at it.
#[derive(Clone, Copy, PartialEq, Eq, Debug)]
pub struct Moment {
    pub tick: u64,
    pub turn: Turn,
}

impl Turn {
    /// How many turns come before it.
    pub fn number(self) -> u8
        ensures { result ≡ turn_number self }
    {
        match self {
            Turn::Ends => 0,
            Turn::Starts => 1,
            Turn::EndsAtOnce => 2,
        }
    }
}

impl Moment {
    /// Whether it comes before another.
    pub fn is_before(self, other: Moment) -> bool
        ensures { result ≡ is_before self other }
    {
        self.tick < other.tick
            || (self.tick == other.tick && self.turn.number() < other.turn.number())
    }
}

impl Interval {
    /// When the span starts.
    pub fn start_moment(self) -> Moment
        ensures { result ≡ start_moment self }
    {
        Moment {
            tick: self.start,
            turn: Turn::Starts,
        }
    }

    /// When the span ends, unless it is open.
    pub fn end_moment(self) -> Option<Moment>
        ensures { result ≡ end_moment self }
    {
        let tick = self.end?;
        let turn = if self.start < tick {
            Turn::Ends
        } else {
            Turn::EndsAtOnce
        };
        Some(Moment { tick, turn })
    }

    /// Whether the span ended before a moment.
    pub fn ended_before(self, moment: Moment) -> bool
        ensures { result ≡ ended_before self moment }
    {
        match self.end_moment() {
            Some(end) => end.is_before(moment),
            None => false,
        }
    }
}

/// The interval of the span at a place.
pub(crate) fn interval_at(intervals: &[Interval], place: usize) -> Interval
    ensures { result ≡ interval_at intervals.now place }
{
    match intervals.get(place) {
        Some(interval) => *interval,
        None => Interval {
            start: 0,
            end: None,
        },
    }
}
