//! Units of ticks.
ghost use Rattle.std.specs.Prelude.{◌≡◌};
ghost use Rattle.trace_relations.specs.Units.{nanoseconds, unit_named, unit_text};

/// How long a tick is.
#[derive(Clone, Copy, PartialEq, Eq, Debug)]
pub enum Unit {
    Nanosecond,
    Microsecond,
    Millisecond,
}

impl Unit {
    /// The unit that a word names.
    pub fn new(word: &str) -> Option<Unit>
        ensures { result ≡ unit_named word.now }
    {
        match word {
            "ns" => Some(Unit::Nanosecond),
            "us" => Some(Unit::Microsecond),
            "ms" => Some(Unit::Millisecond),
            _ => None,
        }
    }

    /// The word that names the unit.
    pub fn text(self) -> &'static str
        ensures { result.now ≡ unit_text self }
    {
        match self {
            Unit::Nanosecond => "ns",
            Unit::Microsecond => "us",
            Unit::Millisecond => "ms",
        }
    }

    /// How many nanoseconds a tick is.
    pub fn nanoseconds(self) -> u64
        ensures { result ≡ nanoseconds self }
    {
        match self {
            Unit::Nanosecond => 1,
            Unit::Microsecond => 1_000,
            Unit::Millisecond => 1_000_000,
        }
    }
}
