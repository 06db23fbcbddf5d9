//! What is asked of a trace, or of the traces of a file.
ghost use Rattle.std.specs.Prelude.{◌≡◌, option_map};
ghost use Rattle.command_line.specs.Words.{reading_of, unit_of};

/// What is wanted of the traces of a file.
#[derive(Clone, Copy, Debug, PartialEq, Eq)]
pub enum Wanted<'a> {
    /// Which traces the file has.
    List,
    /// The recording of each.
    Each,
    /// The recording of one: of that whose id is this, or begins with it, where the file has several.
    One(Option<&'a str>),
}

/// How long a tick is.
#[derive(Clone, Copy, Debug, PartialEq, Eq)]
pub enum Unit {
    Microsecond,
    Nanosecond,
    Millisecond,
}

pub(crate) static UNITS: [&str; 3] = ["us", "ns", "ms"];

impl Unit {
    /// What the word asks for; a microsecond where there is none.
    pub fn of(word: Option<&str>) -> Unit
        ensures { result ≡ unit_of (option_map (λ word. word.now) word.entry) }
    {
        match word {
            Some("ns") => Unit::Nanosecond,
            Some("ms") => Unit::Millisecond,
            _ => Unit::Microsecond,
        }
    }
}

/// How what a trace tells is taken.
#[derive(Clone, Copy, Debug, PartialEq, Eq)]
pub enum Reading {
    /// More is inferred of it.
    Inferred,
    /// As it is told.
    AsTold,
}

pub(crate) static READINGS: [&str; 2] = ["inferred", "as-told"];

impl Reading {
    /// What the word asks for; that more is inferred where there is none.
    pub fn of(word: Option<&str>) -> Reading
        ensures { result ≡ reading_of (option_map (λ word. word.now) word.entry) }
    {
        match word {
            Some("as-told") => Reading::AsTold,
            _ => Reading::Inferred,
        }
    }
}

/// How the spans of a trace are mapped to stages.
#[derive(Clone, Copy, Debug, PartialEq, Eq)]
pub struct Mapping {
    /// The unit of ticks.
    pub unit: Unit,
    /// Whether clocks that a trace contradicts are moved.
    pub clocks: Reading,
    /// Whether calls may have been tried again or given up.
    pub calls: Reading,
}
