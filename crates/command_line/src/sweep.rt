//! What is asked of a sweep.
ghost use Rattle.std.specs.Prelude.{◌≡◌, option_map};
ghost use Rattle.command_line.specs.Words.{ending_of};

/// What of the times of actions is shorter in trials.
#[derive(Clone, Copy, Debug, PartialEq, Eq)]
pub enum Part {
    /// How long they are queued and how long they run.
    Both,
    /// How long they are queued alone.
    Queue,
}

/// Which trials are printed.
#[derive(Clone, Copy, Debug, PartialEq, Eq)]
pub enum Ending {
    Any,
    /// Those alone by which the stage has a value.
    Value,
}

impl Ending {
    /// What the word asks for; all where there is none.
    pub fn of(word: Option<&str>) -> Ending
        ensures { result ≡ ending_of (option_map (λ word. word.now) word.entry) }
    {
        match word {
            Some("value") => Ending::Value,
            _ => Ending::Any,
        }
    }
}

/// What is asked of a sweep.
#[derive(Clone, Copy, Debug, PartialEq, Eq)]
pub struct Sweep {
    pub part: Part,
    /// How many hundredths of that are left.
    pub percent: u8,
    pub ending: Ending,
    /// How many trials are printed at most.
    pub most: Option<usize>,
}
