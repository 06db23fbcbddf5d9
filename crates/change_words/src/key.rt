//! The words by which assignments begin.
ghost use Rattle.std.specs.Prelude.{◌≡◌};
ghost use Rattle.change_words.specs.Words.{key_named};

/// What an assignment begins with.
#[derive(Clone, Copy, Debug, PartialEq, Eq)]
pub enum Key {
    /// How long the stage's action waits in a queue.
    Queued,
    /// How long its action runs.
    Runs,
    /// The value that it computes.
    Gives,
    /// The exception with which it fails, in place of what it computes.
    Fails,
    /// The tick at which it has computed that.
    At,
    /// The delay of its one timeout.
    Limit,
    /// It has no timeouts.
    Unlimited,
}

/// The texts of all keys.
pub static KEYS: [&str; 7] = [
    "queued",
    "runs",
    "gives",
    "fails",
    "at",
    "limit",
    "unlimited",
];

impl Key {
    /// The key of this text, if there is one.
    pub fn named(text: &str) -> Option<Key>
        ensures { result ≡ key_named text.now }
    {
        match text {
            "queued" => Some(Key::Queued),
            "runs" => Some(Key::Runs),
            "gives" => Some(Key::Gives),
            "fails" => Some(Key::Fails),
            "at" => Some(Key::At),
            "limit" => Some(Key::Limit),
            "unlimited" => Some(Key::Unlimited),
            _ => None,
        }
    }
}
