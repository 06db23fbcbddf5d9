//! Which recordings there are, with the word for each.
ghost use Rattle.std.specs.Prelude.{◌≡◌, IfSome, true};
ghost use Rattle.std.specs.Io.BufRead.{ends_with_byte};
ghost use Rattle.recording_forms.specs.Names.{name_of};

use crate::texts;

/// What a recording is written down as a form of, in the order in which help names them.
#[derive(Clone, Copy, Debug, PartialEq, Eq)]
pub enum Form {
    /// A run of ten stages, each of which says what it is.
    First,
    /// A call with a timeout whose ticks stay as they are.
    Timeout,
    /// A call with a timeout that moves with what comes before it.
    Timer,
    /// Attempts, one after another.
    Retry,
    /// A value in place of an exception.
    Fallback,
    /// A breaker before a call, which was open.
    Breaker,
    /// A cache, and what is asked where it has nothing.
    Cache,
    /// Actions that wait for a thread which another one holds.
    Queue,
    /// Calls of which the first counts that is done.
    Race,
    /// Calls that are all waited for.
    Batch,
}

static FORMS: [Form; 10] = [
    Form::First,
    Form::Timeout,
    Form::Timer,
    Form::Retry,
    Form::Fallback,
    Form::Breaker,
    Form::Cache,
    Form::Queue,
    Form::Race,
    Form::Batch,
];

/// The names of all of them.
pub static FORM_NAMES: [&str; 10] = [
    "first", "timeout", "timer", "retry", "fallback", "breaker", "cache", "queue", "race", "batch",
];

impl Form {
    /// The word for it.
    pub fn name(self) -> &'static str
        ensures { result.now ≡ name_of self }
    {
        match self {
            Form::First => "first",
            Form::Timeout => "timeout",
            Form::Timer => "timer",
            Form::Retry => "retry",
            Form::Fallback => "fallback",
            Form::Breaker => "breaker",
            Form::Cache => "cache",
            Form::Queue => "queue",
            Form::Race => "race",
            Form::Batch => "batch",
        }
    }

    /// The one that a word is for.
    pub fn named(word: &str) -> Option<Form>
        ensures { IfSome result (λ form. name_of form ≡ word.now) }
    {
        FORMS.iter().copied().find(|it| it.name() == word)
    }

    /// The recording.
    pub fn text(self) -> &'static str
        ensures { ends_with_byte 10 result.now ≡ true }
    {
        match self {
            Form::First => texts::FIRST,
            Form::Timeout => texts::TIMEOUT,
            Form::Timer => texts::TIMER,
            Form::Retry => texts::RETRY,
            Form::Fallback => texts::FALLBACK,
            Form::Breaker => texts::BREAKER,
            Form::Cache => texts::CACHE,
            Form::Queue => texts::QUEUE,
            Form::Race => texts::RACE,
            Form::Batch => texts::BATCH,
        }
    }
}
