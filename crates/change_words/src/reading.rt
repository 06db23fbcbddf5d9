//! From a part of a word to what it assigns.
ghost use Rattle.std.specs.Prelude.{◌≡◌};
ghost use Rattle.change_words.specs.Words.{assignment_of, bare_of, exception_of, keyed, valued};

use crate::assignment::{Assignment, TimeLimit};
use crate::fault::Wrong;
use crate::key::Key;
use crate::number::{amount_of, count_of, value_of};
use act_expr::{ExName, Outcome};

/// The exception of a name, as it was thrown.
fn exception_of(text: &str) -> Result<Outcome, Wrong>
    ensures { result ≡ exception_of text.now }
{
    match ExName::new(text) {
        Some(name) => Ok(Outcome::Bare(name)),
        None => Err(Wrong::NoException),
    }
}

/// What a key without a value assigns.
fn bare_of(text: &str) -> Result<Assignment, Wrong>
    ensures { result ≡ bare_of text.now }
{
    match Key::named(text) {
        Some(Key::Unlimited) => Ok(Assignment::Limit(TimeLimit::Unlimited)),
        Some(_) => Err(Wrong::NoValue),
        None => Err(Wrong::NoKey),
    }
}

/// What a key assigns by its value.
fn keyed(key: Key, value: &str) -> Result<Assignment, Wrong>
    ensures { result ≡ keyed key value.now }
{
    match key {
        Key::Queued => Ok(Assignment::Queued(amount_of(value)?)),
        Key::Runs => Ok(Assignment::Runs(amount_of(value)?)),
        Key::Gives => Ok(Assignment::Outcome(Outcome::Value(value_of(value)?))),
        Key::Fails => Ok(Assignment::Outcome(exception_of(value)?)),
        Key::At => Ok(Assignment::Moment(count_of(value)?)),
        Key::Limit => Ok(Assignment::Limit(TimeLimit::Delay(count_of(value)?))),
        Key::Unlimited => Err(Wrong::TakesNoValue),
    }
}

/// What a text before `=` and one behind it assign.
fn valued(key: &str, value: &str) -> Result<Assignment, Wrong>
    ensures { result ≡ valued key.now value.now }
{
    match Key::named(key) {
        Some(key) => keyed(key, value),
        None => Err(Wrong::NoKey),
    }
}

impl Assignment {
    /// What a part of a change assigns.
    pub fn of(part: &str) -> Result<Assignment, Wrong>
        ensures { result ≡ assignment_of part.now }
    {
        match part.split_once('=') {
            Some((key, value)) => valued(key, value),
            None => bare_of(part),
        }
    }
}
