//! Values, and what a completed stage holds.
ghost use Rattle.std.specs.Prelude.{◌≡◌};
ghost use Rattle.act_expr.specs.Meaning.{truth};
ghost use Rattle.act_expr.specs.Outcome.{wrap, own};

use crate::ExName;
use std::fmt;

/// What a computation gives: `null`, or a number of Java's type `long`.
#[derive(Clone, Copy, PartialEq, Eq, Debug)]
pub enum Value {
    Null,
    Num(i64),
}

/// What a completed stage holds.
#[derive(Clone, Copy, PartialEq, Eq, Debug)]
pub enum Outcome {
    Value(Value),
    /// An exception as it was thrown or set.
    Bare(ExName),
    /// A `CompletionException` whose cause is the exception.
    Wrapped(ExName),
}

/// How a recording wraps the exceptions that its stages get by computing. The documentation of
/// `CompletableFuture` does not say in which form a stage holds its own exception.
#[derive(Clone, Copy, PartialEq, Eq, Debug)]
pub enum Mode {
    /// Each of them is wrapped once, in a `CompletionException`.
    Computed,
    /// A stage's own exception is bare.
    Literal,
}

impl Value {
    /// 1 if the test holds, else 0.
    pub(crate) fn truth(holds: bool) -> Value
        ensures { result ≡ truth holds }
    {
        Value::Num(if holds { 1 } else { 0 })
    }
}

impl Outcome {
    /// The outcome with its exception wrapped once, as a dependent gets it. The documentation of
    /// `CompletionStage`: if a stage terminates with an exception, the dependents that require its
    /// completion complete "with a `CompletionException` holding the exception as its cause".
    #[inline(always)]
    pub fn wrap(self) -> Outcome
        ensures { result ≡ wrap self }
    {
        match self {
            Outcome::Value(value) => Outcome::Value(value),
            Outcome::Bare(name) | Outcome::Wrapped(name) => Outcome::Wrapped(name),
        }
    }

    /// What a stage holds whose own computation threw the exception.
    #[inline(always)]
    pub fn own(mode: Mode, name: ExName) -> Outcome
        ensures { result ≡ own mode name }
    {
        match mode {
            Mode::Computed => Outcome::Wrapped(name),
            Mode::Literal => Outcome::Bare(name),
        }
    }
}

/// `value:null`, `value:-7`, `bare:NAME` or `wrapped:NAME`.
impl fmt::Display for Outcome {
    ghost use Rattle.std.specs.Prelude.{Some};
    ghost use Rattle.act_expr.specs.OutcomeText.{outcome_text};

    ghost output = { λ outcome. Some (outcome_text outcome) };

    fn fmt<W: fmt::Write>(&self, f: &mut fmt::Formatter<W>) -> fmt::Result {
        match self {
            Outcome::Value(Value::Null) => write!(f, "value:null"),
            Outcome::Value(Value::Num(number)) => write!(f, "value:{number}"),
            Outcome::Bare(name) => {
                let name = name.text();
                write!(f, "bare:{name}")
            }
            Outcome::Wrapped(name) => {
                let name = name.text();
                write!(f, "wrapped:{name}")
            }
        }
    }
}
