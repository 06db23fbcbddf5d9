//! What is told of an import: each guess, and what was left out.
use trace_spans::Text;

/// What is told of an import.
#[derive(Drop, Debug)]
pub enum Note {
    /// A clock is moved.
    Moved(MovedClock),
    /// A span ended a little after its caller, and is taken to have ended with it.
    EndedLate(LateCall),
    /// A call is taken for a further attempt of another.
    TriedAgain(Attempt),
    /// A call was given up.
    GivenUp(GivenUp),
    /// So many spans name parents that aren't in the trace.
    NoParent(usize),
    /// A call outlives its caller, which did not fail: nothing waits for it.
    Outlives(Outliving),
    /// The last line of the file is cut, and was left out.
    CutLine,
    /// So many more are of a kind.
    More(NoteKind, usize),
}

/// What kind of thing is told.
#[derive(Clone, Copy, PartialEq, Eq, Debug)]
pub enum NoteKind {
    Moved,
    EndedLate,
    TriedAgain,
    GivenUp,
    Outlives,
}

/// A clock that is moved.
#[derive(Drop, Debug)]
pub struct MovedClock {
    pub clock: Text,
    /// By how many nanoseconds.
    pub by: i128,
    /// How many calls would lie outside of their callers.
    pub calls: usize,
}

/// A call that ended a little after its caller.
#[derive(Drop, Debug)]
pub struct LateCall {
    pub call: Text,
    /// By how many ticks.
    pub by: u64,
}

/// A call that is taken for a further attempt.
#[derive(Drop, Debug)]
pub struct Attempt {
    pub call: Text,
    /// The first attempt.
    pub first: Text,
    /// Which attempt it is, counted from 1.
    pub number: usize,
}

/// A call that was given up.
#[derive(Drop, Debug)]
pub struct GivenUp {
    pub call: Text,
    /// The tick at which it was.
    pub at: u64,
    /// What it had called, the first of that to start.
    pub called: Text,
    /// Whether that ran on, or else was to answer.
    pub ran_on: bool,
}

/// A call that outlives its caller.
#[derive(Drop, Debug)]
pub struct Outliving {
    pub call: Text,
    pub caller: Text,
}
