//! Stages.

/// Which stage of which span.
#[derive(Clone, Copy, PartialEq, Eq, Debug)]
pub enum StageId {
    /// The first stage of a span that has several.
    Start(usize),
    /// The stage that ends when the span did.
    Whole(usize),
    /// A join at the start of a span, by its number among those.
    Entry(usize, usize),
    /// A join of what a span has, by its number among those.
    Join(usize, usize),
    /// Own work of a span, by its number among that.
    Work(usize, usize),
    /// What a call came to that was tried again, by the attempt.
    Tried(usize),
    /// The end of a span that gave a call up, by its limit.
    Limit(usize),
    /// The end that it would have had with the answer.
    Answer(usize),
}
