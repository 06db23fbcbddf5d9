//! Which exceptions are told of.

/// Which of the exceptions that arose in stages a report tells of.
#[derive(Clone, Copy, Debug, PartialEq, Eq)]
pub enum Arisen {
    /// All of them.
    Anywhere,
    /// That of the stage at a place.
    In(u32),
    /// Those that arose in a stage on the path of the stage at a place, reach one of these, or are handled by one; and no later
    /// than that stage completed.
    Beside(u32),
}
