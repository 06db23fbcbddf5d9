//! What is printed of a conversation.

/// What is printed of a conversation.
#[derive(Clone, Copy, Debug, PartialEq, Eq)]
pub enum Printed {
    /// What its lines are answered.
    Answers,
    /// The steps that its lines say, as a script; people are told the answers.
    Steps,
}
