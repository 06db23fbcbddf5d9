//! What the numbers of a summary are of.
ghost use Rattle.std.specs.Prelude.{◌≡◌, Decides, IfOk};

use fleet_summary::{GroupBy, Name};
use std::alloc::{AllocError, Global};

/// What the numbers of a summary are of. Summaries are joined where it is the same.
#[derive(Drop)]
pub struct Basis {
    pub by: GroupBy,
    /// The name of the spans whose ends are the replies, where they were chosen by one.
    pub reply: Option<Name>,
    /// The unit of the times, where it is known.
    pub unit: Option<Name>,
    /// What was changed in each trace before its reply was counted, in the words that told it, where something was.
    pub tried: Option<Name>,
}

impl Basis {
    /// Whether it is the same as another.
    pub fn is_same(&self, other: &Basis) -> bool
        ensures { Decides result (self.now ≡ other.now) }
    {
        self.by == other.by
            && is_same_text(&self.reply, &other.reply)
            && is_same_text(&self.unit, &other.unit)
            && is_same_text(&self.tried, &other.tried)
    }

    /// The same once more.
    pub fn copy(&self, alloc: Global) -> Result<Basis, AllocError>
        ensures { IfOk result (λ copy. copy ≡ self.now) }
    {
        Ok(Basis {
            by: self.by,
            reply: text_copy(alloc, &self.reply)?,
            unit: text_copy(alloc, &self.unit)?,
            tried: text_copy(alloc, &self.tried)?,
        })
    }
}

#[tactic(auto, using(crate::proofs::Bases::some_same))]
fn is_same_text(text: &Option<Name>, other: &Option<Name>) -> bool
    ensures { Decides result (text.now ≡ other.now) }
{
    match (text, other) {
        (Some(text), Some(other)) => text == other,
        (None, None) => true,
        _ => false,
    }
}

fn text_copy(alloc: Global, text: &Option<Name>) -> Result<Option<Name>, AllocError>
    ensures { IfOk result (λ copy. copy ≡ text.now) }
{
    match text {
        Some(text) => Ok(Some(text.copy(alloc)?)),
        None => Ok(None),
    }
}
