//! Why a line says nothing.
use change_words::MakingFault;
use recording::Fault;
use std::alloc::AllocError;

/// Why a line says nothing.
#[derive(Debug, Drop)]
pub enum Mistake {
    /// Its first word is no command.
    NoCommand,
    /// Its command wants a further word.
    Missing,
    /// Its command takes no further word.
    TooMany,
    /// No stage has the name or begins with it, or none has the text in its name.
    NoStage,
    /// Several stages begin with the name, and none has it.
    SeveralStages,
    /// A word is no number of a version.
    NoNumber,
    /// Its words are no change.
    NoChange,
    /// Its change makes no edits of the graph.
    NotMade(MakingFault),
    /// It is no step as JSON.
    NoStep(Fault),
    /// Memory ran out.
    Memory,
}

impl From<AllocError> for Mistake {
    ghost use Rattle.std.specs.Prelude.{◌≡◌};
    ghost use Rattle.step_words.specs.declared.mistake.Mistake.TheVariants.{Memory};

    ghost from_gives = { λ _ mistake. mistake ≡ Memory };

    fn from(_: AllocError) -> Mistake {
        Mistake::Memory
    }
}
