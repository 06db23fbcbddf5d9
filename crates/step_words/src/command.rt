//! The words by which lines begin.
ghost use Rattle.std.specs.Prelude.{◌≡◌};
ghost use Rattle.step_words.specs.Commands.{command_in, command_named, command_text};
ghost use Rattle.step_words.specs.Said.{IsSaid};

use crate::mistake::Mistake;

/// What a line begins with.
#[derive(Clone, Copy, Debug, PartialEq, Eq)]
pub enum Command {
    /// Why a stage completed when it did, or why it is pending.
    Why,
    /// How a stage came by its exception.
    Blame,
    /// Which stages would make a stage complete sooner if they took no time.
    Sweep,
    /// All stages, or those that have a text in their names.
    Stages,
    /// When each stage started, and how long it was queued and ran.
    Times,
    /// What the version's edits have changed.
    Changes,
    /// Which stages complete at another moment than before the version's edits.
    Drift,
    /// In what two versions differ.
    Diff,
    /// A change of a stage.
    Set,
    /// The same.
    Pin,
    /// What would come of a change.
    Try,
    /// Back to the version before.
    Undo,
    /// Which versions there are.
    Versions,
    /// What became of each end.
    Ends,
    /// Where failures arose, and which stages they reached.
    Failures,
    /// The version as a recording.
    Save,
    /// Which words there are, or what one of them says.
    Help,
    /// The end.
    Quit,
}

/// All commands, in the order of their help.
pub static COMMANDS: [Command; 18] = [
    Command::Why,
    Command::Blame,
    Command::Sweep,
    Command::Stages,
    Command::Times,
    Command::Ends,
    Command::Failures,
    Command::Set,
    Command::Pin,
    Command::Try,
    Command::Undo,
    Command::Changes,
    Command::Drift,
    Command::Diff,
    Command::Versions,
    Command::Save,
    Command::Help,
    Command::Quit,
];

impl Command {
    /// The word for it.
    pub fn text(self) -> &'static str
        ensures { result.now ≡ command_text self }
    {
        match self {
            Command::Why => "why",
            Command::Blame => "blame",
            Command::Sweep => "sweep",
            Command::Stages => "stages",
            Command::Times => "times",
            Command::Changes => "changes",
            Command::Drift => "drift",
            Command::Diff => "diff",
            Command::Set => "set",
            Command::Pin => "pin",
            Command::Try => "try",
            Command::Undo => "undo",
            Command::Versions => "versions",
            Command::Ends => "ends",
            Command::Failures => "failures",
            Command::Save => "save",
            Command::Help => "help",
            Command::Quit => "quit",
        }
    }

    /// The one that a word is for.
    pub fn named(word: &str) -> Option<Command>
        ensures { result ≡ command_named word.now }
    {
        match word {
            "why" => Some(Command::Why),
            "blame" => Some(Command::Blame),
            "sweep" => Some(Command::Sweep),
            "stages" => Some(Command::Stages),
            "times" => Some(Command::Times),
            "changes" => Some(Command::Changes),
            "drift" => Some(Command::Drift),
            "diff" => Some(Command::Diff),
            "set" => Some(Command::Set),
            "pin" => Some(Command::Pin),
            "try" => Some(Command::Try),
            "undo" => Some(Command::Undo),
            "versions" => Some(Command::Versions),
            "ends" => Some(Command::Ends),
            "failures" => Some(Command::Failures),
            "save" => Some(Command::Save),
            "help" => Some(Command::Help),
            "quit" => Some(Command::Quit),
            _ => None,
        }
    }
}

/// The command that a word is for, or that there is none.
pub(crate) fn command_in(word: &str) -> Result<Command, Mistake>
    ensures { IsSaid result (command_in word.now) }
{
    match Command::named(word) {
        Some(command) => Ok(command),
        None => Err(Mistake::NoCommand),
    }
}
