//! What can be said, as people are told.
use std::alloc::{AllocError, Global};
use step_words::{COMMANDS, Command};

/// What a command says, with the words that stand behind it.
pub(crate) fn usage(command: Command) -> &'static str {
    match command {
        Command::Why =>
            "why STAGE           why the stage completed when it did, or why it is pending",
        Command::Blame => "blame STAGE         how the stage came by its exception",
        Command::Sweep => {
            "sweep STAGE         which stages would make the stage complete sooner if they took no time"
        }
        Command::Stages => "stages [PART]       all stages, or those that have PART in their names",
        Command::Times => {
            "times               when each stage started, and how long it was queued and ran"
        }
        Command::Ends => {
            "ends                what came of each timeout, and of each call that completes or cancels a stage"
        }
        Command::Failures => {
            "failures            where each failure arose, which stages it reached, and which read it"
        }
        Command::Set => {
            "set STAGE CHANGE..  makes a version with the change: runs=20, runs=50%, queued=0, gives=7, fails=NAME, at=T, limit=N, unlimited"
        }
        Command::Pin => "pin STAGE CHANGE..  the same as set",
        Command::Try => "try STAGE CHANGE..  what would come of the change; no version is made",
        Command::Undo => "undo                back to the version before",
        Command::Changes => "changes             what the version's edits have changed",
        Command::Drift => {
            "drift               which stages complete at another moment than before the version's edits"
        }
        Command::Diff => "diff A B            in what version B differs from version A",
        Command::Versions =>
            "versions            which versions there are, and by which words they were made",
        Command::Save => "save                the version as a recording, which whatif reads",
        Command::Help => "help [COMMAND]      this, or what one command says",
        Command::Quit => "quit                the end, as that of standard input is",
    }
}

/// What is told of all commands beside the help of each.
const OF_ALL: &str =
    "A STAGE may be the beginning of a name, where no other name begins so. A line that begins with { is a step as JSON.";

/// What is told of a command, or where none is named of all: lines, and no end of the last one.
pub(crate) fn help_of(alloc: Global, command: Option<Command>) -> Result<String, AllocError> {
    let mut help = String::new(alloc);
    match command {
        Some(command) => help.push_str(usage(command))?,
        None => {
            for command in &COMMANDS {
                help.push_str(usage(*command))?;
                help.push('\n')?;
            }
            help.push_str(OF_ALL)?;
        }
    }
    Ok(help)
}
