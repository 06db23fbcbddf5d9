//! Why a line says nothing, as people are told.
use crate::helping::usage;
use crate::setting::Setting;
use change_words::MakingFault;
use console::{Fault, changes_of, why_not_made};
use diagnosis::{Quoted, StageFault};
use json_names::nearest;
use stage_graph::{Graph, Name, NameList, Representation};
use std::alloc::{AllocError, Global};
use step_words::{COMMANDS, Command, Like, Mistake, change_in, cut, names_like};

/// The most names that are told.
const MOST_TOLD: usize = 8;

/// The words of all commands.
fn command_texts(alloc: Global) -> Result<Vec<&'static str>, AllocError> {
    let mut texts = Vec::new(alloc);
    for command in &COMMANDS {
        let text = command.text();
        texts.reserve(1)?;
        texts.push_reserved(text);
    }
    Ok(texts)
}

/// That a word is no command, and which one is like it.
fn why_no_command(alloc: Global, word: &str) -> Result<String, AllocError> {
    let quoted = Quoted(word);
    let texts = command_texts(alloc)?;
    match nearest(alloc, word, texts.as_slice())? {
        Some(near) => format!(in alloc; "{quoted} is no command; did you mean \"{near}\"?"),
        None => format!(in alloc; "{quoted} is no command; help tells which there are"),
    }
}

/// What a command wants, or what it doesn't take.
fn why_not_so_many(
    alloc: Global,
    what: &str,
    command: Option<Command>,
) -> Result<String, AllocError> {
    match command {
        Some(command) => {
            let usage = usage(command);
            format!(in alloc; "{what}: {usage}")
        }
        None => format!(in alloc; "{what}"),
    }
}

/// The names of all stages of a graph.
fn names_of<R: Representation>(alloc: Global, graph: &Graph<R>) -> Result<NameList, AllocError> {
    names_like(alloc, graph, Like::Beginning, "")
}

/// The texts of names.
fn texts_of<'a>(alloc: Global, names: &'a [Name]) -> Result<Vec<&'a str>, AllocError> {
    let mut texts = Vec::new(alloc);
    for name in names {
        let text = name.as_str();
        texts.reserve(1)?;
        texts.push_reserved(text);
    }
    Ok(texts)
}

/// That there is no stage of a name, and which one of the stages' names is like it.
fn no_stage<'a>(
    alloc: Global,
    name: &'a str,
    names: &'a [Name],
) -> Result<StageFault<'a>, AllocError> {
    let texts = texts_of(alloc, names)?;
    let near = nearest(alloc, name, texts.as_slice())?;
    Ok(StageFault::NoStage { name, near })
}

/// That there is no stage of a name, and which one is like it.
fn why_no_stage<R: Representation>(
    alloc: Global,
    graph: &Graph<R>,
    name: &str,
) -> Result<String, AllocError> {
    let names = names_of(alloc, graph)?;
    let fault = no_stage(alloc, name, names.as_slice())?;
    format!(in alloc; "{fault}")
}

/// That a text is in no stage's name.
fn why_no_part(alloc: Global, text: &str) -> Result<String, AllocError> {
    let quoted = Quoted(text);
    format!(in alloc; "no stage has {quoted} in its name")
}

/// Which stages' names begin with a text.
fn why_several<R: Representation>(
    alloc: Global,
    graph: &Graph<R>,
    text: &str,
) -> Result<String, AllocError> {
    let quoted = Quoted(text);
    let names = names_like(alloc, graph, Like::Beginning, text)?;
    let mut why = format!(in alloc; "several stages begin with {quoted}:")?;
    for name in names.as_slice().iter().take(MOST_TOLD) {
        why.push_str(" ")?;
        why.push_str(name.as_str())?;
    }
    if names.as_slice().len() > MOST_TOLD {
        why.push_str(" ..")?;
    }
    Ok(why)
}

/// The name of the stage of which a command and the words behind it are.
fn named(command: Option<Command>, others: &str) -> &str {
    match command {
        Some(Command::Set | Command::Pin | Command::Try) => cut(others).0,
        _ => others,
    }
}

/// Why words are no change.
fn why_no_change(alloc: Global, others: &str) -> Result<String, Fault> {
    if !others.contains(' ') {
        return Ok(format!(in alloc;
            "nothing is assigned; an assignment stands behind the stage's name, as runs=50%, gives=7 or limit=20"
        )?);
    }
    match changes_of(alloc, &[others]) {
        Err(Fault::Word(why)) => Ok(why),
        Err(fault) => Err(fault),
        Ok(_) => Ok(String::new(alloc)),
    }
}

/// Why the edits of words are refused, with the number of that.
fn why_no_edits<R: Representation, W>(
    setting: &Setting<'_, W>,
    graph: &Graph<R>,
    others: &str,
    fault: &MakingFault,
) -> Result<String, AllocError> {
    let alloc = setting.alloc;
    let why = match change_in(alloc, graph, others) {
        Ok(change) => why_not_made(
            alloc,
            setting.voice,
            setting.recording,
            &[others],
            &[change],
            fault,
        ),
        Err(_) => None,
    };
    match why {
        Some(why) => format!(in alloc; "{fault}: {why}"),
        None => format!(in alloc; "{fault}"),
    }
}

/// Why a line says nothing.
pub(crate) fn why_mistaken<R: Representation, W>(
    setting: &Setting<'_, W>,
    graph: &Graph<R>,
    text: &str,
    mistake: &Mistake,
) -> Result<String, Fault> {
    let alloc = setting.alloc;
    let (word, others) = cut(text);
    let command = Command::named(word);
    let why = match mistake {
        Mistake::NoCommand => match command {
            // (what is asked for help on is no command)
            Some(_) => why_no_command(alloc, others)?,
            None => why_no_command(alloc, word)?,
        },
        Mistake::Missing => why_not_so_many(alloc, "a word is missing", command)?,
        Mistake::TooMany => why_not_so_many(alloc, "nothing may stand behind it", command)?,
        Mistake::NoStage => match command {
            Some(Command::Stages) => why_no_part(alloc, others)?,
            _ => why_no_stage(alloc, graph, named(command, others))?,
        },
        Mistake::SeveralStages => why_several(alloc, graph, named(command, others))?,
        Mistake::NoNumber => {
            why_not_so_many(alloc, "two numbers of versions are wanted", command)?
        }
        Mistake::NoChange => why_no_change(alloc, others)?,
        Mistake::NotMade(fault) => why_no_edits(setting, graph, others, fault)?,
        Mistake::NoStep(fault) => format!(in alloc; "{fault}")?,
        Mistake::Memory => return Err(Fault::Memory),
    };
    Ok(why)
}
