//! From a line of words to what it says.
ghost use Rattle.std.specs.Prelude.{◌≡◌, Err, IfOk, Result};
ghost use Rattle.recording.specs.Reads.{IsRead};
ghost use Rattle.recording.specs.declared.fault.Fault.{Fault};
ghost use Rattle.recording.specs.declared.step.Step.{Step};
ghost use Rattle.step_words.specs.Said.{IsSaid};
ghost use Rattle.step_words.specs.Speaking.{alone, asked_of, difference, differing, each_of, helped, is_json, listed, of_one, of_stage, of_step, of_words, or_no_step, report_of_one, reported, spoken_by, spoken_in, spoken_of, to_set};

use crate::changing::{change_in, edits_in};
use crate::command::{Command, command_in};
use crate::cutting::cut;
use crate::mistake::Mistake;
use crate::names::{Like, names_like, stage_in};
use crate::number::number_in;
use crate::spoken::{SESSION, Spoken, Steps};
use recording::{Asked, Fault, Step, Subject, read_step};
use stage_graph::{Graph, Name, Representation};
use std::alloc::{AllocError, Global};

/// The report of a stage for which a command asks.
#[derive(Clone, Copy, Debug, PartialEq, Eq)]
enum OfStage {
    Path,
    Blame,
    Sweep,
}

impl OfStage {
    /// The report, of the stage of a name.
    fn asked(self, name: Name) -> Asked
        ensures { result ≡ asked_of self name }
    {
        match self {
            OfStage::Path => Asked::Path(name),
            OfStage::Blame => Asked::Blame(name),
            OfStage::Sweep => Asked::Sweep(name),
        }
    }
}

/// A step is said.
fn of_one(alloc: Global, step: Step) -> Result<Spoken, AllocError>
    ensures { IfOk result (λ spoken. spoken ≡ of_one step) }
{
    Ok(Spoken::Steps(Steps::one(alloc, step)?))
}

/// A report of the version at which the session stands is asked for.
fn reported(alloc: Global, asked: Asked) -> Result<Spoken, AllocError>
    ensures { IfOk result (λ spoken. spoken ≡ reported asked) }
{
    let subject = Subject::Head(SESSION);
    of_one(alloc, Step::Report { subject, asked })
}

/// A report of the stage is asked for that a text names.
fn of_stage<R: Representation>(
    alloc: Global,
    graph: &Graph<R>,
    report: OfStage,
    text: &str,
) -> Result<Spoken, Mistake>
    ensures { IsSaid result (of_stage report graph.now.places text.now) }
{
    let name = stage_in(alloc, graph, text)?;
    Ok(reported(alloc, report.asked(name))?)
}

/// What a command says behind which nothing stands.
fn alone(spoken: Spoken, text: &str) -> Result<Spoken, Mistake>
    ensures { IsSaid result (alone spoken text.now) }
{
    if text.is_empty() {
        Ok(spoken)
    } else {
        Err(Mistake::TooMany)
    }
}

/// The reports by which a version differs from another one.
fn difference(alloc: Global, from: u32, to: u32) -> Result<Spoken, AllocError>
    ensures { IfOk result (λ spoken. spoken ≡ difference from to) }
{
    let subject = Subject::Version(to);
    let mut steps = Steps::new(alloc);
    steps.push(Step::Report {
        subject,
        asked: Asked::Changes(Some(from)),
    })?;
    steps.push(Step::Report {
        subject,
        asked: Asked::Drift(Some(from)),
    })?;
    Ok(Spoken::Steps(steps))
}

/// The same, of the versions whose numbers stand in a text.
fn differing(alloc: Global, text: &str) -> Result<Spoken, Mistake>
    ensures { IsSaid result (differing text.now) }
{
    if text.is_empty() {
        return Err(Mistake::Missing);
    }
    let (first, second) = cut(text);
    let from = number_in(first)?;
    let to = number_in(second)?;
    Ok(difference(alloc, from, to)?)
}

/// The report of the stage of a name.
fn report_of_one(name: &Name) -> Result<Step, AllocError>
    ensures { IfOk result (λ step. step ≡ report_of_one name.now) }
{
    Ok(Step::Report {
        subject: Subject::Head(SESSION),
        asked: Asked::One(name.again()?),
    })
}

/// A report of each of these stages is asked for.
#[tactic(auto, using(crate::proofs::Mapped::mapped_more))]
fn each_of(alloc: Global, names: &[Name]) -> Result<Steps, AllocError>
    ensures { IfOk result (λ steps. steps ≡ each_of names.now) }
{
    let mut steps = Steps::new(alloc);
    for name in names {
        let step = report_of_one(name)?;
        steps.push(step)?;
    }
    Ok(steps)
}

/// All stages are asked for, or those in whose names a text is.
fn listed<R: Representation>(alloc: Global, graph: &Graph<R>, text: &str) -> Result<Spoken, Mistake>
    ensures { IsSaid result (listed graph.now.places text.now) }
{
    if text.is_empty() {
        return Ok(reported(alloc, Asked::All)?);
    }
    let names = names_like(alloc, graph, Like::Part, text)?;
    let names = names.as_slice();
    if names.is_empty() {
        return Err(Mistake::NoStage);
    }
    Ok(Spoken::Steps(each_of(alloc, names)?))
}

/// Edits of the version at which the session stands are said.
fn to_set<R: Representation>(alloc: Global, graph: &Graph<R>, text: &str) -> Result<Spoken, Mistake>
    ensures { IsSaid result (to_set graph.now text.now) }
{
    let edits = edits_in(alloc, graph, text)?;
    Ok(of_one(
        alloc,
        Step::Change {
            session: SESSION,
            base: None,
            edits,
            listed: true,
        },
    )?)
}

/// Help is asked for, on the command that a text is for, or where it is empty on all.
fn helped(text: &str) -> Result<Spoken, Mistake>
    ensures { IsSaid result (helped text.now) }
{
    if text.is_empty() {
        return Ok(Spoken::Help(None));
    }
    let command = command_in(text)?;
    Ok(Spoken::Help(Some(command)))
}

/// What a command says with the words behind it.
#[tactic(auto, unfolding(crate::specs::Speaking::spoken_by))]
fn spoken_by<R: Representation>(
    alloc: Global,
    graph: &Graph<R>,
    command: Command,
    text: &str,
) -> Result<Spoken, Mistake>
    ensures { IsSaid result (spoken_by command graph.now text.now) }
{
    match command {
        Command::Why => of_stage(alloc, graph, OfStage::Path, text),
        Command::Blame => of_stage(alloc, graph, OfStage::Blame, text),
        Command::Sweep => of_stage(alloc, graph, OfStage::Sweep, text),
        Command::Stages => listed(alloc, graph, text),
        Command::Times => alone(reported(alloc, Asked::Times)?, text),
        Command::Changes => alone(reported(alloc, Asked::Changes(None))?, text),
        Command::Drift => alone(reported(alloc, Asked::Drift(None))?, text),
        Command::Diff => differing(alloc, text),
        Command::Set | Command::Pin => to_set(alloc, graph, text),
        Command::Try => Ok(Spoken::Trial(change_in(alloc, graph, text)?)),
        Command::Undo => alone(of_one(alloc, Step::Undo { session: SESSION })?, text),
        Command::Versions => alone(Spoken::Versions, text),
        Command::Ends => alone(Spoken::Ends, text),
        Command::Failures => alone(Spoken::Failures, text),
        Command::Save => alone(Spoken::Save, text),
        Command::Help => helped(text),
        Command::Quit => alone(Spoken::Quit, text),
    }
}

/// Whether a text is meant as JSON.
pub fn is_json(text: &str) -> bool
    ensures { result ≡ is_json text.now }
{
    matches!(text.as_bytes(), [b'{', ..])
}

/// Why a text is no step, unless memory ran out.
fn no_step(fault: Fault) -> Mistake
    ensures { (meant : Result Step Fault) → IsRead (Err fault) meant → IsSaid (Err result) (or_no_step meant) }
{
    match fault {
        Fault::Memory => Mistake::Memory,
        fault => Mistake::NoStep(fault),
    }
}

/// The step that a text is as JSON.
fn of_step(alloc: Global, text: &str) -> Result<Spoken, Mistake>
    ensures { IsSaid result (of_step text.now) }
{
    match read_step(alloc, text.as_bytes()) {
        Ok(step) => Ok(of_one(alloc, step)?),
        Err(fault) => Err(no_step(fault)),
    }
}

/// What words say, of which the first is a command.
fn of_words<R: Representation>(
    alloc: Global,
    graph: &Graph<R>,
    text: &str,
) -> Result<Spoken, Mistake>
    ensures { IsSaid result (of_words graph.now text.now) }
{
    let (word, others) = cut(text);
    let command = command_in(word)?;
    spoken_by(alloc, graph, command, others)
}

/// What a text says that has no white space at its ends.
fn spoken_in<R: Representation>(
    alloc: Global,
    graph: &Graph<R>,
    text: &str,
) -> Result<Spoken, Mistake>
    ensures { IsSaid result (spoken_in graph.now text.now) }
{
    if text.is_empty() {
        return Ok(Spoken::Nothing);
    }
    if is_json(text) {
        return of_step(alloc, text);
    }
    of_words(alloc, graph, text)
}

/// What a line says to session 1, where the version at which this stands has the graph: a step as JSON, or words of which the
/// first is a command.
///
/// Errors: the first of its words that is mistaken; `Memory`.
pub fn spoken_of<R: Representation>(
    alloc: Global,
    graph: &Graph<R>,
    line: &str,
) -> Result<Spoken, Mistake>
    ensures { IsSaid result (spoken_of graph.now line.now) }
{
    spoken_in(alloc, graph, line.trim())
}
