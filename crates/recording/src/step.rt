//! The steps of a script, each one JSON object.
ghost use Rattle.std.specs.Prelude.{◌≡◌};
ghost use Rattle.recording.specs.Tables.{beside};
ghost use Rattle.recording.specs.Reads.{IsRead};
ghost use Rattle.recording.specs.StepOf.{step_name_of, step_name_in, report_names, report_name_in, subject_in, asked_of, step_with, step_in, step_of};

use crate::edits::{EditName, read_edit, read_edits};
use crate::from_json::FromJson;
use crate::object::{if_present, required};
use crate::parse::read_json;
use crate::unread::Unread;
use crate::{Fault, Member};
use json::Scratch;
use json_trees::Tree;
use stage_graph::{Edits, Name};
use std::alloc::Global;

/// The content of a report of a version.
#[derive(Drop)]
pub enum Asked {
    /// All stages.
    All,
    /// The stage of this name.
    One(Name),
    /// The chain of blame from the stage of this name.
    Blame(Name),
    /// Why the stage of this name completed when it did, or why it is pending.
    Path(Name),
    /// The stages whose action, if it took no time, would make the stage of this name complete sooner.
    Sweep(Name),
    /// The stages that the version touched, or that differ from the version of this number.
    Changes(Option<u32>),
    /// The stages that complete at another moment than in the parent, or than in the version of this number.
    Drift(Option<u32>),
    /// When each stage started, and how long it was queued and ran.
    Times,
    /// The version itself, as a recording.
    Recording,
}

/// What a report is of.
#[derive(Clone, Copy, PartialEq, Eq, Debug)]
pub enum Subject {
    /// The version of this number.
    Version(u32),
    /// The version at which the session of this number stands.
    Head(u32),
}

/// A step of a script.
#[derive(Drop)]
pub enum Step {
    /// Opens a session at a version.
    Open {
        session: u32,
        version: u32,
    },
    /// Asks for the version at which a session stands.
    Head {
        session: u32,
    },
    /// Takes a session back to the version before.
    Undo {
        session: u32,
    },
    /// Closes a session.
    Close {
        session: u32,
    },
    /// Commits edits to a session.
    Change {
        session: u32,
        /// The version that is edited; none for the session's head.
        base: Option<u32>,
        edits: Edits,
        /// Whether the step is `edits`, so that a refusal prints the index of its edit; each other step has one edit.
        listed: bool,
    },
    /// Asks for a report of a version.
    Report {
        subject: Subject,
        asked: Asked,
    },
}

/// The name of a step.
#[derive(Clone, Copy, PartialEq, Eq, Debug)]
pub(crate) enum StepName {
    Open,
    Head,
    Undo,
    Close,
    Change(EditName),
    Edits,
    Report,
}

impl StepName {
    /// The step that a text names, if it names one.
    fn new(text: &str) -> Option<StepName>
        ensures { result ≡ step_name_of text.now }
    {
        match text {
            "open" => Some(StepName::Open),
            "head" => Some(StepName::Head),
            "undo" => Some(StepName::Undo),
            "close" => Some(StepName::Close),
            "edits" => Some(StepName::Edits),
            "report" => Some(StepName::Report),
            _ => Some(StepName::Change(EditName::new(text)?)),
        }
    }
}

impl FromJson for StepName {
    ghost form = { step_name_in };

    fn from_json(_: Global, value: &Tree<'_, '_>) -> Result<StepName, Unread> {
        match value.as_str() {
            Some(text) => StepName::new(text).ok_or(Unread::Shape),
            None => Err(Unread::Shape),
        }
    }
}

/// The name of a report.
#[derive(Clone, Copy, PartialEq, Eq, Debug)]
pub(crate) enum ReportName {
    All,
    One,
    Blame,
    Path,
    Sweep,
    Changes,
    Drift,
    Times,
    Recording,
}

impl ReportName {
    /// The report that a text names, if it names one.
    fn new(text: &str) -> Option<ReportName>
        ensures { result ≡ beside report_names text.now }
    {
        match text {
            "all" => Some(ReportName::All),
            "one" => Some(ReportName::One),
            "blame" => Some(ReportName::Blame),
            "path" => Some(ReportName::Path),
            "sweep" => Some(ReportName::Sweep),
            "changes" => Some(ReportName::Changes),
            "drift" => Some(ReportName::Drift),
            "times" => Some(ReportName::Times),
            "recording" => Some(ReportName::Recording),
            _ => None,
        }
    }
}

impl FromJson for ReportName {
    ghost form = { report_name_in };

    fn from_json(_: Global, value: &Tree<'_, '_>) -> Result<ReportName, Unread> {
        match value.as_str() {
            Some(text) => ReportName::new(text).ok_or(Unread::Shape),
            None => Err(Unread::Shape),
        }
    }
}

/// What the report is of: the version at which a session stands if there is `session`, and then `version` is a fault.
fn read_subject(alloc: Global, object: &Tree<'_, '_>) -> Result<Subject, Fault>
    ensures { IsRead result (subject_in object.now) }
{
    if object.get(Member::Session.text()).is_none() {
        let version = required(alloc, object, Member::Version)?;
        return Ok(Subject::Version(version));
    }
    if object.get(Member::Version.text()).is_some() {
        return Err(Fault::Shape(Member::Session));
    }
    let session = required(alloc, object, Member::Session)?;
    Ok(Subject::Head(session))
}

/// What the report is: `what`, with `stage` for the four that need one and `against` for the two that can compare.
fn read_asked(alloc: Global, name: ReportName, object: &Tree<'_, '_>) -> Result<Asked, Fault>
    ensures { IsRead result (asked_of name object.now) }
{
    match name {
        ReportName::All => Ok(Asked::All),
        ReportName::One => Ok(Asked::One(required(alloc, object, Member::Stage)?)),
        ReportName::Blame => Ok(Asked::Blame(required(alloc, object, Member::Stage)?)),
        ReportName::Path => Ok(Asked::Path(required(alloc, object, Member::Stage)?)),
        ReportName::Sweep => Ok(Asked::Sweep(required(alloc, object, Member::Stage)?)),
        ReportName::Changes => Ok(Asked::Changes(if_present(alloc, object, Member::Against)?)),
        ReportName::Drift => Ok(Asked::Drift(if_present(alloc, object, Member::Against)?)),
        ReportName::Times => Ok(Asked::Times),
        ReportName::Recording => Ok(Asked::Recording),
    }
}

/// The step of a name, from its members.
#[tactic(auto, unfolding(crate::specs::StepOf::step_with))]
fn read_members(alloc: Global, name: StepName, object: &Tree<'_, '_>) -> Result<Step, Fault>
    ensures { IsRead result (step_with name object.now) }
{
    match name {
        StepName::Open => Ok(Step::Open {
            session: required(alloc, object, Member::Session)?,
            version: required(alloc, object, Member::Version)?,
        }),
        StepName::Head => Ok(Step::Head {
            session: required(alloc, object, Member::Session)?,
        }),
        StepName::Undo => Ok(Step::Undo {
            session: required(alloc, object, Member::Session)?,
        }),
        StepName::Close => Ok(Step::Close {
            session: required(alloc, object, Member::Session)?,
        }),
        StepName::Change(name) => {
            let session = required(alloc, object, Member::Session)?;
            let base = if_present(alloc, object, Member::Base)?;
            let edit = read_edit(alloc, name, object)?;
            Ok(Step::Change {
                session,
                base,
                edits: Edits::one(alloc, edit)?,
                listed: false,
            })
        }
        StepName::Edits => Ok(Step::Change {
            session: required(alloc, object, Member::Session)?,
            base: if_present(alloc, object, Member::Base)?,
            edits: read_edits(alloc, object)?,
            listed: true,
        }),
        StepName::Report => {
            let subject = read_subject(alloc, object)?;
            let name = required::<ReportName>(alloc, object, Member::What)?;
            let asked = read_asked(alloc, name, object)?;
            Ok(Step::Report { subject, asked })
        }
    }
}

/// The step that a JSON value is.
fn read_value(alloc: Global, value: &Tree<'_, '_>) -> Result<Step, Fault>
    ensures { IsRead result (step_in value.now) }
{
    if !value.is_object() {
        return Err(Fault::Shape(Member::Step));
    }
    let name = required::<StepName>(alloc, value, Member::Do)?;
    read_members(alloc, name, value)
}

/// Reads steps, in room that is kept from one step to the next: to make it anew takes longer than to read a step.
#[derive(Drop)]
pub struct StepReader {
    alloc: Global,
    room: Scratch,
}

impl StepReader {
    /// A reader of steps. It asks for memory only as it reads.
    pub fn new(alloc: Global) -> StepReader {
        StepReader {
            alloc,
            room: Scratch::new(alloc),
        }
    }

    /// The step in the bytes of a line, or the first fault in them: no JSON, the first member that doesn't have its
    /// form, or last of all a list of no edits or of more than 64.
    pub fn read(&mut self, bytes: &[u8]) -> Result<Step, Fault>
        ensures { IsRead result (step_of bytes.now) }
    {
        let document = read_json(self.alloc, bytes, &mut self.room)?;
        read_value(self.alloc, &document.root())
    }
}

/// The one step in these bytes, or the first fault in them, as `StepReader` reads it.
pub fn read_step(alloc: Global, bytes: &[u8]) -> Result<Step, Fault>
    ensures { IsRead result (step_of bytes.now) }
{
    StepReader::new(alloc).read(bytes)
}
