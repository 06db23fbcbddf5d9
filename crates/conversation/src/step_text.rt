//! Steps as JSON, on one line.
use crate::edit_text::EditText;
use recording::{Asked, Step, Subject};
use stage_graph::Edit;
use std::alloc::{AllocError, Global};
use std::fmt;

/// A step as JSON. Names have no character that would have to be escaped.
#[derive(Clone, Copy)]
struct StepText<'a>(&'a Step);

/// What a report is of, as a member.
#[derive(Clone, Copy)]
struct SubjectText(Subject);

impl fmt::Display for SubjectText {
    fn fmt<W: fmt::Write>(&self, f: &mut fmt::Formatter<W>) -> fmt::Result {
        match self.0 {
            Subject::Version(version) => write!(f, "\"version\":{version}"),
            Subject::Head(session) => write!(f, "\"session\":{session}"),
        }
    }
}

/// What a report tells, as members.
#[derive(Clone, Copy)]
struct AskedText<'a>(&'a Asked);

impl AskedText<'_> {
    /// The name of the report.
    fn name(self) -> &'static str {
        match self.0 {
            Asked::All => "all",
            Asked::One(_) => "one",
            Asked::Blame(_) => "blame",
            Asked::Path(_) => "path",
            Asked::Sweep(_) => "sweep",
            Asked::Changes(_) => "changes",
            Asked::Drift(_) => "drift",
            Asked::Times => "times",
            Asked::Recording => "recording",
        }
    }
}

impl fmt::Display for AskedText<'_> {
    fn fmt<W: fmt::Write>(&self, f: &mut fmt::Formatter<W>) -> fmt::Result {
        let name = self.name();
        write!(f, "\"what\":\"{name}\"")?;
        match self.0 {
            Asked::One(stage) | Asked::Blame(stage) | Asked::Path(stage) | Asked::Sweep(stage) => {
                let stage = stage.as_str();
                write!(f, ",\"stage\":\"{stage}\"")
            }
            Asked::Changes(Some(against)) | Asked::Drift(Some(against)) => {
                write!(f, ",\"against\":{against}")
            }
            Asked::Changes(None) | Asked::Drift(None) => Ok(()),
            Asked::All | Asked::Times | Asked::Recording => Ok(()),
        }
    }
}

/// Edits, with a comma between each two.
#[derive(Clone, Copy)]
struct EditsText<'a>(&'a [Edit]);

impl fmt::Display for EditsText<'_> {
    fn fmt<W: fmt::Write>(&self, f: &mut fmt::Formatter<W>) -> fmt::Result {
        let Some((first, others)) = self.0.split_first() else {
            return Ok(());
        };
        let text = EditText(first);
        write!(f, "{text}")?;
        for edit in others {
            let text = EditText(edit);
            write!(f, ",{text}")?;
        }
        Ok(())
    }
}

impl fmt::Display for StepText<'_> {
    fn fmt<W: fmt::Write>(&self, f: &mut fmt::Formatter<W>) -> fmt::Result {
        match self.0 {
            Step::Open { session, version } => write!(
                f,
                "{{\"do\":\"open\",\"session\":{session},\"version\":{version}}}"
            ),
            Step::Head { session } => write!(f, "{{\"do\":\"head\",\"session\":{session}}}"),
            Step::Undo { session } => write!(f, "{{\"do\":\"undo\",\"session\":{session}}}"),
            Step::Close { session } => write!(f, "{{\"do\":\"close\",\"session\":{session}}}"),
            Step::Change { session, edits, .. } => {
                // (words say a list of edits of the session's head)
                let edits = EditsText(edits.as_slice());
                write!(
                    f,
                    "{{\"do\":\"edits\",\"session\":{session},\"edits\":[{edits}]}}"
                )
            }
            Step::Report { subject, asked } => {
                let subject = SubjectText(*subject);
                let asked = AskedText(asked);
                write!(f, "{{\"do\":\"report\",{subject},{asked}}}")
            }
        }
    }
}

/// The line of a step that words say.
pub(crate) fn step_text(alloc: Global, step: &Step) -> Result<String, AllocError> {
    let text = StepText(step);
    format!(in alloc; "{text}")
}
